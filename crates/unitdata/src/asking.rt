//! Whether an unconfirmed request asks who this device is (16.10.2).

ghost use Rattle.std.specs.Prelude.{IsTrue, IsFalse};
ghost use Rattle.unitdata.specs.Asking.{AsksOther, AsksWho};

use apdu::{UnconfirmedService, who_is_from};

/// Whether an unconfirmed request with these octets is a Who-Is that asks for the device of this instance (16.10.2).
pub fn asks_who(instance: u32, service: u8, data: &[u8]) -> bool
    ensures asks { IsTrue result → AsksWho instance service data.now }
    ensures other { IsFalse result → AsksOther instance service data.now }
{
    if service != u8::from(UnconfirmedService::WhoIs) {
        return false;
    }
    match who_is_from(data) {
        Some(who_is) => who_is.covers(instance),
        None => false,
    }
}
