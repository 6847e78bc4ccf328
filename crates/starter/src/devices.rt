//! How many devices a first site has.

ghost use Rattle.std.specs.Prelude.{ℕ, IfNone, IfSome};
ghost use Rattle.starter.specs.Devices.{SaysDevices};

/// The greatest number of devices: so many requests, and a few more, are open at a client at once.
pub const MOST_DEVICES: u16 = 250;

/// The number of devices that a word says: 1 to 250.
pub fn devices_in(word: &str) -> Option<u16>
    ensures read { IfSome result (SaysDevices word.now) }
    ensures other { IfNone result ((n : ℕ) → SaysDevices word.now n → ⊥) }
{
    match word.parse::<u16>() {
        Ok(devices) if 1 <= devices && devices <= MOST_DEVICES => Some(devices),
        _ => None,
    }
}
