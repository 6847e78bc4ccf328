//! Who-Is and I-Am, by which devices are found (16.10).

ghost use Rattle.std.specs.Prelude.{◌≡◌, ◌<◌, ◌≤◌, ◌^◌, ◌++◌, ◌↔◌, [], Some, IsTrue, IfSome, IfNone, IfErr, OnOk};
ghost use Rattle.std.specs.Prelude.{OnErr, MatchResult};
ghost use Rattle.apdu.specs.Unconfirmed.{service_number, NoService, segmentation_number, limits_octets, Covers};
ghost use Rattle.apdu.specs.Unconfirmed.{SpellsWhoIs, OnlyWhoIs, NoWhoIs, SpellsLimits, OnlyLimits, NoLimits};
ghost use Rattle.apdu.specs.Unconfirmed.{i_am_octets, SpellsIAm, OnlyIAm, NoIAm, SaysSegmentation};
ghost use Rattle.apdu.specs.Parameter.{Takes, Only, Lacks};
ghost use Rattle.tags.specs.Canonical.{Extends};
ghost use Rattle.tags.specs.declared.fault.Fault.TheVariants.{NoSuch};

use apdu_fields::{number_from, object_from};
use primitives::ObjectType;
use std::alloc::Allocator;
use tags::{Class, Fault, ObjectId, Reader, all_or_none, write_object, write_unsigned};

/// The unconfirmed services of this product (21, BACnetUnconfirmedServiceChoice).
#[derive(Clone, Copy, Debug, PartialEq, Eq)]
pub enum UnconfirmedService {
    IAm = 0,
    WhoIs = 8,
}

impl From<UnconfirmedService> for u8 {
    ghost from_gives = { λ service n. n ≡ service_number service };

    fn from(service: UnconfirmedService) -> u8 {
        service as u8
    }
}

/// The service of a number; `NoSuch` for a service that this product does not have.
impl TryFrom<u8> for UnconfirmedService {
    type Error = Fault;

    ghost try_from_gives = { λ n r. MatchResult r (λ service. service_number service ≡ n)
        (λ e. (e ≡ NoSuch) × NoService n) };

    fn try_from(number: u8) -> Result<UnconfirmedService, Fault> {
        match number {
            0 => Ok(UnconfirmedService::IAm),
            8 => Ok(UnconfirmedService::WhoIs),
            _ => Err(Fault::NoSuch),
        }
    }
}

/// The instances that a Who-Is asks for, both limits among them (16.10.1.1.1). Where `low` is over
/// `high` there is none.
#[derive(Clone, Copy, Debug, PartialEq, Eq)]
pub struct Limits {
    /// Device Instance Range Low Limit.
    pub low: u32,
    /// Device Instance Range High Limit.
    pub high: u32,
}

/// Asks devices to say who they are: all, or those with an instance within limits (16.10.1).
#[derive(Clone, Copy, Debug, PartialEq, Eq)]
pub struct WhoIs {
    pub limits: Option<Limits>,
}

impl WhoIs {
    /// Whether the device of this instance is asked.
    pub fn covers(&self, instance: u32) -> bool
        ensures { IsTrue result ↔ Covers self.now.limits instance }
    {
        match self.limits {
            Some(limits) => limits.low <= instance && instance <= limits.high,
            None => true,
        }
    }
}

/// Whether a device takes and sends segments (21, BACnetSegmentation).
#[derive(Clone, Copy, Debug, PartialEq, Eq)]
pub enum Segmentation {
    Both = 0,
    Transmit = 1,
    Receive = 2,
    NoSegmentation = 3,
}

impl From<Segmentation> for u32 {
    ghost from_gives = { λ segmentation n. n ≡ segmentation_number segmentation };

    fn from(segmentation: Segmentation) -> u32 {
        match segmentation {
            Segmentation::Both => 0,
            Segmentation::Transmit => 1,
            Segmentation::Receive => 2,
            Segmentation::NoSegmentation => 3,
        }
    }
}

/// The segmentation of a number; one over 3 is refused as `NoSuch`.
impl TryFrom<u32> for Segmentation {
    type Error = Fault;

    ghost try_from_gives = { λ n r. MatchResult r (λ segmentation. segmentation_number segmentation ≡ n)
        (λ e. (e ≡ NoSuch) × (4 ≤ n)) };

    fn try_from(number: u32) -> Result<Segmentation, Fault> {
        match number {
            0 => Ok(Segmentation::Both),
            1 => Ok(Segmentation::Transmit),
            2 => Ok(Segmentation::Receive),
            3 => Ok(Segmentation::NoSegmentation),
            _ => Err(Fault::NoSuch),
        }
    }
}

/// A device says who it is (16.10.3).
#[derive(Clone, Copy, Debug, PartialEq, Eq)]
pub struct IAm {
    /// The Device object's instance, 0 to 4194303.
    pub instance: u32,
    /// How many octets an APDU to the device has at most.
    pub max_apdu: u32,
    /// Whether the device takes and sends segments.
    pub segmentation: Segmentation,
    /// The vendor's identifier.
    pub vendor: u32,
}

/// The Who-Is that the octets spell, all of them: no limits, or both (16.10.1). `None` where they
/// spell none.
#[tactic(auto, using(crate::proofs::UnconfirmedLaws::who_is_rules))]
pub fn who_is_from(data: &[u8]) -> Option<WhoIs>
    ensures read { IfSome result (λ w. SpellsWhoIs data.now w.limits) }
    ensures only { IfSome result (λ w. OnlyWhoIs data.now w.limits) }
    ensures refused { IfNone result (NoWhoIs data.now) }
{
    if data.is_empty() {
        return Some(WhoIs { limits: None });
    }
    let limits = limits_from(data)?;
    Some(WhoIs {
        limits: Some(limits),
    })
}

/// Both limits, and nothing behind them.
#[tactic(auto, using(crate::proofs::UnconfirmedLaws::limits_rules))]
fn limits_from(data: &[u8]) -> Option<Limits>
    ensures read { IfSome result (λ l. SpellsLimits data.now l.low l.high) }
    ensures only { IfSome result (λ l. OnlyLimits data.now l.low l.high) }
    ensures refused { IfNone result (NoLimits data.now) }
{
    let mut reader = Reader::new(data);
    let low = number_from(Class::Context, 0, &mut reader)?;
    let high = number_from(Class::Context, 1, &mut reader)?;
    if !reader.is_at_end() {
        return None;
    }
    Some(Limits { low, high })
}

/// Appends a Who-Is in its shortest octets (16.10.1).
///
/// # Errors
///
/// `Memory` alone. The buffer is then as it was.
#[tactic(auto, using(crate::proofs::UnconfirmedLaws::spelled_rules))]
pub fn write_who_is<B: Allocator>(who_is: &WhoIs, out: &mut Vec<u8, B>) -> Result<(), Fault>
    ensures written { OnOk result (out.new.items ≡ out.old.items ++ limits_octets who_is.now.limits) }
    ensures spelled { OnOk result (SpellsWhoIs (limits_octets who_is.now.limits) who_is.now.limits) }
    ensures memory { IfErr result (λ e. e ≡ Fault.Memory) }
    ensures unchanged { OnErr result (out.new.items ≡ out.old.items) }
{
    let Some(limits) = who_is.limits else {
        return Ok(());
    };
    let start = out.len();
    let put = put_limits(limits, out);
    all_or_none(put, start, out)
}

fn put_limits<B: Allocator>(limits: Limits, out: &mut Vec<u8, B>) -> Result<(), Fault>
    ensures put { OnOk result (out.new.items ≡ out.old.items ++ limits_octets (Some limits)) }
    ensures fits { OnOk result ((limits.low < 2 ^ 32) × (limits.high < 2 ^ 32)) }
    ensures err { OnErr result (Extends out.old.items out.new.items) }
{
    write_unsigned(Class::Context, 0, limits.low, out)?;
    write_unsigned(Class::Context, 1, limits.high, out)
}

/// The I-Am that the octets spell, all of them (16.10.3). `None` where they spell none: another
/// object type than Device and a segmentation over 3 among them.
#[tactic(auto, using(crate::proofs::UnconfirmedLaws::i_am_rules))]
pub fn i_am_from(data: &[u8]) -> Option<IAm>
    ensures read { IfSome result (λ i. SpellsIAm data.now i) }
    ensures only { IfSome result (λ i. OnlyIAm data.now i) }
    ensures refused { IfNone result (NoIAm data.now) }
{
    let mut reader = Reader::new(data);
    let device = object_from(Class::Application, 12, &mut reader)?;
    if device.object_type != u16::from(ObjectType::Device) {
        return None;
    }
    let max_apdu = number_from(Class::Application, 2, &mut reader)?;
    let segmentation = segmentation_from(&mut reader)?;
    let vendor = number_from(Class::Application, 2, &mut reader)?;
    if !reader.is_at_end() {
        return None;
    }
    Some(IAm {
        instance: device.instance,
        max_apdu,
        segmentation,
        vendor,
    })
}

/// The Enumerated of a segmentation.
#[tactic(auto, using(crate::proofs::UnconfirmedLaws::segmentation_rules))]
fn segmentation_from(reader: &mut Reader<'_>) -> Option<Segmentation>
    ensures read { IfSome result (λ s. Takes SaysSegmentation Class.Application 9 reader.old s reader.new) }
    ensures only { IfSome result (λ s. Only SaysSegmentation Class.Application 9 reader.old s reader.new) }
    ensures refused { IfNone result (Lacks SaysSegmentation Class.Application 9 reader.old) }
{
    let number = number_from(Class::Application, 9, reader)?;
    Segmentation::try_from(number).ok()
}

/// Appends an I-Am in its shortest octets (16.10.3).
///
/// # Errors
///
/// `Memory` alone. The buffer is then as it was.
#[tactic(auto, using(crate::proofs::UnconfirmedLaws::spelled_rules))]
pub fn write_i_am<B: Allocator>(i_am: &IAm, out: &mut Vec<u8, B>) -> Result<(), Fault>
    requires { i_am.now.instance < 2 ^ 22 }
    ensures written { OnOk result (out.new.items ≡ out.old.items ++ i_am_octets i_am.now) }
    ensures spelled { OnOk result (SpellsIAm (i_am_octets i_am.now) i_am.now) }
    ensures memory { IfErr result (λ e. e ≡ Fault.Memory) }
    ensures unchanged { OnErr result (out.new.items ≡ out.old.items) }
{
    let start = out.len();
    let put = put_i_am(i_am, out);
    all_or_none(put, start, out)
}

fn put_i_am<B: Allocator>(i_am: &IAm, out: &mut Vec<u8, B>) -> Result<(), Fault>
    requires { i_am.now.instance < 2 ^ 22 }
    ensures put { OnOk result (out.new.items ≡ out.old.items ++ i_am_octets i_am.now) }
    ensures fits { OnOk result ((i_am.now.max_apdu < 2 ^ 32) × (i_am.now.vendor < 2 ^ 32)) }
    ensures err { OnErr result (Extends out.old.items out.new.items) }
{
    let device = ObjectId {
        object_type: u16::from(ObjectType::Device),
        instance: i_am.instance,
    };
    write_object(Class::Application, 12, device, out)?;
    write_unsigned(Class::Application, 2, i_am.max_apdu, out)?;
    write_unsigned(Class::Application, 9, u32::from(i_am.segmentation), out)?;
    write_unsigned(Class::Application, 2, i_am.vendor, out)
}
