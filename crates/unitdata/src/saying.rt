//! The header that an APDU is said behind, and whether a reply is expected to it (6.2.2).

ghost use Rattle.std.specs.Prelude.{◌≡◌, ◌++◌, List, ℕ, true, IfOk, IfErr, IfSome, option_map};
ghost use Rattle.npdu.specs.Header.{IsDestination, canonical, destination_of};
ghost use Rattle.unitdata.specs.Saying.{destination_to, global_npdu, header_to, npdu_to};
ghost use Rattle.unitdata.specs.Saying as spec;

use apdu::PduType;
use apdu::tags::Fault;
use npdu::{Destination, Dnet, INITIAL_HOP_COUNT, Priority, Station, View};
use std::alloc::Allocator;

/// How many octets a buffer of an NPDU takes at first: so it doesn't grow for a short one.
const SHORT_NPDU: usize = 64;

/// Whether DNET and DADR can name a destination: its network's number is 1..=65534, and its address has one octet or
/// six (6.2.2).
pub fn is_spelled(destination: Option<Station>) -> bool
    ensures { result ≡ spec.is_spelled destination }
{
    match destination {
        None => true,
        Some(station) => { 0 < station.net && station.net < 65535 && station.mac.is_address() }
    }
}

/// The octets of an NPDU before its APDU, of normal priority, to a station of another network or to one of this
/// network. `expects_reply` is control bit 2.
///
/// # Errors
/// `Memory` alone.
#[tactic(auto, unfolding(crate::specs::Saying::npdu_to))]
pub fn begin<A: Allocator + Copy>(
    alloc: A,
    expects_reply: bool,
    destination: Option<Station>,
) -> Result<Vec<u8, A>, Fault>
    requires { spec.is_spelled destination ≡ true }
    ensures begun { IfOk result (λ out. (apdu : List ℕ) →
        out.items ++ apdu ≡ npdu_to expects_reply destination apdu) }
    ensures memory { IfErr result (λ fault. fault ≡ Fault.Memory) }
{
    match &destination {
        None => header(alloc, expects_reply, None),
        Some(station) => header(alloc, expects_reply, Some(destination_to(station))),
    }
}

/// The octets of an NPDU before its APDU, of normal priority, to all stations of all networks.
///
/// # Errors
/// `Memory` alone.
#[tactic(auto, unfolding(crate::specs::Saying::global_npdu))]
pub fn begin_global<A: Allocator + Copy>(alloc: A) -> Result<Vec<u8, A>, Fault>
    ensures begun { IfOk result (λ out. (apdu : List ℕ) → out.items ++ apdu ≡ global_npdu apdu) }
    ensures memory { IfErr result (λ fault. fault ≡ Fault.Memory) }
{
    let everywhere = Destination {
        net: Dnet::Global,
        mac: &[],
        hops: INITIAL_HOP_COUNT,
    };
    header(alloc, false, Some(everywhere))
}

/// A station as DNET and DADR name it.
fn destination_to(station: &Station) -> Destination<'_>
    ensures { destination_of result ≡ destination_to station.now }
{
    Destination {
        net: Dnet::Network(station.net),
        mac: station.mac.as_octets(),
        hops: INITIAL_HOP_COUNT,
    }
}

/// The octets of a header, before its APDU.
#[tactic(auto, using(crate::proofs::SayLaws::say_rules))]
fn header<A: Allocator + Copy>(
    alloc: A,
    expects_reply: bool,
    destination: Option<Destination<'_>>,
) -> Result<Vec<u8, A>, Fault>
    requires { IfSome (option_map destination_of destination) IsDestination }
    ensures begun { IfOk result (λ out. (apdu : List ℕ) → out.items ++ apdu ≡
        canonical (header_to expects_reply (option_map destination_of destination.entry) apdu)) }
    ensures memory { IfErr result (λ fault. fault ≡ Fault.Memory) }
{
    let view = View {
        expects_reply,
        priority: Priority::Normal,
        destination,
        source: None,
        message: None,
        body: &[],
    };
    let mut out = Vec::with_capacity(alloc, SHORT_NPDU)?;
    npdu::write(&view, &mut out)?;
    Ok(out)
}

/// Whether the sender of an APDU of this type, a segment or whole, waits for a reply to it: to a request, whole or a
/// segment, and to a segment of an answer (6.2.2).
pub fn expects_reply(kind: PduType, segmented: bool) -> bool
    ensures { result ≡ spec.expects_reply kind segmented }
{
    match kind {
        PduType::ConfirmedRequest => true,
        PduType::ComplexAck => segmented,
        PduType::UnconfirmedRequest
        | PduType::SimpleAck
        | PduType::SegmentAck
        | PduType::Error
        | PduType::Reject
        | PduType::Abort => false,
    }
}
