//! What holds of all headers and their spellings, and of all stations.

ghost use Rattle.std.specs.Prelude.{◌≡◌, ◌≤◌, ◌/◌, ◌%◌, ℕ, List, length};
ghost use Rattle.npdu.specs.Header as header;
ghost use Rattle.npdu.specs.Header.{Header, IsSound, Spells, canonical, control_of};
ghost use Rattle.npdu.specs.Refusals.{Refuses};
ghost use Rattle.tags.specs.declared.fault.Fault.{Fault};
ghost use Rattle.npdu.specs.Mac.{IsSameStation, StationOrder};
ghost use Rattle.npdu.specs.declared.mac.Station.{Station};

use crate::view::INITIAL_HOP_COUNT;

/// What octets spell is one header, and octets are refused for one cause.
pub fn one_header()
    ensures header { (octets : List ℕ) (h k : Header) → Spells octets h → Spells octets k → h ≡ k }
    ensures fault { (octets : List ℕ) (d e : Fault) → Refuses d octets → Refuses e octets → d ≡ e }
{}

/// The canonical octets of a header spell it with control bits 6 and 4 clear, and no spelling of it is shorter.
pub fn canonical_is_shortest()
    ensures spelled { (h : Header) → IsSound h → Spells (canonical h) h }
    ensures shortest { (octets : List ℕ) (h : Header) → Spells octets h → length (canonical h) ≤ length octets }
    ensures bit_6 { (h : Header) → control_of h / 64 % 2 ≡ 0 }
    ensures bit_4 { (h : Header) → control_of h / 16 % 2 ≡ 0 }
{}

/// The hop count that a message begins with is that of its definition (6.2.3).
pub fn initial_hop_count() -> u8
    ensures { result ≡ header.INITIAL_HOP_COUNT }
{
    INITIAL_HOP_COUNT
}

/// Stations are one exactly where their networks and addresses are the same.
#[tactic(auto, using(crate::proofs::Stations::one_station))]
pub fn one_station()
    ensures { (a b : Station) → IsSameStation a b }
{}

/// Stations stand in a total order, in which no two different ones are equal.
#[tactic(auto, using(crate::proofs::Stations::station_order))]
pub fn station_order()
    ensures { StationOrder }
{}
