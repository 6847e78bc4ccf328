//! What octets from 55 FF on are: a frame, octets that spell none, or neither yet.

ghost use Rattle.std.specs.Prelude.{◌≡◌, ◌<◌, ◌≤◌, ◌∷◌, ◌↔◌, [], IsTrue, length, take, ◌⊎◌};
ghost use Rattle.mstp_frame.specs.Frame.{frame_of};
ghost use Rattle.mstp_frame.specs.FrameType.{IsNamed};
ghost use Rattle.mstp_frame.specs.Heard.{size_at, span, IsCut};
ghost use Rattle.mstp_frame.specs.Front.{frame_at, IsGoal, IsJudged, IsRead};

use crate::check::{data_check, header_check};
use crate::frame::{Frame, PREAMBLE};
use crate::frame_type::FrameType;
use byteorder::{BigEndian, ByteOrder};
use profile::MAX_FRAME_DATA_OCTETS;

/// The octets of a frame without data: 55 FF, the header and its check (9.3).
pub(crate) const HEADER_OCTETS: usize = 8;

/// The octets of a frame beside its data, where it has some (9.3).
const OCTETS_BESIDE_DATA: usize = 10;

/// What is left of a header with its check octet (Annex G.1).
const HEADER_REMAINDER: u8 = 0x55;

/// What is left of data with their check octets (Annex G.2).
const DATA_REMAINDER: u16 = 0xF0B8;

/// What octets from 55 FF on are.
#[derive(Clone, Copy)]
pub(crate) enum Front {
    /// More octets are to be taken with them.
    Unfinished,
    /// They spell no frame.
    Lost,
    /// They spell a frame.
    Whole,
}

/// The length of the data, as the header says it.
fn size_of(octets: &[u8]) -> usize
    requires { 8 ≤ length octets.now }
    ensures { result ≡ size_at octets.now }
{
    BigEndian::read_u16(&octets[5..]) as usize
}

/// With how many octets it is judged what the octets are.
#[tactic(auto, using(crate::proofs::Judging::goals))]
pub(crate) fn goal(octets: &[u8]) -> usize
    requires cut { IsCut octets.now }
    requires begun { 2 ≤ length octets.now }
    ensures goal { IsGoal octets.now result }
    ensures more { length octets.now < result }
    ensures most { result ≤ 511 }
{
    if octets.len() < HEADER_OCTETS {
        return HEADER_OCTETS;
    }
    OCTETS_BESIDE_DATA + size_of(octets)
}

/// Returns what the octets are, whose number is their goal.
pub(crate) fn judge(octets: &[u8]) -> Front
    requires begins { take 2 octets.now ≡ 0x55 ∷ 0xFF ∷ [] }
    requires goal { (length octets.now ≡ 8) ⊎ ((8 < length octets.now) × (length octets.now ≡ span octets.now)) }
    ensures { IsJudged octets.now result }
{
    if octets.len() == HEADER_OCTETS {
        judge_header(octets)
    } else {
        judge_data(octets)
    }
}

/// Returns what the eight octets of a header are.
#[tactic(auto, using(crate::proofs::Judging::judged))]
fn judge_header(octets: &[u8]) -> Front
    requires begins { take 2 octets.now ≡ 0x55 ∷ 0xFF ∷ [] }
    requires eight { length octets.now ≡ 8 }
    ensures { IsJudged octets.now result }
{
    let (_, header) = octets.split_at(2);
    if header_check(header) != !HEADER_REMAINDER {
        return Front::Lost;
    }
    match size_of(octets) {
        0 => Front::Whole,
        1..=MAX_FRAME_DATA_OCTETS => Front::Unfinished,
        _ => Front::Lost,
    }
}

/// Returns what a header, data and their check octets are.
#[tactic(auto, using(crate::proofs::Judging::judged))]
fn judge_data(octets: &[u8]) -> Front
    requires begins { take 2 octets.now ≡ 0x55 ∷ 0xFF ∷ [] }
    requires long { 8 < length octets.now }
    requires whole { length octets.now ≡ span octets.now }
    ensures { IsJudged octets.now result }
{
    let (_, behind) = octets.split_at(HEADER_OCTETS);
    if data_check(behind) == !DATA_REMAINDER {
        Front::Whole
    } else {
        Front::Lost
    }
}

/// Whether 55 FF begins the octets.
fn begins(octets: &[u8]) -> bool
    ensures { IsTrue result ↔ (take 2 octets.now ≡ 0x55 ∷ 0xFF ∷ []) }
{
    match octets {
        [first, second, ..] => *first == PREAMBLE[0] && *second == PREAMBLE[1],
        _ => false,
    }
}

/// Whether the octets, all of them, spell a frame.
#[tactic(auto, using(crate::proofs::Reading::reads))]
pub(crate) fn is_frame(octets: &[u8]) -> bool
    ensures { IsRead octets.now result }
{
    if octets.len() < HEADER_OCTETS || !begins(octets) {
        return false;
    }
    let (header, behind) = octets.split_at(HEADER_OCTETS);
    match judge_header(header) {
        Front::Lost => false,
        Front::Whole => behind.is_empty(),
        Front::Unfinished => octets.len() == OCTETS_BESIDE_DATA + size_of(octets)
            && has_data(octets),
    }
}

/// Whether a header, data and their check octets, of the length that the header says, spell a frame.
fn has_data(octets: &[u8]) -> bool
    requires begins { take 2 octets.now ≡ 0x55 ∷ 0xFF ∷ [] }
    requires long { 8 < length octets.now }
    requires whole { length octets.now ≡ span octets.now }
    ensures { IsRead octets.now result }
{
    match judge_data(octets) {
        Front::Whole => true,
        Front::Lost | Front::Unfinished => false,
    }
}

/// The frame whose fields stand at their places.
pub(crate) fn frame_from(octets: &[u8]) -> Frame<'_>
    requires { 8 ≤ length octets.now }
    ensures fields { frame_of result ≡ frame_at octets.now }
    ensures named { IsNamed result.frame_type }
{
    let end = octets.len().saturating_sub(OCTETS_BESIDE_DATA);
    let (_, behind) = octets.split_at(HEADER_OCTETS);
    Frame {
        frame_type: FrameType::from(octets[2]),
        destination: octets[3],
        source: octets[4],
        data: &behind[..end],
    }
}
