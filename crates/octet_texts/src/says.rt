//! Octets in any form of text that is read.

ghost use Rattle.octet_texts.specs.Says.{OnlySays, Says, SaysNone};
ghost use Rattle.std.specs.List.{join_with_byte};
ghost use Rattle.std.specs.Prelude.{IfNone, IfOk, IfSome, map, string_bytes};

use crate::dumps::read_dump;
use crate::lists::plain;
use crate::pairs::{joined, spelled};
use std::alloc::{AllocError, Allocator};
use tags::Octets;

/// The octets that words say: as pairs of digits; as Wireshark and C list them, `81:0a:00` and `0x81, 0x0a`; or as the
/// lines of a hex dump. `None` for any other text.
#[tactic(auto, using(crate::proofs::SaysLaws::says_laws))]
pub fn read_octets<A: Allocator + Copy>(
    alloc: A,
    words: &[String],
) -> Result<Option<Octets<A>>, AllocError>
    ensures read { IfOk result (λ found. IfSome found (Says (join_with_byte 32 (map string_bytes words.now)))) }
    ensures only { IfOk result (λ found. IfSome found (OnlySays (join_with_byte 32 (map string_bytes words.now)))) }
    ensures faulty { IfOk result (λ found. IfNone found (SaysNone (join_with_byte 32 (map string_bytes words.now)))) }
{
    let text = joined(alloc, words)?;
    if let Some(octets) = spelled(alloc, text.as_bytes())? {
        return Ok(Some(octets));
    }
    let pairs = plain(alloc, text.as_bytes())?;
    match spelled(alloc, pairs.as_slice())? {
        Some(octets) => Ok(Some(octets)),
        None => read_dump(alloc, text.as_str()),
    }
}
