//! Unsigned and signed numbers as contents octets (20.2.4, 20.2.5, 20.2.11).

ghost use Rattle.std.specs.Prelude.{◌≡◌, ◌<◌, IfOk, IfErr, length};
ghost use Rattle.tags.specs.Number.{SpellsUnsigned, SpellsSigned};

use crate::fault::Fault;
use contents_octets::{signed_of, unsigned_of};

/// The number of one to four contents octets, most significant first (20.2.4, 20.2.11). Needless
/// octets in front are read.
///
/// # Errors
/// `BadLength` for no octet, or more than four.
pub fn unsigned_from_contents(octets: &[u8]) -> Result<u32, Fault>
    ensures read { IfOk result (λ n. SpellsUnsigned octets.now n) }
    ensures refused { IfErr result (λ fault. (fault ≡ Fault.BadLength) ×
        ((0 < length octets.now) → 4 < length octets.now)) }
{
    match unsigned_of(octets) {
        Some(n) => Ok(n),
        None => Err(Fault::BadLength),
    }
}

/// The number of one to four contents octets in two's complement (20.2.5).
///
/// # Errors
/// `BadLength` for no octet, or more than four.
pub fn signed_from_contents(octets: &[u8]) -> Result<i32, Fault>
    ensures read { IfOk result (λ z. SpellsSigned octets.now z) }
    ensures refused { IfErr result (λ fault. (fault ≡ Fault.BadLength) ×
        ((0 < length octets.now) → 4 < length octets.now)) }
{
    match signed_of(octets) {
        Some(z) => Ok(z),
        None => Err(Fault::BadLength),
    }
}
