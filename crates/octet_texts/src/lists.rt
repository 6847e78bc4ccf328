//! Octets as Wireshark and C list them: with a colon or a comma between them, and `0x` before each.

ghost use Rattle.octet_texts.specs.Lists.{begins_with_digit, digit_follows, is_between, is_mark, is_prefixed, plain};
ghost use Rattle.octet_texts.specs.Lists.{spaced};
ghost use Rattle.std.specs.Prelude.{◌≡◌, ◌&&◌, ◌∷◌, true, false, drop, IfNone, IfOk, IfSome};

use std::alloc::{AllocError, Allocator};

/// The pairs of digits that a list of octets stands for.
pub(crate) fn plain<A: Allocator>(alloc: A, text: &[u8]) -> Result<Vec<u8, A>, AllocError>
    ensures { IfOk result (λ pairs. pairs.items ≡ plain text.now) }
{
    let mut pairs = Vec::new(alloc);
    let mut may_begin = true;
    let mut left = text;
    while let [first, after @ ..] = left {
        match after_prefix(may_begin, left) {
            Some(octet) => {
                may_begin = false;
                left = octet;
            }
            None => {
                pairs.push(spaced(*first, after))?;
                may_begin = is_between(*first);
                left = after;
            }
        }
    }
    Ok(pairs)
}

/// What follows a `0x` that one pair of digits follows, where an octet may begin.
#[tactic(auto, using(crate::proofs::ListLaws::short_text), unfolding(crate::specs::Lists::is_prefixed))]
fn after_prefix(may_begin: bool, text: &[u8]) -> Option<&[u8]>
    ensures some { IfSome result (λ octet. ((may_begin && is_prefixed text.now) ≡ true)
        × (text.now ≡ 48 ∷ 120 ∷ octet.now)) }
    ensures none { IfNone result ((may_begin && is_prefixed text.now) ≡ false) }
{
    let [first, second, octet @ ..] = text else {
        return None;
    };
    if may_begin && *first == b'0' && *second == b'x' && !third_is_digit(octet) {
        return Some(octet);
    }
    None
}

/// Whether the third character is a digit.
fn third_is_digit(text: &[u8]) -> bool
    ensures { result ≡ begins_with_digit (drop 2 text.now) }
{
    match text {
        [_, _, third, ..] => third.is_ascii_hexdigit(),
        _ => false,
    }
}

/// A space for a mark before an octet.
#[tactic(auto, unfolding(crate::specs::Lists::spaced))]
fn spaced(character: u8, after: &[u8]) -> u8
    ensures { result ≡ spaced character after.now }
{
    if is_mark(character) && digit_follows(after) {
        b' '
    } else {
        character
    }
}

/// Whether a character is a colon or a comma.
fn is_mark(character: u8) -> bool
    ensures { result ≡ is_mark character }
{
    character == b':' || character == b','
}

/// Whether a character stands between octets.
#[tactic(auto, unfolding(crate::specs::Lists::is_between))]
fn is_between(character: u8) -> bool
    ensures { result ≡ is_between character }
{
    character == b' ' || is_mark(character)
}

/// Whether a text begins with spaces, if any, and a digit.
#[tactic(auto, unfolding(crate::specs::Lists::digit_follows))]
fn digit_follows(text: &[u8]) -> bool
    ensures { result ≡ digit_follows text.now }
{
    let mut left = text;
    while let [first, after @ ..] = left {
        if *first != b' ' {
            return first.is_ascii_hexdigit();
        }
        left = after;
    }
    false
}
