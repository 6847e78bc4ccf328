//! Requests in which texts stand in quotes, as `write 40:1 28 "Hello"`: a backslash stands there before a quote, a
//! backslash, or `x` and two hexadecimal digits.

ghost use Rattle.std.specs.Prelude.{◌≡◌, ◌⊎◌, ◌<◌, ◌∷◌, ◌++◌, [], IfOk, IfErr, option_map};
ghost use Rattle.printing.specs.Printed.{pair_of};
ghost use Rattle.printing.specs.Printed as printed;
ghost use Rattle.primitives.specs.Sound.{IsSoundRequest};
ghost use Rattle.words.specs.NoRequests.{HasSingleValues};
ghost use Rattle.words.specs.Quoted.{NoQuoted, SaysQuoted, SaysQuotedUnfit};
ghost use Rattle.words.specs.Quoted as spec;

use crate::parts::cut_at;
use crate::request::parse_request;
use crate::unread::Unread;
use primitives::Request;
use std::alloc::{AllocError, Allocator};

/// Where a character stands.
#[derive(Clone, Copy, Debug, PartialEq, Eq)]
enum Place {
    /// Outside of all texts.
    Outside,
    /// Right behind the quote that begins a text.
    Begun,
    /// In a text.
    Inside,
    /// Right behind a backslash.
    Escaped,
    /// Where the first of two hexadecimal digits has to stand.
    HighDigit,
    /// Where the second one has to stand.
    LowDigit,
}

/// The request that words say, in which texts may stand in quotes; it has a spelling, and one value for each write.
///
/// # Errors
/// `Memory`, `Request` for a text in quotes that doesn't end or has another escape, or what is missing of the words.
#[tactic(auto, using(crate::proofs::QuotedLaws::quoted_laws))]
pub fn parse_quoted_request<A: Allocator + Copy>(
    alloc: A,
    words: &str,
) -> Result<Request<A>, Unread>
    ensures read { IfOk result (SaysQuoted words.now) }
    ensures single { IfOk result HasSingleValues }
    ensures sound { IfOk result IsSoundRequest }
    ensures refused { IfErr result (λ e. (e ≡ Unread.Memory) ⊎ NoQuoted A words.now ⊎ SaysQuotedUnfit A words.now) }
{
    match cut_at(words, '"') {
        Some(_) => parse_unquoted(alloc, words),
        None => parse_request(alloc, words),
    }
}

/// The request that words say in which a quote stands.
#[tactic(auto, using(crate::proofs::QuotedLaws::quoted_laws))]
fn parse_unquoted<A: Allocator + Copy>(alloc: A, words: &str) -> Result<Request<A>, Unread>
    ensures read { IfOk result (SaysQuoted words.now) }
    ensures single { IfOk result HasSingleValues }
    ensures sound { IfOk result IsSoundRequest }
    ensures refused { IfErr result (λ e. (e ≡ Unread.Memory) ⊎ NoQuoted A words.now ⊎ SaysQuotedUnfit A words.now) }
{
    let Some(plain) = unquoted(alloc, words)? else {
        return Err(Unread::Request);
    };
    let Ok(plain) = std::str::from_utf8(plain.as_slice()) else {
        return Err(Unread::Request);
    };
    parse_request(alloc, plain)
}

/// The words with `text` and its octets in place of each text in quotes; none where a text doesn't end, or has another
/// escape.
///
/// # Errors
/// Want of memory.
#[tactic(auto, using(crate::proofs::QuotedLaws::scan_laws))]
pub fn unquoted<A: Allocator + Copy>(
    alloc: A,
    words: &str,
) -> Result<Option<Vec<u8, A>>, AllocError>
    ensures { IfOk result (λ plain. option_map (λ p. p.items) plain ≡ spec.unquoted words.now) }
{
    let mut said = Vec::new(alloc);
    let mut place = Place::Outside;
    let mut left = words.as_bytes();
    while let [octet, rest @ ..] = left {
        let Some((now_said, at)) = with_next(said, place, *octet)? else {
            return Ok(None);
        };
        said = now_said;
        place = at;
        left = rest;
    }
    match place {
        Place::Outside => Ok(Some(said)),
        _ => Ok(None),
    }
}

/// What a character makes of what is said so far, and where the next one stands.
fn with_next<A: Allocator>(
    said: Vec<u8, A>,
    place: Place,
    octet: u8,
) -> Result<Option<(Vec<u8, A>, Place)>, AllocError>
    ensures { IfOk result (λ next. option_map (λ n. (n.0.items, n.1)) next ≡ spec.with_next said.items place octet) }
{
    match place {
        Place::Outside if octet == b'"' => Ok(Some((with_kind(said)?, Place::Begun))),
        Place::Outside => Ok(Some((with_octet(said, octet)?, Place::Outside))),
        Place::Begun if octet == b'"' => Ok(Some((with_octet(said, b'-')?, Place::Outside))),
        Place::Begun | Place::Inside => in_quotes(said, octet),
        Place::Escaped => escaped(said, octet),
        Place::HighDigit if is_digit(octet) => {
            Ok(Some((with_octet(said, octet)?, Place::LowDigit)))
        }
        Place::LowDigit if is_digit(octet) => Ok(Some((with_octet(said, octet)?, Place::Inside))),
        Place::HighDigit | Place::LowDigit => Ok(None),
    }
}

/// The same of a character in a text.
fn in_quotes<A: Allocator>(
    said: Vec<u8, A>,
    octet: u8,
) -> Result<Option<(Vec<u8, A>, Place)>, AllocError>
    ensures { IfOk result (λ next. option_map (λ n. (n.0.items, n.1)) next ≡ spec.in_quotes said.items octet) }
{
    match octet {
        b'"' => Ok(Some((said, Place::Outside))),
        b'\\' => Ok(Some((said, Place::Escaped))),
        _ => Ok(Some((with_pair(said, octet)?, Place::Inside))),
    }
}

/// The same of a character behind a backslash.
fn escaped<A: Allocator>(
    said: Vec<u8, A>,
    octet: u8,
) -> Result<Option<(Vec<u8, A>, Place)>, AllocError>
    ensures { IfOk result (λ next. option_map (λ n. (n.0.items, n.1)) next
        ≡ spec.with_next said.items Place.Escaped octet) }
{
    match octet {
        b'"' | b'\\' => Ok(Some((with_pair(said, octet)?, Place::Inside))),
        b'x' => Ok(Some((said, Place::HighDigit))),
        _ => Ok(None),
    }
}

/// Whether a character is a hexadecimal digit of either case.
fn is_digit(octet: u8) -> bool
    ensures { result ≡ spec.is_digit octet }
{
    matches!(octet, b'0'..=b'9' | b'A'..=b'F' | b'a'..=b'f')
}

/// What is said so far, and `text` where it doesn't end with that.
fn with_kind<A: Allocator>(said: Vec<u8, A>) -> Result<Vec<u8, A>, AllocError>
    ensures { IfOk result (λ now_said. now_said.items ≡ said.items ++ spec.kind_before said.items) }
{
    let mut said = said;
    if !said.as_slice().ends_with(b"text ") {
        said.extend_from_slice(b"text ")?;
    }
    Ok(said)
}

/// What is said so far, and an octet.
fn with_octet<A: Allocator>(said: Vec<u8, A>, octet: u8) -> Result<Vec<u8, A>, AllocError>
    ensures { IfOk result (λ now_said. now_said.items ≡ said.items ++ octet ∷ []) }
{
    let mut said = said;
    said.push(octet)?;
    Ok(said)
}

/// What is said so far, and an octet as two hexadecimal digits.
fn with_pair<A: Allocator>(said: Vec<u8, A>, octet: u8) -> Result<Vec<u8, A>, AllocError>
    ensures { IfOk result (λ now_said. now_said.items ≡ said.items ++ pair_of octet) }
{
    let said = with_octet(said, digit(octet / 16))?;
    with_octet(said, digit(octet % 16))
}

/// A hexadecimal digit, from A on in upper case.
fn digit(number: u8) -> u8
    requires { number < 16 }
    ensures { result ≡ printed.digit number }
{
    if number < 10 {
        48 + number
    } else {
        55 + number
    }
}
