//! Context-tagged elements, walked by counting openings and closings (20.2.1.3.2).

ghost use Rattle.std.specs.Prelude.{◌≡◌, ◌<◌, ◌^◌, List, ℕ, IfOk, IfErr, OnErr, IsTrue, ◌↔◌};
ghost use Rattle.tags.specs.Element.{waiting, ClosesBefore, NeverCloses, TakesElement, NoElement, IsElement};
ghost use Rattle.tags.specs.Refusal.{RefusesInside, RefusesElement};
ghost use Rattle.tags.specs.Tag.{plain_content};

use crate::fault::Fault;
use crate::reader::front_tag;
use crate::tag::{Class, Content};

/// How many opening tags wait for a closing one after a tag.
fn waiting_after(content: Content<'_>, depth: usize) -> usize
    requires { depth < 2 ^ 63 }
    ensures { result ≡ waiting (plain_content content.entry) depth }
{
    match content {
        Content::Opening => depth + 1,
        Content::Closing => depth.saturating_sub(1),
        _ => depth,
    }
}

/// What follows the closing tag that balances an opening one, of what follows the opening one.
fn after_closing(octets: &[u8]) -> Result<&[u8], Fault>
    ensures read { IfOk result (λ rest. ClosesBefore octets.now rest.now) }
    ensures refused { OnErr result (NeverCloses octets.now) }
    ensures fault { IfErr result (λ fault. RefusesInside fault octets.now) }
{
    let mut rest = octets;
    let mut depth: usize = 1;
    while depth > 0 {
        let (tag, next) = front_tag(rest)?;
        depth = waiting_after(tag.content, depth);
        rest = next;
    }
    Ok(rest)
}

/// What follows the element at the front.
fn after_element(octets: &[u8]) -> Result<&[u8], Fault>
    ensures read { IfOk result (λ rest. (front : List ℕ) × TakesElement octets.now front rest.now) }
    ensures refused { OnErr result (NoElement octets.now) }
    ensures fault { IfErr result (λ fault. RefusesElement fault octets.now) }
{
    let (tag, next) = front_tag(octets)?;
    match tag.content {
        Content::Opening => {
            let rest = after_closing(next)?;
            Ok(rest)
        }
        Content::Octets(_) => match tag.class {
            Class::Context => Ok(next),
            Class::Application => Err(Fault::BadTag),
        },
        Content::Null | Content::Boolean(_) | Content::Closing => Err(Fault::BadTag),
    }
}

/// The element at the front, and what follows it.
pub(crate) fn front_element(octets: &[u8]) -> Result<(&[u8], &[u8]), Fault>
    ensures read { IfOk result (λ x. TakesElement octets.now x.0.now x.1.now) }
    ensures refused { OnErr result (NoElement octets.now) }
    ensures fault { IfErr result (λ fault. RefusesElement fault octets.now) }
{
    let rest = after_element(octets)?;
    Ok(octets.split_at(octets.len() - rest.len()))
}

/// Whether the octets are one element, and nothing behind it.
pub(crate) fn is_element(octets: &[u8]) -> bool
    ensures { IsTrue result ↔ IsElement octets.now }
{
    match front_element(octets) {
        Ok((_, rest)) => rest.is_empty(),
        Err(_) => false,
    }
}
