//! Reading tags from left to right (20.2.1).

ghost use Rattle.std.specs.Prelude.{◌≡◌, ◌↔◌, [], IsTrue, IfOk, IfErr, IfSome, IfNone, OnErr};
ghost use Rattle.std.specs.Bool.{OnTrue};
ghost use Rattle.tags.specs.Tag.{plain_tag, TakesTag, OnlyTag, NoTag, RefusesTag};
ghost use Rattle.tags.specs.TagReading.{Gives, number_at, length_at, contents_at, application_at, context_at, tag_at};

use crate::fault::Fault;
use crate::tag::{Class, Content, Tag};
use byteorder::{BigEndian, ByteOrder};
use std::marker::Model;

/// Reads tags one after another. A contract sees the octets that are left.
#[derive(Debug, Drop)]
pub struct Reader<'a> {
    pub(crate) rest: &'a [u8],
}

impl<'a> Model for Reader<'a> {
    ghost use Rattle.std.specs.Prelude.{List, ℕ};

    ghost Value = { List ℕ };

    ghost view = { λ r. r.rest.now };
}

impl<'a> Reader<'a> {
    /// A reader of these octets.
    pub fn new(octets: &'a [u8]) -> Reader<'a>
        ensures { result ≡ octets.entry.now }
    {
        Reader { rest: octets }
    }

    /// The octets that are left.
    pub fn rest(&self) -> &'a [u8]
        ensures { result.now ≡ self.now }
    {
        self.rest
    }

    /// Whether no octet is left.
    #[tactic(auto, using(crate::proofs::OneTag::no_tag_at_end))]
    pub fn is_at_end(&self) -> bool
        ensures end { IsTrue result ↔ (self.now ≡ []) }
        ensures none { OnTrue result (NoTag self.now) }
    {
        self.rest.is_empty()
    }

    /// The next tag, or `None` at the end (20.2.1). Its contents are a slice of the input.
    ///
    /// # Errors
    /// `Short` where more octets would complete a tag, `BadTag` for a reserved form, `BadLength`
    /// for a Null or Boolean with another length. The reader is then as it was.
    #[tactic(auto, using(crate::proofs::OneTag::only_tag))]
    pub fn next(&mut self) -> Result<Option<Tag<'a>>, Fault>
        ensures read { IfOk result (λ found. IfSome found (λ tag. TakesTag self.old (plain_tag tag) self.new)) }
        ensures only { IfOk result (λ found. IfSome found (λ tag. OnlyTag self.old (plain_tag tag) self.new)) }
        ensures end { IfOk result (λ found. IfNone found ((self.old ≡ []) × (self.new ≡ []))) }
        ensures at_end { self.old ≡ [] → result ≡ Ok None }
        ensures refused { OnErr result (NoTag self.old) }
        ensures fault { IfErr result (λ fault. RefusesTag fault self.old) }
        ensures unchanged { OnErr result (self.new ≡ self.old) }
    {
        if self.rest.is_empty() {
            return Ok(None);
        }
        let (tag, rest) = front_tag(self.rest)?;
        self.rest = rest;
        Ok(Some(tag))
    }
}

/// The tag at the front, and what follows it.
pub(crate) fn front_tag(octets: &[u8]) -> Result<(Tag<'_>, &[u8]), Fault>
    ensures read { IfOk result (λ x. TakesTag octets.now (plain_tag x.0) x.1.now) }
    ensures refused { OnErr result (NoTag octets.now) }
    ensures fault { IfErr result (λ fault. RefusesTag fault octets.now) }
    ensures exact { Gives (λ x. (plain_tag x.0, x.1.now)) result (tag_at octets.now) }
{
    tag_from(octets)
}

#[tactic(auto, unfolding(crate::specs::TagReading::tag_at))]
fn tag_from(octets: &[u8]) -> Result<(Tag<'_>, &[u8]), Fault>
    ensures { Gives (λ x. (plain_tag x.0, x.1.now)) result (tag_at octets.now) }
{
    match octets {
        [] => Err(Fault::Short),
        [first, rest @ ..] => {
            if (first >> 3) & 1 == 0 {
                application_from(first >> 4, first & 7, rest)
            } else {
                context_from(first >> 4, first & 7, rest)
            }
        }
    }
}

#[tactic(auto, unfolding(crate::specs::TagReading::application_at))]
fn application_from(number: u8, low: u8, rest: &[u8]) -> Result<(Tag<'_>, &[u8]), Fault>
    ensures { Gives (λ x. (plain_tag x.0, x.1.now)) result (application_at number low rest.now) }
{
    let class = Class::Application;
    match (number, low) {
        (_, 6..) => Err(Fault::BadTag),
        (0, 0) => Ok((
            Tag {
                class,
                number: 0,
                content: Content::Null,
            },
            rest,
        )),
        (1, 0..=1) => Ok((
            Tag {
                class,
                number: 1,
                content: Content::Boolean(low == 1),
            },
            rest,
        )),
        (0..=1, _) => Err(Fault::BadLength),
        _ => {
            let (number, rest) = number_from(number, rest)?;
            contents_from(class, number, low, rest)
        }
    }
}

#[tactic(auto, unfolding(crate::specs::TagReading::context_at))]
fn context_from(number: u8, low: u8, rest: &[u8]) -> Result<(Tag<'_>, &[u8]), Fault>
    ensures { Gives (λ x. (plain_tag x.0, x.1.now)) result (context_at number low rest.now) }
{
    let (number, rest) = number_from(number, rest)?;
    match low {
        6 => Ok((Tag::opening(number), rest)),
        7 => Ok((Tag::closing(number), rest)),
        _ => contents_from(Class::Context, number, low, rest),
    }
}

/// The number of a tag from its four bits in the initial octet, or the octet behind it.
#[tactic(auto, unfolding(crate::specs::TagReading::number_at))]
fn number_from(bits: u8, rest: &[u8]) -> Result<(u8, &[u8]), Fault>
    ensures { Gives (λ x. (x.0, x.1.now)) result (number_at bits rest.now) }
{
    if bits < 15 {
        return Ok((bits, rest));
    }
    match rest {
        [] => Err(Fault::Short),
        [0..=14 | 255, ..] => Err(Fault::BadTag),
        [number, rest @ ..] => Ok((*number, rest)),
    }
}

/// The length of the contents from the low bits of the initial octet, or the octets behind it.
#[tactic(auto, unfolding(crate::specs::TagReading::length_at))]
fn length_from(low: u8, rest: &[u8]) -> Result<(usize, &[u8]), Fault>
    ensures { Gives (λ x. (x.0, x.1.now)) result (length_at low rest.now) }
{
    if low < 5 {
        return Ok((low as usize, rest));
    }
    match rest {
        [] => Err(Fault::Short),
        [254, rest @ ..] => {
            if rest.len() < 2 {
                return Err(Fault::Short);
            }
            Ok((BigEndian::read_u16(rest) as usize, &rest[2..]))
        }
        [255, rest @ ..] => {
            if rest.len() < 4 {
                return Err(Fault::Short);
            }
            Ok((BigEndian::read_u32(rest) as usize, &rest[4..]))
        }
        [len, rest @ ..] => Ok((*len as usize, rest)),
    }
}

#[tactic(auto, unfolding(crate::specs::TagReading::contents_at))]
fn contents_from(class: Class, number: u8, low: u8, rest: &[u8]) -> Result<(Tag<'_>, &[u8]), Fault>
    ensures { Gives (λ x. (plain_tag x.0, x.1.now)) result (contents_at class number low rest.now) }
{
    let (len, rest) = length_from(low, rest)?;
    if rest.len() < len {
        return Err(Fault::Short);
    }
    let (octets, rest) = rest.split_at(len);
    Ok((
        Tag {
            class,
            number,
            content: Content::Octets(octets),
        },
        rest,
    ))
}
