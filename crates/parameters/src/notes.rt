//! What a tag says in words: `integer-value,1`, `present-value`, `index 3`, `unsigned 7`, `text "on"`, `enum active`.

ghost use Rattle.std.specs.Prelude.{◌≡◌, Some, map};
ghost use Rattle.std.specs.Fmt.{WritesOnOk};
ghost use Rattle.names.specs.Tables.{row_of};
ghost use Rattle.tags.specs.Tag.{plain_tag};
ghost use Rattle.parameters.specs.Notes as spec;

use crate::position::Position;
use crate::productions::Parameter;
use names::{
    Row, binary_values, data_types, error_classes, error_codes, name_in, properties, segmentations,
};
use printing::{Hex, Named, Readable, Spelled, Spelling, is_binary};
use std::fmt;
use tags::{Class, Content, ObjectId, Tag, signed_from_contents, unsigned_from_contents};

/// The words of a tag that is a parameter and stands somewhere, behind a space; nothing where it has none.
#[derive(Clone, Copy)]
pub struct Note<'a> {
    pub parameter: Parameter,
    pub position: Position,
    pub tag: Tag<'a>,
}

impl fmt::Display for Note<'_> {
    ghost output = { λ n. Some (spec.note n.parameter n.position (plain_tag n.tag)) };

    fn fmt<W: fmt::Write>(&self, f: &mut fmt::Formatter<W>) -> fmt::Result {
        match self.tag.content {
            Content::Null => f.write_str(" null"),
            Content::Boolean(true) => f.write_str(" bool true"),
            Content::Boolean(false) => f.write_str(" bool false"),
            Content::Octets(octets) => self.fmt_octets(octets, f),
            Content::Opening | Content::Closing => Ok(()),
        }
    }
}

impl Note<'_> {
    /// Prints the words of contents octets.
    #[tactic(auto, unfolding(crate::specs::Notes::octets_note))]
    fn fmt_octets<W: fmt::Write>(&self, octets: &[u8], f: &mut fmt::Formatter<W>) -> fmt::Result
        ensures { WritesOnOk W.write_str_gives f.old result
            (spec.octets_note self.now.parameter self.now.position self.now.tag.class self.now.tag.number octets.now)
            f.new }
    {
        match self.parameter {
            Parameter::Object => fmt_object(" ", octets, f),
            Parameter::Property => fmt_number(" ", properties(), octets, f),
            Parameter::Index => fmt_number(" index ", &[], octets, f),
            Parameter::Priority => fmt_number(" priority ", &[], octets, f),
            Parameter::ErrorClass => fmt_number(" ", error_classes(), octets, f),
            Parameter::ErrorCode => fmt_number(" ", error_codes(), octets, f),
            Parameter::LowLimit => fmt_number(" low-limit ", &[], octets, f),
            Parameter::HighLimit => fmt_number(" high-limit ", &[], octets, f),
            Parameter::MaxApdu => fmt_number(" max-apdu ", &[], octets, f),
            Parameter::Segmentation => fmt_number(" ", segmentations(), octets, f),
            Parameter::Vendor => fmt_number(" vendor ", &[], octets, f),
            Parameter::Value => fmt_typed(states(self.position), self.tag.number, octets, f),
            Parameter::Other => match self.tag.class {
                Class::Application => fmt_typed(&[], self.tag.number, octets, f),
                Class::Context => Ok(()),
            },
        }
    }
}

/// The words of a tag whose parameter is known.
#[derive(Clone, Copy)]
pub struct Known<'a>(pub Note<'a>);

impl fmt::Display for Known<'_> {
    ghost output = { λ k. Some (spec.known_note k.0.parameter k.0.position (plain_tag k.0.tag)) };

    fn fmt<W: fmt::Write>(&self, f: &mut fmt::Formatter<W>) -> fmt::Result {
        match self.0.parameter {
            Parameter::Other => Ok(()),
            Parameter::Object
            | Parameter::Property
            | Parameter::Index
            | Parameter::Value
            | Parameter::Priority
            | Parameter::ErrorClass
            | Parameter::ErrorCode
            | Parameter::LowLimit
            | Parameter::HighLimit
            | Parameter::MaxApdu
            | Parameter::Segmentation
            | Parameter::Vendor => write!(f, "{}", self.0),
        }
    }
}

/// The states of an Enumerated here, where it is a BACnetBinaryPV (12.8).
fn states(position: Position) -> &'static [Row]
    ensures { map row_of result.now ≡ spec.states position.object_type position.property }
{
    match (position.object_type, position.property) {
        (Some(object_type), Some(property)) if is_binary(object_type, property) => binary_values(),
        (Some(_) | None, _) => &[],
    }
}

/// Prints a value of the type of a number, where these are the states of an Enumerated (20.2.1.4).
#[tactic(auto, unfolding(crate::specs::Notes::typed_note))]
fn fmt_typed<W: fmt::Write>(
    states: &[Row],
    number: u8,
    octets: &[u8],
    f: &mut fmt::Formatter<W>,
) -> fmt::Result
    ensures { WritesOnOk W.write_str_gives f.old result
        (spec.typed_note (map row_of states.now) number octets.now) f.new }
{
    if number == 2 {
        fmt_number(" unsigned ", &[], octets, f)
    } else if number == 3 {
        fmt_signed(octets, f)
    } else if number == 7 {
        fmt_text(octets, f)
    } else if number == 8 {
        fmt_bits(octets, f)
    } else if number == 9 {
        fmt_number(" enum ", states, octets, f)
    } else if number == 12 {
        fmt_object(" object ", octets, f)
    } else {
        fmt_type(number, f)
    }
}

/// Prints the name of a type whose values aren't put in words.
fn fmt_type<W: fmt::Write>(number: u8, f: &mut fmt::Formatter<W>) -> fmt::Result
    ensures { WritesOnOk W.write_str_gives f.old result
        (spec.type_note number) f.new }
{
    match name_in(data_types(), u32::from(number)) {
        Some(name) => write!(f, " {name}"),
        None => Ok(()),
    }
}

/// Prints a number behind a word, or its name in a table.
#[tactic(auto, using(crate::proofs::Octets::octets_laws), unfolding(crate::specs::Notes::number_note))]
fn fmt_number<W: fmt::Write>(
    word: &str,
    table: &[Row],
    octets: &[u8],
    f: &mut fmt::Formatter<W>,
) -> fmt::Result
    ensures { WritesOnOk W.write_str_gives f.old result
        (spec.number_note word.now (map row_of table.now) octets.now) f.new }
{
    match unsigned_from_contents(octets) {
        Ok(number) => {
            let spelling = Spelling::Names;
            write!(
                f,
                "{word}{}",
                Named {
                    spelling,
                    table,
                    number
                }
            )
        }
        Err(_) => Ok(()),
    }
}

/// Prints a Signed Integer (20.2.5).
#[tactic(auto, using(crate::proofs::Octets::octets_laws), unfolding(crate::specs::Notes::signed_note))]
fn fmt_signed<W: fmt::Write>(octets: &[u8], f: &mut fmt::Formatter<W>) -> fmt::Result
    ensures { WritesOnOk W.write_str_gives f.old result (spec.signed_note octets.now) f.new }
{
    match signed_from_contents(octets) {
        Ok(number) => write!(f, " signed {number}"),
        Err(_) => Ok(()),
    }
}

/// Prints an object behind a word (20.2.14).
#[tactic(auto, using(crate::proofs::Octets::octets_laws), unfolding(crate::specs::Notes::object_note))]
fn fmt_object<W: fmt::Write>(word: &str, octets: &[u8], f: &mut fmt::Formatter<W>) -> fmt::Result
    ensures { WritesOnOk W.write_str_gives f.old result (spec.object_note word.now octets.now) f.new }
{
    match ObjectId::from_contents(octets) {
        Ok(object) => {
            let spelling = Spelling::Names;
            let what = &object;
            write!(f, "{word}{}", Spelled { spelling, what })
        }
        Err(_) => Ok(()),
    }
}

/// Prints a Character String, and its set where that is not UTF-8 (20.2.9).
#[tactic(auto, unfolding(crate::specs::Notes::text_note))]
fn fmt_text<W: fmt::Write>(octets: &[u8], f: &mut fmt::Formatter<W>) -> fmt::Result
    ensures { WritesOnOk W.write_str_gives f.old result (spec.text_note octets.now) f.new }
{
    match octets {
        [] => Ok(()),
        [set, octets @ ..] => {
            if *set == 0 {
                write!(f, " text {}", Readable(octets))
            } else {
                write!(f, " text/{set} {}", Hex(octets))
            }
        }
    }
}

/// Prints a Bit String, with its unused bits (20.2.10).
#[tactic(auto, unfolding(crate::specs::Notes::bits_note))]
fn fmt_bits<W: fmt::Write>(octets: &[u8], f: &mut fmt::Formatter<W>) -> fmt::Result
    ensures { WritesOnOk W.write_str_gives f.old result (spec.bits_note octets.now) f.new }
{
    match octets {
        [] => Ok(()),
        [unused, octets @ ..] => write!(f, " bits {unused} {}", Hex(octets)),
    }
}
