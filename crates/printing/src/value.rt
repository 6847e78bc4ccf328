//! Values, as `null`, `bool true`, `unsigned 7`, `signed -7`, `enum 1` or `enum active`, `object 5:1` or
//! `object binary-value,1`, `text 6F6E` or `text "on"`, `text/4 0041`, `bits 4 F0`, `other 10 7C0C1601`, `built 0901`;
//! several are parted by `, `.

ghost use Rattle.std.specs.Prelude.{◌≡◌, ◌++◌, Some, codes, flat_map};
ghost use Rattle.std.specs.Fmt.{WritesOnOk};
ghost use Rattle.printing.specs.Printed.{enum_text, text_text, value_text, values_text};
ghost use Rattle.printing.specs.declared.spelling.Wording.TheVariants.{Numbers};

use crate::octets::Hex;
use crate::quoted::Readable;
use crate::shown::{Spelled, Words};
use crate::spelling::{Named, Spelling, Wording};
use names::binary_values;
use primitives::Values;
use std::alloc::Allocator;
use std::fmt;
use tags::Value;

/// What is printed as its property words it.
#[derive(Clone, Copy)]
pub(crate) struct Worded<'a, T> {
    pub(crate) wording: Wording,
    pub(crate) what: &'a T,
}

impl<'a, A: Allocator> fmt::Display for Worded<'a, Value<A>> {
    ghost output = { λ w. Some (value_text w.wording w.what.now) };

    #[tactic(auto, unfolding(crate::specs::Printed::value_text, crate::specs::Printed::numbered_text))]
    fn fmt<W: fmt::Write>(&self, f: &mut fmt::Formatter<W>) -> fmt::Result {
        match self.what {
            Value::Null => f.write_str("null"),
            Value::Bool(true) => f.write_str("bool true"),
            Value::Bool(false) => f.write_str("bool false"),
            Value::Unsigned(number) => write!(f, "unsigned {number}"),
            Value::Signed(number) => write!(f, "signed {number}"),
            Value::Enum(number) => fmt_enum(self.wording, *number, f),
            Value::Object(object) => {
                let object = Spelled {
                    spelling: self.wording.spelling(),
                    what: object,
                };
                write!(f, "object {object}")
            }
            Value::Text { set, octets } => fmt_text(self.wording, *set, octets.as_slice(), f),
            Value::Bits { unused, octets } => {
                write!(f, "bits {unused} {}", Hex(octets.as_slice()))
            }
            Value::Other { tag, octets } => write!(f, "other {tag} {}", Hex(octets.as_slice())),
            Value::Built(octets) => write!(f, "built {}", Hex(octets.as_slice())),
        }
    }
}

/// Prints an Enumerated.
#[tactic(auto, unfolding(crate::specs::Printed::enum_text))]
fn fmt_enum<W: fmt::Write>(wording: Wording, number: u32, f: &mut fmt::Formatter<W>) -> fmt::Result
    ensures { WritesOnOk W.write_str_gives f.old result (enum_text wording number) f.new }
{
    match wording {
        Wording::Numbers | Wording::Names => write!(f, "enum {number}"),
        Wording::States => {
            let state = Named {
                spelling: Spelling::Names,
                table: binary_values(),
                number,
            };
            write!(f, "enum {state}")
        }
    }
}

/// Prints a text, with its set where that is not 0.
#[tactic(auto, unfolding(crate::specs::Printed::text_text, crate::specs::Printed::numbered_text))]
fn fmt_text<W: fmt::Write>(
    wording: Wording,
    set: u8,
    octets: &[u8],
    f: &mut fmt::Formatter<W>,
) -> fmt::Result
    ensures { WritesOnOk W.write_str_gives f.old result (text_text wording set octets.now) f.new }
{
    if set != 0 {
        return write!(f, "text/{set} {}", Hex(octets));
    }
    match wording {
        Wording::Numbers => write!(f, "text {}", Hex(octets)),
        Wording::Names | Wording::States => write!(f, "text {}", Readable(octets)),
    }
}

impl<'a, A: Allocator> fmt::Display for Words<'a, Value<A>> {
    ghost output = { λ w. Some (value_text Numbers w.0.now) };

    fn fmt<W: fmt::Write>(&self, f: &mut fmt::Formatter<W>) -> fmt::Result {
        let worded = Worded {
            wording: Wording::Numbers,
            what: self.0,
        };
        write!(f, "{worded}")
    }
}

impl<'a, A: Allocator> fmt::Display for Worded<'a, Values<A>> {
    ghost output = { λ w. Some (values_text w.wording w.what.now) };

    #[tactic(auto, unfolding(crate::specs::Printed::values_text))]
    fn fmt<W: fmt::Write>(&self, f: &mut fmt::Formatter<W>) -> fmt::Result {
        match self.what.as_slice() {
            [] => Ok(()),
            [first, rest @ ..] => {
                let wording = self.wording;
                write!(
                    f,
                    "{}",
                    Worded {
                        wording,
                        what: first
                    }
                )?;
                fmt_more(wording, rest, f)
            }
        }
    }
}

/// Prints values, each behind a comma and a space.
fn fmt_more<A: Allocator, W: fmt::Write>(
    wording: Wording,
    values: &[Value<A>],
    f: &mut fmt::Formatter<W>,
) -> fmt::Result
    ensures { WritesOnOk W.write_str_gives f.old result
        (flat_map (λ v. codes ", " ++ value_text wording v) values.now) f.new }
{
    for value in values {
        write!(
            f,
            ", {}",
            Worded {
                wording,
                what: value
            }
        )?;
    }
    Ok(())
}

impl<'a, A: Allocator> fmt::Display for Words<'a, Values<A>> {
    ghost output = { λ w. Some (values_text Numbers w.0.now) };

    fn fmt<W: fmt::Write>(&self, f: &mut fmt::Formatter<W>) -> fmt::Result {
        let worded = Worded {
            wording: Wording::Numbers,
            what: self.0,
        };
        write!(f, "{worded}")
    }
}
