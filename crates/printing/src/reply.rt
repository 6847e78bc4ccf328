//! Replies, as `done`, `error 2 40`, `error 2 40 at 5:1 77`, `values enum 1, null`,
//! `many [5:1 85 = enum 1; 87/17 ! 2 42]`, or with names.

ghost use Rattle.std.specs.Prelude.{◌≡◌, ◌++◌, Some, codes, flat_map, option_map};
ghost use Rattle.std.specs.Fmt.{WritesOnOk};
ghost use Rattle.printing.specs.Printed.{error_text, object_results_text, read_text, reply_text, result_text};
ghost use Rattle.printing.specs.Printed.{reply_to_text, results_text};
ghost use Rattle.printing.specs.Printed as spec;
ghost use Rattle.printing.specs.declared.spelling.Spelling.TheVariants.{Numbers};

use crate::request::fmt_place;
use crate::shown::{Spelled, Words};
use crate::spelling::{Named, Spelling, Wording};
use crate::value::Worded;
use names::{error_classes, error_codes};
use primitives::{
    ErrorClass, ErrorCode, ObjectResults, PropertyReference, PropertyResult, Reply, Request, Values,
};
use std::alloc::Allocator;
use std::fmt;

impl<'a, A: Allocator> fmt::Display for Words<'a, Reply<A>> {
    ghost output = { λ w. Some (reply_text Numbers w.0.now) };

    fn fmt<W: fmt::Write>(&self, f: &mut fmt::Formatter<W>) -> fmt::Result {
        let shown = Spelled {
            spelling: Spelling::Numbers,
            what: self.0,
        };
        write!(f, "{shown}")
    }
}

impl<'a, A: Allocator> fmt::Display for Spelled<'a, Reply<A>> {
    ghost output = { λ w. Some (reply_text w.spelling w.what.now) };

    #[tactic(auto, unfolding(crate::specs::Printed::reply_text))]
    fn fmt<W: fmt::Write>(&self, f: &mut fmt::Formatter<W>) -> fmt::Result {
        let spelling = self.spelling;
        match self.what {
            Reply::Values(values) => fmt_values(Wording::of(spelling), values, f),
            Reply::Many(results) => {
                f.write_str("many")?;
                fmt_many(spelling, results.as_slice(), f)
            }
            Reply::Done => f.write_str("done"),
            Reply::Error(class, code) => {
                f.write_str("error")?;
                fmt_error(spelling, *class, *code, f)
            }
            Reply::ErrorAt {
                class,
                code,
                object,
                property,
                index,
            } => {
                f.write_str("error")?;
                fmt_error(spelling, *class, *code, f)?;
                f.write_str(" at ")?;
                fmt_place(spelling, *object, *property, *index, f)
            }
        }
    }
}

/// A reply to a request; where that is known, the values are worded as those of the property that it reads (15.5).
#[derive(Clone, Copy)]
pub struct ReplyTo<'a, A: Allocator> {
    pub spelling: Spelling,
    pub asked: Option<&'a Request<A>>,
    pub reply: &'a Reply<A>,
}

impl<'a, A: Allocator> fmt::Display for ReplyTo<'a, A> {
    ghost output = { λ w. Some (reply_to_text w.spelling (option_map (λ r. r.now) w.asked) w.reply.now) };

    #[tactic(auto, unfolding(crate::specs::Printed::reply_to_text))]
    fn fmt<W: fmt::Write>(&self, f: &mut fmt::Formatter<W>) -> fmt::Result {
        match self.reply {
            Reply::Values(values) => fmt_values(wording_to(self.spelling, self.asked), values, f),
            Reply::Many(_) | Reply::Done | Reply::Error(..) | Reply::ErrorAt { .. } => {
                let reply = Spelled {
                    spelling: self.spelling,
                    what: self.reply,
                };
                write!(f, "{reply}")
            }
        }
    }
}

/// How the values of a reply are worded, where the request is known.
fn wording_to<A: Allocator>(spelling: Spelling, asked: Option<&Request<A>>) -> Wording
    ensures { result ≡ spec.wording_to spelling (option_map (λ r. r.now) asked.entry) }
{
    match asked {
        Some(
            Request::Read {
                object,
                property,
                ..
            },
        ) => Wording::at(spelling, object.object_type, *property),
        Some(_) | None => Wording::of(spelling),
    }
}

/// Prints the values of a property, with no space where there are none.
#[tactic(auto, unfolding(crate::specs::Printed::read_text, crate::specs::Printed::values_text))]
fn fmt_values<A: Allocator, W: fmt::Write>(
    wording: Wording,
    values: &Values<A>,
    f: &mut fmt::Formatter<W>,
) -> fmt::Result
    ensures { WritesOnOk W.write_str_gives f.old result (read_text wording values.now) f.new }
{
    if values.is_empty() {
        return f.write_str("values");
    }
    let values = Worded {
        wording,
        what: values,
    };
    write!(f, "values {values}")
}

/// Prints a class and a code, each behind a space.
#[tactic(auto, unfolding(crate::specs::Printed::error_text))]
fn fmt_error<W: fmt::Write>(
    spelling: Spelling,
    class: ErrorClass,
    code: ErrorCode,
    f: &mut fmt::Formatter<W>,
) -> fmt::Result
    ensures { WritesOnOk W.write_str_gives f.old result (error_text spelling class code) f.new }
{
    let class = Named {
        spelling,
        table: error_classes(),
        number: u32::from(class),
    };
    let code = Named {
        spelling,
        table: error_codes(),
        number: u32::from(code),
    };
    write!(f, " {class} {code}")
}

/// Prints what was read of several objects, each behind a space and within brackets.
fn fmt_many<A: Allocator, W: fmt::Write>(
    spelling: Spelling,
    all: &[ObjectResults<A>],
    f: &mut fmt::Formatter<W>,
) -> fmt::Result
    ensures { WritesOnOk W.write_str_gives f.old result (flat_map (λ o. object_results_text spelling o) all.now) f.new }
{
    for results in all {
        fmt_object_results(spelling, results, f)?;
    }
    Ok(())
}

/// Prints what was read of an object, behind a space and within brackets.
#[tactic(auto, unfolding(crate::specs::Printed::object_results_text))]
fn fmt_object_results<A: Allocator, W: fmt::Write>(
    spelling: Spelling,
    results: &ObjectResults<A>,
    f: &mut fmt::Formatter<W>,
) -> fmt::Result
    ensures { WritesOnOk W.write_str_gives f.old result (object_results_text spelling results.now) f.new }
{
    let object = Spelled {
        spelling,
        what: &results.object,
    };
    write!(f, " [{object}")?;
    fmt_results(
        spelling,
        results.object.object_type,
        results.results.as_slice(),
        f,
    )?;
    f.write_str("]")
}

/// Prints what was read of an object, behind a space and parted by `; `.
#[tactic(auto, unfolding(crate::specs::Printed::results_text))]
fn fmt_results<A: Allocator, W: fmt::Write>(
    spelling: Spelling,
    object_type: u16,
    results: &[PropertyResult<A>],
    f: &mut fmt::Formatter<W>,
) -> fmt::Result
    ensures { WritesOnOk W.write_str_gives f.old result (results_text spelling object_type results.now) f.new }
{
    match results {
        [] => Ok(()),
        [first, rest @ ..] => {
            f.write_str(" ")?;
            fmt_result(spelling, object_type, first, f)?;
            fmt_more_results(spelling, object_type, rest, f)
        }
    }
}

/// Prints what was read of properties, each behind a semicolon.
fn fmt_more_results<A: Allocator, W: fmt::Write>(
    spelling: Spelling,
    object_type: u16,
    results: &[PropertyResult<A>],
    f: &mut fmt::Formatter<W>,
) -> fmt::Result
    ensures { WritesOnOk W.write_str_gives f.old result
        (flat_map (λ r. codes "; " ++ result_text spelling object_type r) results.now) f.new }
{
    for read in results {
        f.write_str("; ")?;
        fmt_result(spelling, object_type, read, f)?;
    }
    Ok(())
}

/// Prints what was read of a property, or why nothing was.
#[tactic(auto, unfolding(crate::specs::Printed::result_text, crate::specs::Printed::outcome_text, crate::specs::Printed::reference_text))]
fn fmt_result<A: Allocator, W: fmt::Write>(
    spelling: Spelling,
    object_type: u16,
    read: &PropertyResult<A>,
    f: &mut fmt::Formatter<W>,
) -> fmt::Result
    ensures { WritesOnOk W.write_str_gives f.old result (result_text spelling object_type read.now) f.new }
{
    let reference = Spelled {
        spelling,
        what: &PropertyReference {
            property: read.property,
            index: read.index,
        },
    };
    write!(f, "{reference}")?;
    match &read.result {
        Ok(values) => {
            let values = Worded {
                wording: Wording::at(spelling, object_type, read.property),
                what: values,
            };
            write!(f, " = {values}")
        }
        Err((class, code)) => {
            f.write_str(" !")?;
            fmt_error(spelling, *class, *code, f)
        }
    }
}
