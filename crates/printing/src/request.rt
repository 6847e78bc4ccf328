//! Requests, as `read 5:1 85`, `write 45:1 85 signed 20 at 8`, `many 5:1 85,87/17 8:99 76`,
//! `batch 45:1 85 signed 20 at 8; 45:1 28 text -; 5:1 85 null`, or with names.

ghost use Rattle.std.specs.Prelude.{◌≡◌, ◌++◌, Some, codes, flat_map};
ghost use Rattle.std.specs.Fmt.{WritesOnOk};
ghost use Rattle.printing.specs.Printed.{batch_text, given_text, place_text, priority_text, reference_text};
ghost use Rattle.printing.specs.Printed.{references_text, refs_text, request_text, write_text, writes_text};
ghost use Rattle.printing.specs.declared.spelling.Spelling.TheVariants.{Numbers};

use crate::shown::{Spelled, Words};
use crate::spelling::{Spelling, Wording};
use crate::value::Worded;
use primitives::{ObjectRefs, ObjectWrites, PropertyReference, PropertyWrite, Request, Values};
use std::alloc::Allocator;
use std::fmt;
use tags::ObjectId;

impl<'a, A: Allocator> fmt::Display for Words<'a, Request<A>> {
    ghost output = { λ w. Some (request_text Numbers w.0.now) };

    fn fmt<W: fmt::Write>(&self, f: &mut fmt::Formatter<W>) -> fmt::Result {
        let shown = Spelled {
            spelling: Spelling::Numbers,
            what: self.0,
        };
        write!(f, "{shown}")
    }
}

impl<'a, A: Allocator> fmt::Display for Spelled<'a, Request<A>> {
    ghost output = { λ w. Some (request_text w.spelling w.what.now) };

    #[tactic(auto, unfolding(crate::specs::Printed::request_text))]
    fn fmt<W: fmt::Write>(&self, f: &mut fmt::Formatter<W>) -> fmt::Result {
        let spelling = self.spelling;
        match self.what {
            Request::Read {
                object,
                property,
                index,
            } => {
                f.write_str("read ")?;
                fmt_place(spelling, *object, *property, *index, f)
            }
            Request::ReadMany(groups) => {
                f.write_str("many")?;
                fmt_many(spelling, groups.as_slice(), f)
            }
            Request::Write {
                object,
                property,
                index,
                values,
                priority,
            } => {
                f.write_str("write ")?;
                fmt_place(spelling, *object, *property, *index, f)?;
                fmt_given(
                    Wording::at(spelling, object.object_type, *property),
                    values,
                    f,
                )?;
                fmt_priority(*priority, f)
            }
            Request::WriteMany(groups) => {
                f.write_str("batch ")?;
                fmt_batch(spelling, groups.as_slice(), f)
            }
        }
    }
}

/// Prints an object, and a property or an element of it.
#[tactic(auto, unfolding(crate::specs::Printed::place_text, crate::specs::Printed::reference_text))]
pub(crate) fn fmt_place<W: fmt::Write>(
    spelling: Spelling,
    object: ObjectId,
    property: u32,
    index: Option<u32>,
    f: &mut fmt::Formatter<W>,
) -> fmt::Result
    ensures { WritesOnOk W.write_str_gives f.old result (place_text spelling object property index) f.new }
{
    let object = Spelled {
        spelling,
        what: &object,
    };
    let reference = Spelled {
        spelling,
        what: &PropertyReference { property, index },
    };
    write!(f, "{object} {reference}")
}

/// Prints the values of a write, behind a space.
#[tactic(auto, unfolding(crate::specs::Printed::given_text))]
fn fmt_given<A: Allocator, W: fmt::Write>(
    wording: Wording,
    values: &Values<A>,
    f: &mut fmt::Formatter<W>,
) -> fmt::Result
    ensures { WritesOnOk W.write_str_gives f.old result (given_text wording values.now) f.new }
{
    if values.is_empty() {
        return Ok(());
    }
    write!(
        f,
        " {}",
        Worded {
            wording,
            what: values
        }
    )
}

/// Prints the priority of a write, where it has one.
#[tactic(auto, unfolding(crate::specs::Printed::priority_text))]
fn fmt_priority<W: fmt::Write>(priority: Option<u8>, f: &mut fmt::Formatter<W>) -> fmt::Result
    ensures { WritesOnOk W.write_str_gives f.old result (priority_text priority) f.new }
{
    match priority {
        Some(priority) => write!(f, " at {priority}"),
        None => Ok(()),
    }
}

/// Prints objects, each with references to its properties.
#[tactic(auto, unfolding(crate::specs::Printed::refs_text))]
fn fmt_many<A: Allocator, W: fmt::Write>(
    spelling: Spelling,
    groups: &[ObjectRefs<A>],
    f: &mut fmt::Formatter<W>,
) -> fmt::Result
    ensures { WritesOnOk W.write_str_gives f.old result (flat_map (λ g. refs_text spelling g) groups.now) f.new }
{
    for group in groups {
        let object = Spelled {
            spelling,
            what: &group.object,
        };
        let references = Referring {
            spelling,
            references: group.refs.as_slice(),
        };
        write!(f, " {object}{references}")?;
    }
    Ok(())
}

/// References to properties behind a space, with a comma between each and the next.
#[derive(Clone, Copy)]
struct Referring<'a> {
    spelling: Spelling,
    references: &'a [PropertyReference],
}

impl fmt::Display for Referring<'_> {
    ghost output = { λ r. Some (references_text r.spelling r.references.now) };

    #[tactic(auto, unfolding(crate::specs::Printed::references_text))]
    fn fmt<W: fmt::Write>(&self, f: &mut fmt::Formatter<W>) -> fmt::Result {
        let spelling = self.spelling;
        match self.references {
            [] => Ok(()),
            [first, rest @ ..] => {
                let first = Spelled {
                    spelling,
                    what: first,
                };
                write!(f, " {first}")?;
                fmt_more_references(spelling, rest, f)
            }
        }
    }
}

/// Prints references, each behind a comma.
fn fmt_more_references<W: fmt::Write>(
    spelling: Spelling,
    references: &[PropertyReference],
    f: &mut fmt::Formatter<W>,
) -> fmt::Result
    ensures { WritesOnOk W.write_str_gives f.old result
        (flat_map (λ r. codes "," ++ reference_text spelling r) references.now) f.new }
{
    for reference in references {
        let reference = Spelled {
            spelling,
            what: reference,
        };
        write!(f, ",{reference}")?;
    }
    Ok(())
}

/// Prints writes to objects.
#[tactic(auto, unfolding(crate::specs::Printed::batch_text))]
fn fmt_batch<A: Allocator, W: fmt::Write>(
    spelling: Spelling,
    groups: &[ObjectWrites<A>],
    f: &mut fmt::Formatter<W>,
) -> fmt::Result
    ensures { WritesOnOk W.write_str_gives f.old result (batch_text spelling groups.now) f.new }
{
    match groups {
        [] => Ok(()),
        [first, rest @ ..] => {
            fmt_writes(spelling, first.object, first.writes.as_slice(), f)?;
            fmt_more_groups(spelling, rest, f)
        }
    }
}

/// Prints the writes to objects, each object's behind a semicolon.
fn fmt_more_groups<A: Allocator, W: fmt::Write>(
    spelling: Spelling,
    groups: &[ObjectWrites<A>],
    f: &mut fmt::Formatter<W>,
) -> fmt::Result
    ensures { WritesOnOk W.write_str_gives f.old result
        (flat_map (λ g. codes "; " ++ writes_text spelling g.object g.writes) groups.now) f.new }
{
    for group in groups {
        f.write_str("; ")?;
        fmt_writes(spelling, group.object, group.writes.as_slice(), f)?;
    }
    Ok(())
}

/// Prints the writes to an object.
#[tactic(auto, unfolding(crate::specs::Printed::writes_text))]
fn fmt_writes<A: Allocator, W: fmt::Write>(
    spelling: Spelling,
    object: ObjectId,
    writes: &[PropertyWrite<A>],
    f: &mut fmt::Formatter<W>,
) -> fmt::Result
    ensures { WritesOnOk W.write_str_gives f.old result (writes_text spelling object writes.now) f.new }
{
    match writes {
        [] => Ok(()),
        [first, rest @ ..] => {
            fmt_write(spelling, object, first, f)?;
            fmt_more_writes(spelling, object, rest, f)
        }
    }
}

/// Prints writes to an object, each behind a semicolon.
fn fmt_more_writes<A: Allocator, W: fmt::Write>(
    spelling: Spelling,
    object: ObjectId,
    writes: &[PropertyWrite<A>],
    f: &mut fmt::Formatter<W>,
) -> fmt::Result
    ensures { WritesOnOk W.write_str_gives f.old result
        (flat_map (λ w. codes "; " ++ write_text spelling object w) writes.now) f.new }
{
    for write in writes {
        f.write_str("; ")?;
        fmt_write(spelling, object, write, f)?;
    }
    Ok(())
}

/// Prints a write to an object.
#[tactic(auto, unfolding(crate::specs::Printed::write_text))]
fn fmt_write<A: Allocator, W: fmt::Write>(
    spelling: Spelling,
    object: ObjectId,
    write: &PropertyWrite<A>,
    f: &mut fmt::Formatter<W>,
) -> fmt::Result
    ensures { WritesOnOk W.write_str_gives f.old result (write_text spelling object write.now) f.new }
{
    fmt_place(spelling, object, write.property, write.index, f)?;
    let wording = Wording::at(spelling, object.object_type, write.property);
    fmt_given(wording, &write.values, f)?;
    fmt_priority(write.priority, f)
}
