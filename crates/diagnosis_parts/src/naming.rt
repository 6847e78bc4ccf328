//! Names of the standard for what is printed: of a number, of what a request is about, of how it ended.

use crate::heading::Outcome;
use crate::subject::Subject;
use names::{Row, name_in, object_types, properties};
use std::fmt;

/// A number by its name, or as it is where it has none.
#[derive(Clone, Copy)]
pub struct Named {
    /// The numbers that have names.
    pub table: &'static [Row],
    /// The number.
    pub number: u32,
}

impl fmt::Display for Named {
    fn fmt<W: fmt::Write>(&self, f: &mut fmt::Formatter<W>) -> fmt::Result {
        match name_in(self.table, self.number) {
            Some(name) => f.write_str(name),
            None => write!(f, "{}", self.number),
        }
    }
}

impl fmt::Display for Subject {
    fn fmt<W: fmt::Write>(&self, f: &mut fmt::Formatter<W>) -> fmt::Result {
        match self.object {
            Some(object) => {
                let number = u32::from(object.object_type);
                let table = object_types();
                write!(f, "{},{} ", Named { table, number }, object.instance)?;
            }
            None => f.write_str("- ")?,
        }
        match self.property {
            Some(number) => {
                let table = properties();
                write!(f, "{}", Named { table, number })
            }
            None => f.write_str("-"),
        }
    }
}

impl fmt::Display for Outcome {
    fn fmt<W: fmt::Write>(&self, f: &mut fmt::Formatter<W>) -> fmt::Result {
        match self {
            Outcome::Acknowledged => f.write_str("acknowledged"),
            Outcome::Failed => f.write_str("error"),
            Outcome::Rejected(reason) => write!(f, "reject-{reason}"),
            Outcome::Aborted(reason) => write!(f, "abort-{reason}"),
        }
    }
}
