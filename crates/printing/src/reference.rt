//! Objects, as `5:1` or `binary-value,1`, and properties or elements of them, as `85` or `present-value`, `87/17` or
//! `priority-array[17]`.

ghost use Rattle.std.specs.Prelude.{Some};
ghost use Rattle.printing.specs.Printed.{object_text, reference_text};
ghost use Rattle.printing.specs.declared.spelling.Spelling.TheVariants.{Numbers};

use crate::shown::{Spelled, Words};
use crate::spelling::{Named, Spelling};
use names::{name_in, object_types, properties};
use primitives::PropertyReference;
use std::fmt;
use tags::ObjectId;

impl<'a> fmt::Display for Words<'a, ObjectId> {
    ghost output = { λ w. Some (object_text Numbers w.0.now) };

    #[tactic(auto, unfolding(crate::specs::Printed::object_text))]
    fn fmt<W: fmt::Write>(&self, f: &mut fmt::Formatter<W>) -> fmt::Result {
        let ObjectId {
            object_type,
            instance,
        } = *self.0;
        write!(f, "{object_type}:{instance}")
    }
}

impl<'a> fmt::Display for Spelled<'a, ObjectId> {
    ghost output = { λ w. Some (object_text w.spelling w.what.now) };

    #[tactic(auto, unfolding(crate::specs::Printed::object_text))]
    fn fmt<W: fmt::Write>(&self, f: &mut fmt::Formatter<W>) -> fmt::Result {
        let ObjectId {
            object_type,
            instance,
        } = *self.what;
        match self.spelling {
            Spelling::Numbers => write!(f, "{object_type}:{instance}"),
            Spelling::Names => match name_in(object_types(), u32::from(object_type)) {
                Some(name) => write!(f, "{name},{instance}"),
                None => write!(f, "{object_type}:{instance}"),
            },
        }
    }
}

impl<'a> fmt::Display for Words<'a, PropertyReference> {
    ghost output = { λ w. Some (reference_text Numbers w.0.now) };

    fn fmt<W: fmt::Write>(&self, f: &mut fmt::Formatter<W>) -> fmt::Result {
        let shown = Spelled {
            spelling: Spelling::Numbers,
            what: self.0,
        };
        write!(f, "{shown}")
    }
}

impl<'a> fmt::Display for Spelled<'a, PropertyReference> {
    ghost output = { λ w. Some (reference_text w.spelling w.what.now) };

    #[tactic(auto, unfolding(crate::specs::Printed::reference_text, crate::specs::Printed::property_text))]
    fn fmt<W: fmt::Write>(&self, f: &mut fmt::Formatter<W>) -> fmt::Result {
        let spelling = self.spelling;
        let property = Named {
            spelling,
            table: properties(),
            number: self.what.property,
        };
        match (spelling, self.what.index) {
            (_, None) => write!(f, "{property}"),
            (Spelling::Numbers, Some(index)) => write!(f, "{}/{index}", self.what.property),
            (Spelling::Names, Some(index)) => write!(f, "{property}[{index}]"),
        }
    }
}
