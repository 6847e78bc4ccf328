//! How numbers of the standard are printed.

ghost use Rattle.std.specs.Prelude.{◌≡◌, Some, map};
ghost use Rattle.names.specs.Tables.{row_of};
ghost use Rattle.printing.specs.Printed.{is_binary, named_text, spelling_of, wording_at, wording_of};

use names::{Row, name_in};
use std::fmt;

/// How object types, properties, error classes and codes, and reasons are printed.
#[derive(Clone, Copy, Debug, PartialEq, Eq)]
pub enum Spelling {
    /// By their numbers, as `5:1 85`.
    Numbers,
    /// By the standard's names, where they have one, as `binary-value,1 present-value`; texts stand in quotes.
    Names,
}

/// How values are printed.
#[derive(Clone, Copy, Debug, PartialEq, Eq)]
pub(crate) enum Wording {
    /// With numbers alone.
    Numbers,
    /// With names of object types, and with texts in quotes.
    Names,
    /// So, and with an Enumerated as a BACnetBinaryPV: `inactive` or `active`.
    States,
}

impl Wording {
    /// How values are worded of which no property is known.
    pub(crate) fn of(spelling: Spelling) -> Wording
        ensures { result ≡ wording_of spelling }
    {
        match spelling {
            Spelling::Numbers => Wording::Numbers,
            Spelling::Names => Wording::Names,
        }
    }

    /// How the values of a property of an object of this type are worded.
    pub(crate) fn at(spelling: Spelling, object_type: u16, property: u32) -> Wording
        ensures { result ≡ wording_at spelling object_type property }
    {
        match spelling {
            Spelling::Numbers => Wording::Numbers,
            Spelling::Names => {
                if is_binary(object_type, property) {
                    Wording::States
                } else {
                    Wording::Names
                }
            }
        }
    }

    /// How an object's type is spelled among values.
    pub(crate) fn spelling(self) -> Spelling
        ensures { result ≡ spelling_of self }
    {
        match self {
            Wording::Numbers => Spelling::Numbers,
            Wording::Names | Wording::States => Spelling::Names,
        }
    }
}

/// Whether the property of an object of this type holds a BACnetBinaryPV: Present_Value, Priority_Array or
/// Relinquish_Default of a Binary Value (12.8).
pub fn is_binary(object_type: u16, property: u32) -> bool
    ensures { result ≡ is_binary object_type property }
{
    object_type == 5 && (property == 85 || property == 87 || property == 104)
}

/// A number of the standard, which is printed by its name in a table, where that is asked for and there is one.
#[derive(Clone, Copy)]
pub struct Named<'a> {
    pub spelling: Spelling,
    pub table: &'a [Row],
    pub number: u32,
}

impl fmt::Display for Named<'_> {
    ghost output = { λ n. Some (named_text n.spelling (map row_of n.table.now) n.number) };

    #[tactic(auto, unfolding(crate::specs::Printed::named_text))]
    fn fmt<W: fmt::Write>(&self, f: &mut fmt::Formatter<W>) -> fmt::Result {
        let number = self.number;
        match self.spelling {
            Spelling::Numbers => write!(f, "{number}"),
            Spelling::Names => match name_in(self.table, number) {
                Some(name) => f.write_str(name),
                None => write!(f, "{number}"),
            },
        }
    }
}
