//! Where a tag stands, and what was said before it.

ghost use Rattle.std.specs.Prelude.{◌≡◌};
ghost use Rattle.tags.specs.Tag.{plain_tag};
ghost use Rattle.parameters.specs.Position as spec;

use crate::productions::{Parameter, Row, Which};
use crate::within::Within;
use tags::{Class, Content, ObjectId, Tag, unsigned_from_contents};

/// Where a tag stands, and which object and property were named before it.
#[derive(Clone, Copy, Debug)]
pub struct Position {
    /// The opening tags that wait.
    pub within: Within,
    /// How many tags that open and close nothing stand between the last one that does and here.
    pub order: u8,
    /// The type of the last object that was named.
    pub object_type: Option<u16>,
    /// The last property that was named.
    pub property: Option<u32>,
}

impl Position {
    /// Before the first tag.
    pub fn start() -> Position
        ensures { result ≡ spec.start }
    {
        Position {
            within: Within::Nothing,
            order: 0,
            object_type: None,
            property: None,
        }
    }

    /// Behind a tag, which is this parameter.
    pub fn behind(self, parameter: Parameter, tag: &Tag<'_>) -> Position
        ensures { result ≡ spec.behind parameter (plain_tag tag.now) self }
    {
        match tag.content {
            Content::Opening => Position {
                within: self.within.opened(tag.number),
                order: 0,
                ..self
            },
            Content::Closing => Position {
                within: self.within.closed(),
                order: 0,
                ..self
            },
            Content::Octets(octets) => self.after(parameter, octets),
            Content::Null | Content::Boolean(_) => self.next(),
        }
    }

    /// Behind a tag that opens and closes nothing.
    fn next(self) -> Position
        ensures { result ≡ spec.next self }
    {
        Position {
            order: self.order.saturating_add(1),
            ..self
        }
    }

    /// Behind these contents octets of a parameter.
    fn after(self, parameter: Parameter, octets: &[u8]) -> Position
        ensures { result ≡ spec.after parameter octets.now self }
    {
        let next = self.next();
        match parameter {
            Parameter::Object => next.at_object(octets),
            Parameter::Property => next.at_property(octets),
            Parameter::Index
            | Parameter::Value
            | Parameter::Priority
            | Parameter::ErrorClass
            | Parameter::ErrorCode
            | Parameter::LowLimit
            | Parameter::HighLimit
            | Parameter::MaxApdu
            | Parameter::Segmentation
            | Parameter::Vendor
            | Parameter::Other => next,
        }
    }

    /// Where these octets name the object.
    #[tactic(auto, using(crate::proofs::Octets::position_laws))]
    fn at_object(self, octets: &[u8]) -> Position
        ensures { result ≡ spec.at_object octets.now self }
    {
        match ObjectId::from_contents(octets) {
            Ok(object) => Position {
                object_type: Some(object.object_type),
                ..self
            },
            Err(_) => self,
        }
    }

    /// Where these octets name the property.
    #[tactic(auto, using(crate::proofs::Octets::position_laws))]
    fn at_property(self, octets: &[u8]) -> Position
        ensures { result ≡ spec.at_property octets.now self }
    {
        match unsigned_from_contents(octets) {
            Ok(number) => Position {
                property: Some(number),
                ..self
            },
            Err(_) => self,
        }
    }

    /// Which parameter a tag is that stands here, by the rows of its production.
    pub fn parameter(self, rows: &[Row], tag: &Tag<'_>) -> Parameter
        ensures { result ≡ spec.parameter_of rows.now self (plain_tag tag.now) }
    {
        let mut left = rows;
        while let [row, rest @ ..] = left {
            if self.is_at(row, tag) {
                return row.parameter;
            }
            left = rest;
        }
        Parameter::Other
    }

    /// Whether a tag that stands here is that of a row.
    fn is_at(self, row: &Row, tag: &Tag<'_>) -> bool
        ensures { result ≡ spec.is_at row.now self (plain_tag tag.now) }
    {
        row.within.is_same(self.within) && self.is_which(row.which, tag)
    }

    /// Whether it is this tag.
    fn is_which(self, which: Which, tag: &Tag<'_>) -> bool
        ensures { result ≡ spec.is_which which self (plain_tag tag.now) }
    {
        match (which, tag.class) {
            (Which::Context(number), Class::Context) => tag.number == number,
            (Which::Each, Class::Application) => true,
            (Which::Nth(order), Class::Application) => self.order == order,
            (Which::Context(_), Class::Application)
            | (Which::Each | Which::Nth(_), Class::Context) => false,
        }
    }
}
