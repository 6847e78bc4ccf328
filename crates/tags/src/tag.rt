//! Tags: what stands in front of each value (20.2.1).

ghost use Rattle.std.specs.Prelude.{◌≡◌};

/// The class of a tag: bit 3 of its initial octet (20.2.1.1).
#[derive(Clone, Copy, Debug, PartialEq, Eq)]
pub enum Class {
    /// A tag whose number says the type of the value.
    Application,
    /// A tag whose number is given by the service or the production that it stands in.
    Context,
}

/// What a tag carries (20.2.1.3).
#[derive(Clone, Copy, Debug, PartialEq, Eq)]
pub enum Content<'a> {
    /// An application-tagged Null, without contents octets.
    Null,
    /// An application-tagged Boolean, whose value stands in the initial octet.
    Boolean(bool),
    /// Contents octets: the slice of the input that holds them.
    Octets(&'a [u8]),
    /// An opening tag.
    Opening,
    /// A closing tag.
    Closing,
}

/// One tag with its contents (20.2.1).
#[derive(Clone, Copy, Debug, PartialEq, Eq)]
pub struct Tag<'a> {
    /// The class.
    pub class: Class,
    /// The tag number, 0 to 254 (20.2.1.2).
    pub number: u8,
    /// What the tag carries.
    pub content: Content<'a>,
}

impl<'a> Tag<'a> {
    /// A context tag with contents octets.
    pub fn context(number: u8, octets: &'a [u8]) -> Self
        ensures { result ≡ record { class = Class.Context; number = number; content = Content.Octets octets.entry } }
    {
        Tag {
            class: Class::Context,
            number,
            content: Content::Octets(octets),
        }
    }

    /// An opening tag.
    pub fn opening(number: u8) -> Self
        ensures { result ≡ record { class = Class.Context; number = number; content = Content.Opening } }
    {
        Tag {
            class: Class::Context,
            number,
            content: Content::Opening,
        }
    }

    /// A closing tag.
    pub fn closing(number: u8) -> Self
        ensures { result ≡ record { class = Class.Context; number = number; content = Content.Closing } }
    {
        Tag {
            class: Class::Context,
            number,
            content: Content::Closing,
        }
    }
}
