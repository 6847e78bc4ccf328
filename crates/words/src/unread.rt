//! Why words are not read.

ghost use Rattle.std.specs.Prelude.{◌≡◌};
ghost use Rattle.words.specs.declared.unread.Unread.TheVariants.{Memory};

use std::alloc::{AllocError, AllocFailed};
use std::error::Error;
use std::fmt;

/// Why words are not read: want of memory, or what should stand there.
#[derive(Clone, Copy, Debug, PartialEq, Eq)]
pub enum Unread {
    /// There is no memory for what the words say.
    Memory,
    /// A number in decimal digits, within the range of its kind.
    Number,
    /// Pairs of hexadecimal digits, or `-`.
    Octets,
    /// An object, as `5:1`.
    Object,
    /// A property or an element of one, as `85` or `87/17`.
    Reference,
    /// A value, as `signed 20`.
    Value,
    /// A request, as `read 5:1 85`.
    Request,
    /// A reply, as `values enum 1`.
    Reply,
    /// A request or value that octets can spell.
    Sound,
    /// The name of a station: 1 to 32 letters and digits.
    Name,
    /// A step of a script, as `tick 1000`.
    Step,
}

impl fmt::Display for Unread {
    fn fmt<W: fmt::Write>(&self, f: &mut fmt::Formatter<W>) -> fmt::Result {
        f.write_str(match self {
            Unread::Memory => "Memory",
            Unread::Number => "not a number of its kind",
            Unread::Octets => "not octets",
            Unread::Object => "not an object",
            Unread::Reference => "not a property",
            Unread::Value => "not a value",
            Unread::Request => "not a request",
            Unread::Reply => "not a reply",
            Unread::Sound => "not within the range of its kind",
            Unread::Name => "not a name",
            Unread::Step => "not a step",
        })
    }
}

impl Error for Unread {}

impl From<AllocError> for Unread {
    ghost from_gives = { λ _ unread. unread ≡ Memory };

    fn from(_error: AllocError) -> Unread {
        Unread::Memory
    }
}

impl<T: Drop> From<AllocFailed<T>> for Unread {
    ghost from_gives = { λ _ unread. unread ≡ Memory };

    fn from(_error: AllocFailed<T>) -> Unread {
        Unread::Memory
    }
}
