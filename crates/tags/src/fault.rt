//! Why something is refused: the fifteen refusals of all crates, each named and numbered here alone.

ghost use Rattle.std.specs.Prelude.{◌≡◌, Some};
ghost use Rattle.tags.specs.Fault.{name_of, number_of};
ghost use Rattle.tags.specs.declared.fault.Fault.TheVariants.{Memory};

use std::alloc::{AllocError, AllocFailed};
use std::error::Error;
use std::fmt;
use std::fmt::{Display, Formatter};

/// Why an input or a call is refused. Its `Display` is its name, and `u8::from` its number.
#[derive(Clone, Copy, Debug, PartialEq, Eq)]
pub enum Fault {
    /// A growth was refused memory.
    Memory = 1,
    /// The input is cut: some octets behind it would complete it.
    Short = 2,
    /// A reserved form of a tag, or an unknown BVLC function.
    BadTag = 3,
    /// A length that does not fit what it stands for.
    BadLength = 4,
    /// A version or protocol type other than this product's.
    BadVersion = 5,
    /// A message that is too long for its way.
    TooLong = 6,
    /// The next invoke ID is still in use.
    NoInvokeId = 7,
    /// No binding is held for the device.
    Unbound = 8,
    /// A router said that it has no route to the network.
    NoRoute = 9,
    /// A table of a fixed size is full.
    TableFull = 10,
    /// A message is too old to be heard.
    Expired = 11,
    /// A frame that nobody sent.
    Forged = 12,
    /// Nothing of that name or number is there.
    NoSuch = 13,
    /// A socket failed.
    Wire = 14,
    /// A site description with a fault.
    BadSite = 15,
}

impl From<AllocError> for Fault {
    ghost from_gives = { λ _ e. e ≡ Memory };

    fn from(_error: AllocError) -> Fault {
        Fault::Memory
    }
}

impl<T: Drop> From<AllocFailed<T>> for Fault {
    ghost from_gives = { λ _ e. e ≡ Memory };

    fn from(_error: AllocFailed<T>) -> Fault {
        Fault::Memory
    }
}

impl From<Fault> for u8 {
    ghost from_gives = { λ fault n. n ≡ number_of fault };

    fn from(fault: Fault) -> u8 {
        fault as u8
    }
}

impl Fault {
    /// The name of the refusal.
    fn name(self) -> &'static str
        ensures { result.now ≡ name_of self }
    {
        match self {
            Fault::Memory => "Memory",
            Fault::Short => "Short",
            Fault::BadTag => "BadTag",
            Fault::BadLength => "BadLength",
            Fault::BadVersion => "BadVersion",
            Fault::TooLong => "TooLong",
            Fault::NoInvokeId => "NoInvokeId",
            Fault::Unbound => "Unbound",
            Fault::NoRoute => "NoRoute",
            Fault::TableFull => "TableFull",
            Fault::Expired => "Expired",
            Fault::Forged => "Forged",
            Fault::NoSuch => "NoSuch",
            Fault::Wire => "Wire",
            Fault::BadSite => "BadSite",
        }
    }
}

/// The refusal's name.
impl Display for Fault {
    ghost output = { λ fault. Some (name_of fault) };

    fn fmt<W: fmt::Write>(&self, f: &mut Formatter<W>) -> fmt::Result {
        f.write_str(self.name())
    }
}

impl Error for Fault {}
