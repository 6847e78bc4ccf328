//! Percentages in steps of a tenth.

ghost use Rattle.std.specs.Prelude.{◌≡◌, ◌<◌, ◌/◌, ◌%◌, ◌*◌};

/// A percentage in steps of a tenth, as 5 or 2.5; one over 100 counts as 100.
#[derive(Clone, Copy, Debug, PartialEq, Eq)]
pub struct Percent {
    /// How many tenths of a percent it is.
    pub tenths: u16,
}

impl Percent {
    /// A percentage without a digit behind its point.
    pub fn whole(percents: u8) -> Percent
        ensures { result.tenths ≡ 10 * percents }
    {
        Percent {
            tenths: 10 * u16::from(percents),
        }
    }
}

/// Which of a thousand equal parts a random word is in. What comes to pass with a percentage does so for a part below
/// its tenths: for a whole percentage, where the last two digits of the word are below it.
pub(crate) fn part_of(word: u64) -> u64
    ensures below { result < 1000 }
    ensures whole { result / 10 ≡ word % 100 }
{
    10 * (word % 100) + word / 100 % 10
}
