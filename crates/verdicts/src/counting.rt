//! How often a request was executed.

ghost use Rattle.std.specs.Prelude.{◌≡◌};
ghost use Rattle.history.specs.Legal as spec;
ghost use Rattle.history.specs.Lists.{count};

use history::Entry;

/// How many entries say that the issue of a number was executed.
pub(crate) fn count_executed<S, Q, R>(number: u64, history: &[Entry<S, Q, R>]) -> usize
    ensures { result ≡ count (spec.executes number) history.now }
{
    let mut times = 0;
    for entry in history {
        if executes(number, entry) {
            times += 1;
        }
    }
    times
}

/// Whether an entry says that the issue of a number was executed.
fn executes<S, Q, R>(number: u64, entry: &Entry<S, Q, R>) -> bool
    ensures { result ≡ spec.executes number entry.now }
{
    match entry {
        Entry::Executed { number: other, .. } => *other == number,
        Entry::Issue { .. }
        | Entry::Answered { .. }
        | Entry::Ended { .. }
        | Entry::Restarted { .. } => false,
    }
}
