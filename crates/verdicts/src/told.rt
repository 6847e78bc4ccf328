//! What was told of a request.

ghost use Rattle.std.specs.Prelude.{◌≡◌, option_map};
ghost use Rattle.history.specs.Legal as legal;
ghost use Rattle.history.specs.Lists.{last_of_those};
ghost use Rattle.verdicts.specs.Verdicts as spec;
ghost use Rattle.verdicts.specs.Verdicts.{is_sought};

use history::Entry;

/// What is looked for of a request.
#[derive(Clone, Copy, Debug, PartialEq, Eq)]
enum Sought {
    /// How it ended.
    End,
    /// Its issue, or whatever came of it.
    Anything,
}

/// The last entry that says how the request of a number ended, if there is one.
pub(crate) fn closing_of<S, Q, R>(
    number: u64,
    history: &[Entry<S, Q, R>],
) -> Option<&Entry<S, Q, R>>
    ensures { option_map (λ e. e.now) result ≡ spec.closing_of number history.now }
{
    last_sought(Sought::End, number, history)
}

/// The last entry that tells of the request of a number, its issue included, if there is one.
pub fn last_told<S, Q, R>(number: u64, history: &[Entry<S, Q, R>]) -> Option<&Entry<S, Q, R>>
    ensures { option_map (λ e. e.now) result ≡ spec.last_told number history.now }
{
    last_sought(Sought::Anything, number, history)
}

/// The last entry that is looked for.
#[tactic(auto, using(crate::proofs::ToldLaws::told_laws))]
fn last_sought<S, Q, R>(
    sought: Sought,
    number: u64,
    history: &[Entry<S, Q, R>],
) -> Option<&Entry<S, Q, R>>
    ensures { option_map (λ e. e.now) result ≡ last_of_those (is_sought sought number) history.now }
{
    let mut last = None;
    let mut left = history;
    while let [first, rest @ ..] = left {
        if is_sought(sought, number, first) {
            last = Some(first);
        }
        left = rest;
    }
    last
}

/// Whether an entry is what is looked for.
fn is_sought<S, Q, R>(sought: Sought, number: u64, entry: &Entry<S, Q, R>) -> bool
    ensures { result ≡ is_sought sought number entry.now }
{
    match sought {
        Sought::End => closes(number, entry),
        Sought::Anything => tells_of(number, entry),
    }
}

/// Whether an entry says how the request of a number ended.
fn closes<S, Q, R>(number: u64, entry: &Entry<S, Q, R>) -> bool
    ensures { result ≡ legal.closes number entry.now }
{
    match entry {
        Entry::Answered { number: other, .. } | Entry::Ended { number: other, .. } => {
            *other == number
        }
        Entry::Issue { .. } | Entry::Executed { .. } | Entry::Restarted { .. } => false,
    }
}

/// Whether an entry tells of the request of a number.
fn tells_of<S, Q, R>(number: u64, entry: &Entry<S, Q, R>) -> bool
    ensures { result ≡ spec.tells_of number entry.now }
{
    match entry {
        Entry::Issue { number: other, .. }
        | Entry::Executed { number: other, .. }
        | Entry::Answered { number: other, .. }
        | Entry::Ended { number: other, .. } => *other == number,
        Entry::Restarted { .. } => false,
    }
}
