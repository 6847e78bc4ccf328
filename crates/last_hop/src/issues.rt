//! The invoke IDs of issues (5.4.4, 20.1.2.6).

ghost use Rattle.std.specs.Prelude.{◌≡◌, ◌<◌, IfSome, drop, length};
ghost use Rattle.last_hop.specs.Issues as spec;
ghost use Rattle.last_hop.specs.Issues.{IsKeyOf};

use history::Entry;
use npdu::Station;

/// How many invoke IDs a client has: from the first on again behind the last.
const INVOKE_IDS: usize = 256;

/// Who issued a request, to the device of which instance, and under which invoke ID.
#[derive(Clone, Copy, Debug, PartialEq, Eq)]
pub struct IssueKey {
    pub client: Station,
    pub instance: u32,
    pub invoke_id: u8,
}

/// The client and the instance of an entry, if it is the issue of this number.
fn issued<Q, R>(number: u64, entry: &Entry<Station, Q, R>) -> Option<(Station, u32)>
    ensures { result ≡ spec.issued number entry.now }
{
    match entry {
        Entry::Issue {
            number: other,
            client,
            instance,
            ..
        } if *other == number => Some((*client, *instance)),
        Entry::Issue { .. }
        | Entry::Executed { .. }
        | Entry::Answered { .. }
        | Entry::Ended { .. }
        | Entry::Restarted { .. } => None,
    }
}

/// Whether an entry is an issue of this client.
fn is_of<Q, R>(client: Station, entry: &Entry<Station, Q, R>) -> bool
    ensures { result ≡ spec.is_of client entry.now }
{
    match entry {
        Entry::Issue { client: other, .. } => *other == client,
        Entry::Executed { .. }
        | Entry::Answered { .. }
        | Entry::Ended { .. }
        | Entry::Restarted { .. } => false,
    }
}

/// How many issues of this client there are among entries.
fn count_of<Q, R>(client: Station, entries: &[Entry<Station, Q, R>]) -> usize
    ensures { result ≡ spec.count_of client entries.now }
{
    let mut count = 0;
    for entry in entries {
        if is_of(client, entry) {
            count += 1;
        }
    }
    count
}

/// What stands behind so many entries.
fn behind<Q, R>(history: &[Entry<Station, Q, R>], count: usize) -> &[Entry<Station, Q, R>]
    ensures { result.now ≡ drop count history.now }
{
    match history.get(count..) {
        Some(rest) => rest,
        None => &[],
    }
}

/// The same as `issue_key` for the entry at a place, if that is the issue of this number.
#[tactic(auto, using(crate::proofs::IssueLaws::key_laws))]
fn key_at<Q, R>(number: u64, place: usize, history: &[Entry<Station, Q, R>]) -> Option<IssueKey>
    requires within { place < length history.now }
    ensures key { IfSome result (IsKeyOf number history.now) }
{
    let (client, instance) = issued(number, &history[place])?;
    let before = count_of(client, &history[..place]);
    if count_of(client, behind(history, place + 1)) >= INVOKE_IDS {
        return None;
    }
    Some(IssueKey {
        client,
        instance,
        invoke_id: (before % INVOKE_IDS) as u8,
    })
}

/// Who issued the request of this number in a history, to whom and under which invoke ID: each client counts its issues
/// from 0, modulo 256. `None` where it isn't issued yet, or its invoke ID was given anew since.
pub fn issue_key<Q, R>(number: u64, history: &[Entry<Station, Q, R>]) -> Option<IssueKey>
    ensures key { IfSome result (IsKeyOf number history.now) }
{
    for place in 0..history.len() {
        if issued(number, &history[place]).is_some() {
            return key_at(number, place, history);
        }
    }
    None
}
