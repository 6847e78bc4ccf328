//! What is too old, and how many answers live: moments and ages in milliseconds (5.4.1, 5.4.4, 5.4.5). No call but
//! `end_of_quiet` has a condition: ages are differences that stop at 0.

ghost use Rattle.std.specs.Prelude.{◌≡◌, ◌≤◌};
ghost use Rattle.profile.specs.Ages as spec;
ghost use Rattle.profile.specs.Times as times;

use crate::limits::MAX_REMEMBERED;
use crate::times::{DEADLINE_MS, GATHERING_TIMEOUT_MS, KEEP_MS, LIFE_MS};

/// Whether it is, at the moment `now`, before the deadline of what was issued at the moment `at`: fewer than 12000
/// after it (5.4.4).
pub fn is_in_time(at: u64, now: u64) -> bool
    ensures { result ≡ spec.is_in_time at now }
{
    now.saturating_sub(at) < DEADLINE_MS
}

/// Whether an answer lives at the moment `now` whose request was executed at the moment `at`: at most 13000 after it
/// (5.4.5).
pub fn lives(at: u64, now: u64) -> bool
    ensures { result ≡ spec.lives at now }
{
    now.saturating_sub(KEEP_MS) <= at
}

/// Whether a message still gathers at the moment `now` of which a segment was heard last at the moment `at`: fewer
/// than 8000 after it (5.4.4, 5.4.5).
pub fn gathers_still(at: u64, now: u64) -> bool
    ensures { result ≡ spec.gathers_still at now }
{
    now.saturating_sub(at) < GATHERING_TIMEOUT_MS
}

/// Whether an invoke ID may be given at the moment `now` that is free from a moment on (5.4.1).
pub fn is_free(free_from: u64, now: u64) -> bool
    ensures { result ≡ spec.is_free free_from now }
{
    free_from <= now
}

/// Whether what was said at the moment `stamp` is young enough to be heard at the moment `now`: at most 1000 after it.
pub fn is_heard_in_time(stamp: u64, now: u64) -> bool
    ensures { result ≡ spec.is_heard_in_time stamp now }
{
    now.saturating_sub(stamp) <= LIFE_MS
}

/// The end of the quiet time of a device that restarts at the moment `now`: 13000 after it.
pub fn end_of_quiet(now: u64) -> u64
    requires { now ≤ times.MAX_MOMENT_MS }
    ensures { result ≡ spec.end_of_quiet now }
{
    now + KEEP_MS
}

/// Whether there is no place for another answer, where there are so many, and the oldest is dead or not: for 64 that
/// live (5.4.5).
pub fn has_no_place(count: usize, begins_dead: bool) -> bool
    ensures { result ≡ spec.has_no_place count begins_dead }
{
    count >= MAX_REMEMBERED && !begins_dead
}
