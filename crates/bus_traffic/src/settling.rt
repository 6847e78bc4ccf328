//! Which frames of a bus are settled, so that none of them is looked at again.

ghost use Rattle.std.specs.Prelude.{◌≡◌, ◌-◌, length};
ghost use Rattle.bus_traffic.specs.Settling as spec;
ghost use Rattle.bus_traffic.specs.Settling.{AreSettled};

use crate::ear::Ear;
use crate::sending::{Recent, RecentBox};
use std::alloc::Allocator;

/// Whether a frame was delivered at an ear, or its station put it out.
fn is_done_at<A: Allocator>(recent: &Recent<A>, ear: &Ear) -> bool
    ensures { result ≡ spec.is_done_at recent.now ear.now }
{
    recent.heard[ear.address as usize] || ear.address == recent.sending.sender
}

/// Whether it is so at each of these ears.
fn is_done<A: Allocator>(ears: &[Ear], recent: &Recent<A>) -> bool
    ensures { result ≡ spec.is_done ears.now recent.now }
{
    let mut left = ears;
    while let [ear, rest @ ..] = left {
        if !is_done_at(recent, ear) {
            return false;
        }
        left = rest;
    }
    true
}

/// Returns how many frames in front are settled, of which so many were.
pub(crate) fn count_done<A: Allocator>(
    ears: &[Ear],
    recent: &[RecentBox<A>],
    settled: usize,
) -> usize
    requires { AreSettled ears.now recent.now settled }
    ensures { AreSettled ears.now recent.now result }
{
    let mut count = settled;
    while count < recent.len() && is_done(ears, recent[count].recent()) {
        count += 1;
    }
    count
}

/// Returns how many frames in front are settled for certain where, of so many frames, some are forgotten and so many
/// kept.
pub(crate) fn still_settled(settled: usize, before: usize, kept: usize) -> usize
    ensures { result ≡ settled - (before - kept) }
{
    settled.saturating_sub(before.saturating_sub(kept))
}
