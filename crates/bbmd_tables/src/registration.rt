//! Registrations of foreign devices (J.5.2).

ghost use Rattle.std.specs.Prelude.{◌≡◌, ◌≤◌, nat_lt, length, IfOk};
ghost use Rattle.profile.specs.Limits as limit;
ghost use Rattle.bbmd_tables.specs.Tables.{has_room, life, lives, living, seconds_left, served, told, without};

use crate::addresses::is_same;
use bvll::{Address, ForeignDevice};
use profile::{GRACE_SECONDS, MAX_FOREIGN_DEVICES};
use std::alloc::{AllocError, Allocator};
use std::cmp::min;

/// A foreign device that is served, for so many seconds from a moment on, in milliseconds (J.5.2).
#[derive(Clone, Copy, Debug, PartialEq, Eq)]
pub struct Registration {
    pub device: Address,
    pub seconds_to_live: u16,
    pub at: u64,
}

impl Registration {
    /// How long it lives, in milliseconds.
    fn life(self) -> u64
        ensures { result ≡ life self }
    {
        1000 * (u64::from(self.seconds_to_live) + GRACE_SECONDS)
    }

    /// Whether it lives at the moment `now`, in milliseconds: for its seconds and those of grace (J.5.2.3).
    pub fn lives(self, now: u64) -> bool
        ensures { result ≡ lives now self }
    {
        now.saturating_sub(self.at) <= self.life()
    }

    /// The whole seconds that it still lives at the moment `now`, in milliseconds, at most 65535.
    fn seconds_left(self, now: u64) -> u16
        ensures { result ≡ seconds_left now self }
    {
        let left = self.life().saturating_sub(now.saturating_sub(self.at)) / 1000;
        min(left, 0xFFFF) as u16
    }

    /// The entry that a manager tells of it at the moment `now`, in milliseconds (J.2.8).
    pub fn told(self, now: u64) -> ForeignDevice
        ensures { result ≡ told now self }
    {
        ForeignDevice {
            address: self.device,
            seconds_to_live: self.seconds_to_live,
            seconds_left: self.seconds_left(now),
        }
    }
}

/// The device that a registration is of.
fn device_of(registration: Registration) -> Address
    ensures { result ≡ registration.device }
{
    registration.device
}

/// The foreign devices that are served at the moment `now`, in milliseconds.
///
/// # Errors
/// Want of memory.
pub(crate) fn served<A: Allocator>(
    alloc: A,
    registrations: &[Registration],
    now: u64,
) -> Result<Vec<Address, A>, AllocError>
    ensures { IfOk result (λ devices. devices.items ≡ served now registrations.now) }
{
    let mut devices = Vec::new(alloc);
    for registration in registrations {
        if registration.lives(now) {
            devices.push(device_of(*registration))?;
        }
    }
    Ok(devices)
}

/// How many registrations live at the moment `now`, in milliseconds, without that of this device.
fn count_without(registrations: &[Registration], device: Address, now: u64) -> usize
    ensures { result ≡ length (without now device registrations.now) }
{
    let mut count = 0;
    for registration in registrations {
        if registration.lives(now) && !is_same(registration.device, device) {
            count += 1;
        }
    }
    count
}

/// Whether a manager that serves so many foreign devices serves one more.
fn serves_more(count: usize) -> bool
    ensures { result ≡ nat_lt count limit.MAX_FOREIGN_DEVICES }
{
    count < MAX_FOREIGN_DEVICES
}

/// Whether there is room for this device at the moment `now`, in milliseconds: fewer than [`MAX_FOREIGN_DEVICES`]
/// others are served (J.2.6).
pub(crate) fn has_room(registrations: &[Registration], device: Address, now: u64) -> bool
    ensures { result ≡ has_room now device registrations.now }
{
    serves_more(count_without(registrations, device, now))
}

/// Keeps the registrations that live at the moment `now`, in milliseconds.
pub(crate) fn keep_living<A: Allocator>(registrations: &mut Vec<Registration, A>, now: u64)
    ensures living { registrations.new.items ≡ living now registrations.old.items }
    ensures fewer { length registrations.new.items ≤ length registrations.old.items }
{
    registrations.retain(|registration| registration.lives(now));
}

/// Keeps the registrations that live at the moment `now`, in milliseconds, without that of this device.
pub(crate) fn keep_others<A: Allocator>(
    registrations: &mut Vec<Registration, A>,
    device: Address,
    now: u64,
)
    ensures others { registrations.new.items ≡ without now device registrations.old.items }
    ensures fewer { length registrations.new.items ≤ length registrations.old.items }
{
    registrations.retain(|kept| kept.lives(now) && !is_same(kept.device, device));
}
