//! Each device among all stations of a site (ANSI/ASHRAE 135, clauses 5.4.5, 6, 16.10).
//!
//! To the layers above it promises: what a device does where an NPDU comes, when it wakes and when it restarts is a
//! list of honest happenings of the promise, where the network brings it only what was said to it. So the promise holds
//! of devices as they are. It has no code. In `specs/`:
//!
//! - `Devices`: the deeds of a device, and what each of its steps is.
#![tactic(auto)]

ghost use Rattle.headline_device.specs.Devices.{HearingIsDone, OpensAtStart, OthersStand, RestartIsDone, WakingIsDone};
ghost use Rattle.headline_device.specs.Devices.{StaysItselfHearing, StaysItselfRestarting, StaysItselfWaking};

use std::alloc::Allocator;

/// What a device does where an NPDU comes is honest, where the network brings it only what was said to it: a step of
/// its server, an I-Am, or nothing. It stands among all stations after it as before.
pub fn hearing_is_done<A: Allocator>()
    ensures { HearingIsDone A }
{}

/// So is what it does when it wakes.
pub fn waking_is_done<A: Allocator>()
    ensures { WakingIsDone A }
{}

/// So is a restart with the opening objects of its station.
pub fn restart_is_done<A: Allocator>()
    ensures { RestartIsDone A }
{}

/// Each other device stands as before.
pub fn others_stand<A: Allocator>()
    ensures { OthersStand A }
{}

/// A device keeps its instance, vendor, station and the longest APDU that it takes, whatever it does.
pub fn stays_itself<A: Allocator>()
    ensures hearing { StaysItselfHearing A }
    ensures waking { StaysItselfWaking A }
    ensures restarting { StaysItselfRestarting A }
{}

/// A device stands among all stations at the start.
pub fn opens_at_start<A: Allocator>()
    ensures { OpensAtStart A }
{}
