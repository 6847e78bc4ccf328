//! The ports of a node, and what goes out over them.

ghost use Rattle.std.specs.Prelude.{◌≡◌, ◌≤◌, ◌⊎◌, ◌↔◌, ◌∷◌, [], false, None, Some, IfErr, IfNone, IfOk, IfSome, OnOk};
ghost use Rattle.std.specs.Prelude.{map, slice_get};
ghost use Rattle.link_site.specs.Port.{restarted};
ghost use Rattle.link_site.specs.Steps as site;
ghost use Rattle.link.specs.Up.{parcel_if};
ghost use Rattle.profile.specs.Times.{MAX_MOMENT_MS};
ghost use Rattle.due_times.specs.Until.{Until};
ghost use Rattle.site_ports.specs.Drafts.{drafted};
ghost use Rattle.site_ports.specs.Ports.{AreBefore, CountsAt, DownsEach, DownsOne, HearsAt, IsOneTooLong, NothingIsDue};
ghost use Rattle.site_ports.specs.Ports.{RegistersAt, Steps, WakesAll, over, places_of};

use crate::draft::Draft;
use link::{Link, Up};
use link_site::SitePort;
use npdu::{Mac, Parcel};
use router::PortParcel;
use std::alloc::Allocator;
use tags::Fault;

/// Returns the port of a number, if the node has it.
fn port_at<A: Allocator + Copy>(ports: &[SitePort<A>], port: usize) -> Option<&SitePort<A>>
    ensures there { IfSome result (λ link. slice_get ports.now port ≡ Some link.now) }
    ensures none { IfNone result (slice_get ports.now port ≡ None) }
{
    match ports.get(port) {
        Some(link) => Some(link),
        None => None,
    }
}

/// Hands one parcel down over a port, at the moment `now`, in milliseconds. A port that the node doesn't have puts out
/// nothing.
fn down_one<A: Allocator + Copy>(
    ports: &[SitePort<A>],
    port: usize,
    parcel: &Parcel<A>,
    now: u64,
    draft: &mut Draft<A>,
) -> Result<(), Fault>
    requires greatest { now ≤ MAX_MOMENT_MS }
    requires order { AreBefore now (drafted now ports.now draft.old).ports }
    ensures downs { OnOk result
        (DownsOne now port parcel.now (drafted now ports.now draft.old) (drafted now ports.now draft.new)) }
    ensures order { OnOk result (AreBefore now (drafted now ports.now draft.new).ports) }
    ensures places { OnOk result (places_of (drafted now ports.now draft.new).ports
        ≡ places_of (drafted now ports.now draft.old).ports) }
    ensures cause { IfErr result (λ fault. (fault ≡ Fault.Memory) ⊎ ((fault ≡ Fault.TooLong) ×
        IsOneTooLong (places_of (drafted now ports.now draft.old).ports) (over port (parcel.now ∷ [])))) }
{
    let Some(link) = port_at(ports, port) else {
        return Ok(());
    };
    draft.reach(port)?;
    link.down(&mut draft.changes[port], parcel, port, now, &mut draft.out)
}

/// Hands parcels down over a port in order, at the moment `now`, in milliseconds, and appends what is put out to the
/// draft.
///
/// # Errors
/// `TooLong` for an NPDU that the network doesn't carry, or `Memory`. The draft may then be any.
pub fn down_over<A: Allocator + Copy>(
    ports: &[SitePort<A>],
    port: usize,
    said: &[Parcel<A>],
    now: u64,
    draft: &mut Draft<A>,
) -> Result<(), Fault>
    requires greatest { now ≤ MAX_MOMENT_MS }
    requires order { AreBefore now (drafted now ports.now draft.old).ports }
    ensures downs { OnOk result
        (DownsEach now (over port said.now) (drafted now ports.now draft.old) (drafted now ports.now draft.new)) }
    ensures order { OnOk result (AreBefore now (drafted now ports.now draft.new).ports) }
    ensures cause { IfErr result (λ fault. (fault ≡ Fault.Memory) ⊎ ((fault ≡ Fault.TooLong) ×
        IsOneTooLong (places_of (drafted now ports.now draft.old).ports) (over port said.now))) }
{
    for parcel in said {
        down_one(ports, port, parcel, now, draft)?;
    }
    Ok(())
}

/// Hands each of these down over its port, in order, at the moment `now`, in milliseconds, and appends what is put out
/// to the draft.
///
/// # Errors
/// `TooLong` for an NPDU that the network of its port doesn't carry, or `Memory`. The draft may then be any.
pub fn down_each<A: Allocator + Copy>(
    ports: &[SitePort<A>],
    said: &[PortParcel<A>],
    now: u64,
    draft: &mut Draft<A>,
) -> Result<(), Fault>
    requires greatest { now ≤ MAX_MOMENT_MS }
    requires order { AreBefore now (drafted now ports.now draft.old).ports }
    ensures downs { OnOk result
        (DownsEach now said.now (drafted now ports.now draft.old) (drafted now ports.now draft.new)) }
    ensures order { OnOk result (AreBefore now (drafted now ports.now draft.new).ports) }
    ensures cause { IfErr result (λ fault. (fault ≡ Fault.Memory) ⊎ ((fault ≡ Fault.TooLong) ×
        IsOneTooLong (places_of (drafted now ports.now draft.old).ports) said.now)) }
{
    for one in said {
        down_one(ports, one.port, &one.parcel, now, draft)?;
    }
    Ok(())
}

/// A port hears octets from an address, said at the moment `stamp`, at the moment `now`, in milliseconds. Returns what
/// comes up of them, and appends what is put out to the draft. A port that the node doesn't have hears nothing.
///
/// # Errors
/// What the port refuses of octets, or `Memory`. The draft may then be any.
pub fn heard_at<'o, A: Allocator + Copy>(
    ports: &[SitePort<A>],
    port: usize,
    from: Mac,
    octets: &'o [u8],
    stamp: u64,
    now: u64,
    draft: &mut Draft<A>,
) -> Result<Option<Up<'o>>, Fault>
    requires greatest { now ≤ MAX_MOMENT_MS }
    requires order { AreBefore now (drafted now ports.now draft.old).ports }
    ensures heard { IfOk result (λ up. HearsAt now port from octets.entry.now stamp (drafted now ports.now draft.old)
        (parcel_if up) (drafted now ports.now draft.new)) }
    ensures order { OnOk result (AreBefore now (drafted now ports.now draft.new).ports) }
    ensures places { OnOk result (places_of (drafted now ports.now draft.new).ports
        ≡ places_of (drafted now ports.now draft.old).ports) }
    ensures cause { IfErr result (λ fault. (fault ≡ Fault.Memory) ⊎ site.IsRefused fault from octets.entry.now) }
{
    let Some(link) = port_at(ports, port) else {
        return Ok(None);
    };
    draft.reach(port)?;
    link.heard(
        &mut draft.changes[port],
        from,
        octets,
        stamp,
        port,
        now,
        &mut draft.out,
    )
}

/// So many octets are heard at a port at the moment `now`, in milliseconds, in a frame or not (9.5.2). A link without
/// octets of its own, or a port that the node doesn't have, does nothing of it.
///
/// # Errors
/// `Memory` alone. The draft may then be any.
pub fn count_at<A: Allocator + Copy>(
    ports: &[SitePort<A>],
    port: usize,
    count: usize,
    now: u64,
    draft: &mut Draft<A>,
) -> Result<(), Fault>
    requires greatest { now ≤ MAX_MOMENT_MS }
    requires order { AreBefore now (drafted now ports.now draft.old).ports }
    ensures counts { OnOk result
        (CountsAt count now port (drafted now ports.now draft.old) (drafted now ports.now draft.new)) }
    ensures order { OnOk result (AreBefore now (drafted now ports.now draft.new).ports) }
    ensures places { OnOk result (places_of (drafted now ports.now draft.new).ports
        ≡ places_of (drafted now ports.now draft.old).ports) }
    ensures cause { IfErr result (λ fault. fault ≡ Fault.Memory) }
{
    let Some(link) = port_at(ports, port) else {
        return Ok(());
    };
    draft.reach(port)?;
    link.on_octets(&mut draft.changes[port], count, now)
}

/// A port registers at the moment `now`, in milliseconds, where it is one of a foreign device (J.5.2), and appends what
/// is put out to the draft.
///
/// # Errors
/// `Memory` alone. The draft may then be any.
pub fn register_at<A: Allocator + Copy>(
    ports: &[SitePort<A>],
    port: usize,
    now: u64,
    draft: &mut Draft<A>,
) -> Result<(), Fault>
    requires greatest { now ≤ MAX_MOMENT_MS }
    requires order { AreBefore now (drafted now ports.now draft.old).ports }
    ensures registers { OnOk result
        (RegistersAt now port (drafted now ports.now draft.old) (drafted now ports.now draft.new)) }
    ensures order { OnOk result (AreBefore now (drafted now ports.now draft.new).ports) }
    ensures cause { IfErr result (λ fault. fault ≡ Fault.Memory) }
{
    let Some(link) = port_at(ports, port) else {
        return Ok(());
    };
    draft.reach(port)?;
    link.register(&mut draft.changes[port], port, now, &mut draft.out)
}

/// Whether anything is due at a port where it wakes at the moment `now`, in milliseconds.
#[tactic(auto, using(crate::proofs::PortSteps::due_rules))]
pub fn is_any_due<A: Allocator + Copy>(ports: &[SitePort<A>], now: u64) -> bool
    ensures { (result ≡ false) ↔ NothingIsDue now ports.now }
{
    let mut left = ports;
    while let [first, rest @ ..] = left {
        if SitePort::is_due(first, now) {
            return true;
        }
        left = rest;
    }
    false
}

/// Returns a moment, in milliseconds, before which nothing is due at any port where it wakes.
#[tactic(auto, using(crate::proofs::Dues::until_rules))]
pub fn next_due<A: Allocator + Copy>(ports: &[SitePort<A>]) -> u64
    ensures { Until result (λ now. NothingIsDue now ports.now) }
{
    let mut due = u64::MAX;
    let mut left = ports;
    while let [first, rest @ ..] = left {
        due = due.min(first.next_due());
        left = rest;
    }
    due
}

/// A port wakes.
fn wake_one<A: Allocator + Copy>(
    link: &SitePort<A>,
    ports: &[SitePort<A>],
    port: usize,
    now: u64,
    draft: &mut Draft<A>,
) -> Result<(), Fault>
    requires greatest { now ≤ MAX_MOMENT_MS }
    requires order { AreBefore now (drafted now ports.now draft.old).ports }
    requires there { slice_get ports.now port ≡ Some link.now }
    ensures wakes { OnOk result
        (Steps (site.Wakes now) port (drafted now ports.now draft.old) (drafted now ports.now draft.new)) }
    ensures order { OnOk result (AreBefore now (drafted now ports.now draft.new).ports) }
    ensures cause { IfErr result (λ fault. fault ≡ Fault.Memory) }
{
    draft.reach(port)?;
    link.on_tick(&mut draft.changes[port], port, now, &mut draft.out)
}

/// All ports wake in order, at the moment `now`, in milliseconds (9.5.6), and what they put out is appended to the
/// draft.
///
/// # Errors
/// `Memory` alone. The draft may then be any.
pub fn wake_all<A: Allocator + Copy>(
    ports: &[SitePort<A>],
    now: u64,
    draft: &mut Draft<A>,
) -> Result<(), Fault>
    requires greatest { now ≤ MAX_MOMENT_MS }
    requires order { AreBefore now (drafted now ports.now draft.old).ports }
    ensures wakes { OnOk result (WakesAll now (drafted now ports.now draft.old) (drafted now ports.now draft.new)) }
    ensures order { OnOk result (AreBefore now (drafted now ports.now draft.new).ports) }
    ensures cause { IfErr result (λ fault. fault ≡ Fault.Memory) }
{
    let mut port = 0;
    while port < ports.len() {
        wake_one(&ports[port], ports, port, now, draft)?;
        port += 1;
    }
    Ok(())
}

/// All ports restart at the moment `now`, in milliseconds: what waited in them is gone. It takes no memory.
#[tactic(auto, using(crate::proofs::PortSteps::restart_rules))]
pub fn restart_all<A: Allocator + Copy>(ports: &mut Vec<SitePort<A>, A>, now: u64)
    requires greatest { now ≤ MAX_MOMENT_MS }
    requires order { AreBefore now ports.old.items }
    ensures { ports.new.items ≡ map (λ l. restarted now l) ports.old.items }
{
    let mut port = 0;
    while port < ports.len() {
        ports[port].restart(now);
        port += 1;
    }
}
