//! What a plan and ports come to together: octets that are heard, what goes down, and wakes.

ghost use Rattle.std.specs.Prelude.{◌≡◌, ◌≤◌, ◌⊎◌, [], false, IfOk, IfErr, OnOk};
ghost use Rattle.profile.specs.Times.{MAX_MOMENT_MS};
ghost use Rattle.site_node.specs.Part as parts;
ghost use Rattle.site_node.specs.Part.{IsPlanned, downs_of, left_by, told_by};
ghost use Rattle.site_node.specs.Plan.{is_restart};
ghost use Rattle.site_node.specs.Refusals.{RefusesOn};
ghost use Rattle.site_node.specs.Steps.{HearsOn, PortsWake};
ghost use Rattle.site_ports.specs.Drafts.{drafted};
ghost use Rattle.site_ports.specs.Ports.{AreBefore, CountsAt, DownsEach, IsOneTooLong, RegistersAt, places_of};

use crate::part::Part;
use crate::plan::PartPlan;
use npdu::Mac;
use site_ports::{
    Draft, SitePort, count_at, down_each, down_over, heard_at, register_at, wake_all,
};
use std::alloc::Allocator;
use tags::Fault;

/// The port over which a device or a client says what it says.
const ITS_PORT: usize = 0;

/// Hands down what a plan says, over the ports that it is for.
///
/// # Errors
/// `TooLong` for an NPDU that the network of its port doesn't carry, or `Memory`.
fn go_down<A: Allocator + Copy>(
    ports: &[SitePort<A>],
    plan: &PartPlan<A>,
    now: u64,
    draft: &mut Draft<A>,
) -> Result<(), Fault>
    requires greatest { now ≤ MAX_MOMENT_MS }
    requires order { AreBefore now (drafted now ports.now draft.old).ports }
    ensures downs { OnOk result
        (DownsEach now (downs_of plan.now) (drafted now ports.now draft.old) (drafted now ports.now draft.new)) }
    ensures order { OnOk result (AreBefore now (drafted now ports.now draft.new).ports) }
    ensures cause { IfErr result (λ fault. (fault ≡ Fault.Memory) ⊎ ((fault ≡ Fault.TooLong) ×
        IsOneTooLong (places_of (drafted now ports.now draft.old).ports) (downs_of plan.now))) }
{
    match plan {
        PartPlan::Router(plan) => down_each(ports, plan.out.as_slice(), now, draft),
        PartPlan::Device(plan) => down_over(ports, ITS_PORT, plan.said.as_slice(), now, draft),
        PartPlan::Client(plan) => down_over(ports, ITS_PORT, plan.said.as_slice(), now, draft),
        PartPlan::Says(said) => down_over(ports, ITS_PORT, said.as_slice(), now, draft),
        PartPlan::Nothing | PartPlan::Manages(_) | PartPlan::Forgets | PartPlan::Restarts(_) => {
            Ok(())
        }
    }
}

/// Hands down what a plan says, in an empty draft.
///
/// # Errors
/// `TooLong` for an NPDU that the network of its port doesn't carry, or `Memory`.
pub(crate) fn down_first<A: Allocator + Copy>(
    ports: &[SitePort<A>],
    plan: &PartPlan<A>,
    now: u64,
    draft: &mut Draft<A>,
) -> Result<(), Fault>
    requires greatest { now ≤ MAX_MOMENT_MS }
    requires order { AreBefore now ports.now }
    ensures downs { OnOk result (DownsEach now (downs_of plan.now) (record { ports = ports.now; out = [] })
        (drafted now ports.now draft.new)) }
    ensures order { OnOk result (AreBefore now (drafted now ports.now draft.new).ports) }
    ensures cause { IfErr result (λ fault. (fault ≡ Fault.Memory) ⊎ ((fault ≡ Fault.TooLong) ×
        IsOneTooLong (places_of ports.now) (downs_of plan.now))) }
{
    draft.clear();
    go_down(ports, plan, now, draft)
}

/// Hands down what a plan says, in an empty draft, and then wakes the ports, in order.
///
/// # Errors
/// `TooLong` for an NPDU that the network of its port doesn't carry, or `Memory`.
pub(crate) fn wake_first<A: Allocator + Copy>(
    ports: &[SitePort<A>],
    plan: &PartPlan<A>,
    now: u64,
    draft: &mut Draft<A>,
) -> Result<(), Fault>
    requires greatest { now ≤ MAX_MOMENT_MS }
    requires order { AreBefore now ports.now }
    ensures wakes { OnOk result (PortsWake now (downs_of plan.now) (record { ports = ports.now; out = [] })
        (drafted now ports.now draft.new)) }
    ensures cause { IfErr result (λ fault. (fault ≡ Fault.Memory) ⊎ ((fault ≡ Fault.TooLong) ×
        IsOneTooLong (places_of ports.now) (downs_of plan.now))) }
{
    down_first(ports, plan, now, draft)?;
    wake_all(ports, now, draft)?;
    Ok(())
}

/// Tells a port of so many octets, in an empty draft.
///
/// # Errors
/// `Memory` alone.
pub(crate) fn count_first<A: Allocator + Copy>(
    ports: &[SitePort<A>],
    port: usize,
    count: usize,
    now: u64,
    draft: &mut Draft<A>,
) -> Result<(), Fault>
    requires greatest { now ≤ MAX_MOMENT_MS }
    requires order { AreBefore now ports.now }
    ensures counts { OnOk result (CountsAt count now port (record { ports = ports.now; out = [] })
        (drafted now ports.now draft.new)) }
    ensures order { OnOk result (AreBefore now (drafted now ports.now draft.new).ports) }
    ensures cause { IfErr result (λ fault. fault ≡ Fault.Memory) }
{
    draft.clear();
    count_at(ports, port, count, now, draft)
}

/// Registers at the one port of a device or a client, in an empty draft (J.5.2).
///
/// # Errors
/// `Memory` alone.
pub(crate) fn register_first<A: Allocator + Copy>(
    ports: &[SitePort<A>],
    now: u64,
    draft: &mut Draft<A>,
) -> Result<(), Fault>
    requires greatest { now ≤ MAX_MOMENT_MS }
    requires order { AreBefore now ports.now }
    ensures registers { OnOk result (RegistersAt now parts.ITS_PORT (record { ports = ports.now; out = [] })
        (drafted now ports.now draft.new)) }
    ensures cause { IfErr result (λ fault. fault ≡ Fault.Memory) }
{
    draft.clear();
    register_at(ports, ITS_PORT, now, draft)
}

/// Returns what a part does where octets are heard on a port, behind what the draft has so far.
///
/// # Errors
/// What the port refuses of octets; what the part refuses of the message in them; `TooLong` where what is said is too
/// long for its port; or `Memory`.
pub(crate) fn hear_on<A: Allocator + Copy>(
    ports: &[SitePort<A>],
    part: &Part<A>,
    port: usize,
    from: Mac,
    octets: &[u8],
    stamp: u64,
    now: u64,
    draft: &mut Draft<A>,
) -> Result<PartPlan<A>, Fault>
    requires greatest { now ≤ MAX_MOMENT_MS }
    requires order { AreBefore now (drafted now ports.now draft.old).ports }
    ensures hears { IfOk result (λ plan. HearsOn now port from octets.now stamp (drafted now ports.now draft.old)
        part.now (told_by plan) (left_by now plan part.now) (drafted now ports.now draft.new)) }
    ensures planned { IfOk result (IsPlanned now part.now) }
    ensures none { IfOk result (λ plan. is_restart plan ≡ false) }
    ensures cause { IfErr result (λ fault. (fault ≡ Fault.Memory) ⊎ RefusesOn now port from octets.now stamp
        (drafted now ports.now draft.old).ports part.now fault) }
{
    let Some(up) = heard_at(ports, port, from, octets, stamp, now, draft)? else {
        return Ok(PartPlan::Nothing);
    };
    let plan = part.plan_message(port, up, now)?;
    go_down(ports, &plan, now, draft)?;
    Ok(plan)
}

/// Returns what a part does where octets are heard on a port, in an empty draft.
///
/// # Errors
/// As `hear_on`.
pub(crate) fn hear_first<A: Allocator + Copy>(
    ports: &[SitePort<A>],
    part: &Part<A>,
    port: usize,
    from: Mac,
    octets: &[u8],
    stamp: u64,
    now: u64,
    draft: &mut Draft<A>,
) -> Result<PartPlan<A>, Fault>
    requires greatest { now ≤ MAX_MOMENT_MS }
    requires order { AreBefore now ports.now }
    ensures hears { IfOk result (λ plan. HearsOn now port from octets.now stamp (record { ports = ports.now; out = [] })
        part.now (told_by plan) (left_by now plan part.now) (drafted now ports.now draft.new)) }
    ensures planned { IfOk result (IsPlanned now part.now) }
    ensures none { IfOk result (λ plan. is_restart plan ≡ false) }
    ensures cause { IfErr result (λ fault. (fault ≡ Fault.Memory) ⊎ RefusesOn now port from octets.now stamp ports.now
        part.now fault) }
{
    draft.clear();
    hear_on(ports, part, port, from, octets, stamp, now, draft)
}
