//! Who hears a broadcast that goes through the managers of a network (J.4.5).

ghost use Rattle.std.specs.Prelude.{◌≡◌, ◌++◌, [], ◌∷◌, true, map, flat_map, IfOk, OnOk};
ghost use Rattle.bvll.specs.Datagram.{datagram_of};
ghost use Rattle.bbmd_tables.specs.Tables.{is_among};
ghost use Rattle.bbmd.specs.Reach.{AreFull, IsReached, Reaches, asked_of, begun, begun_in, broadcast_of, everyone};
ghost use Rattle.bbmd.specs.Reach.{going_to, hearers, managers_of, owns, passed, passed_by, stations};
ghost use Rattle.bbmd.specs.Passing.{going_of, onward};
ghost use Rattle.bbmd.specs.Worked.{at_port, two_subnets};

use bbmd_manager::Bbmd;
use bbmd_tables::{append_others, is_among, is_same};
use bvll::{Address, Bvll};
use std::alloc::{AllocError, Allocator};
use tags::Items;

/// A subnet of BACnet/IP: its configured members, the manager among them, and the manager with its tables.
#[derive(Drop)]
pub struct Subnet<A: Allocator> {
    pub members: Items<Address, A>,
    pub manager: Option<Bbmd<A>>,
}

/// The subnets of a network, and the moment, in milliseconds, which no manager's own moment is behind.
#[derive(Drop)]
pub struct SiteTables<A: Allocator> {
    pub moment: u64,
    pub subnets: Items<Subnet<A>, A>,
}

/// A datagram on its way between two addresses, with no octet of NPDU.
#[derive(Clone, Copy)]
pub(crate) struct Passing {
    pub(crate) from: Address,
    pub(crate) to: Address,
    pub(crate) what: Bvll<'static>,
}

/// As what a manager forwards a datagram: with who sent it as the origin, where it names none (J.2.5).
fn onward(from: Address, what: Bvll<'static>) -> Bvll<'static>
    ensures { datagram_of result ≡ onward from (datagram_of what.entry) }
{
    match what {
        Bvll::OriginalBroadcastNpdu(npdu) | Bvll::DistributeBroadcastToNetwork(npdu) => {
            Bvll::ForwardedNpdu { origin: from, npdu }
        }
        Bvll::Result(_)
        | Bvll::WriteBroadcastDistributionTable(_)
        | Bvll::ReadBroadcastDistributionTable
        | Bvll::ReadBroadcastDistributionTableAck(_)
        | Bvll::ForwardedNpdu { .. }
        | Bvll::RegisterForeignDevice { .. }
        | Bvll::ReadForeignDeviceTable
        | Bvll::ReadForeignDeviceTableAck(_)
        | Bvll::DeleteForeignDeviceTableEntry(_)
        | Bvll::OriginalUnicastNpdu(_) => what,
    }
}

/// Appends a datagram to each of these.
fn append_to_each<A: Allocator>(
    out: &mut Vec<Passing, A>,
    from: Address,
    what: Bvll<'static>,
    to: &[Address],
) -> Result<(), AllocError>
    ensures { OnOk result (map going_of out.new.items ≡
        map going_of out.old.items ++ going_to from (datagram_of what.entry) to.now) }
{
    for address in to {
        out.push(Passing {
            from,
            to: *address,
            what,
        })?;
    }
    Ok(())
}

/// Appends what a manager forwards of a datagram, where that comes to its address.
fn append_passed_by<A: Allocator + Copy>(
    out: &mut Vec<Passing, A>,
    passing: Passing,
    manager: &Bbmd<A>,
    now: u64,
) -> Result<(), AllocError>
    ensures { OnOk result (map going_of out.new.items ≡
        map going_of out.old.items ++ passed_by now (going_of passing) manager.now) }
{
    if !is_same(passing.to, manager.own()) {
        return Ok(());
    }
    let to = manager.carried_to(passing.from, &passing.what, now)?;
    let what = onward(passing.from, passing.what);
    append_to_each(out, manager.own(), what, to.as_slice())
}

/// Appends what the managers of a network forward of a datagram.
fn append_passed<A: Allocator + Copy>(
    out: &mut Vec<Passing, A>,
    passing: Passing,
    tables: &SiteTables<A>,
) -> Result<(), AllocError>
    ensures { OnOk result (map going_of out.new.items ≡ map going_of out.old.items ++
        flat_map (passed_by tables.now.moment (going_of passing)) (managers_of tables.now.subnets)) }
{
    for subnet in tables.subnets.as_slice() {
        if let Some(manager) = &subnet.manager {
            append_passed_by(out, passing, manager, tables.moment)?;
        }
    }
    Ok(())
}

/// What the managers of a network forward of datagrams.
fn passed<A: Allocator + Copy>(
    alloc: A,
    all: &[Passing],
    tables: &SiteTables<A>,
) -> Result<Vec<Passing, A>, AllocError>
    ensures { IfOk result (λ out. map going_of out.items ≡
        passed tables.now.moment (managers_of tables.now.subnets) (map going_of all.now)) }
{
    let mut out = Vec::new(alloc);
    for passing in all {
        append_passed(&mut out, *passing, tables)?;
    }
    Ok(out)
}

/// Appends what an origin says in a subnet: as a member to all others of it, as a foreign device to the manager.
fn append_begun<A: Allocator + Copy>(
    out: &mut Vec<Passing, A>,
    origin: Address,
    subnet: &Subnet<A>,
    now: u64,
) -> Result<(), AllocError>
    ensures { OnOk result (map going_of out.new.items ≡
        map going_of out.old.items ++ begun_in now origin [] subnet.now) }
{
    append_broadcast(out, origin, subnet.members.as_slice())?;
    match &subnet.manager {
        None => Ok(()),
        Some(manager) => append_asked(out, origin, manager, now),
    }
}

/// Appends what an origin broadcasts to all other members, where it is one (J.2.12).
fn append_broadcast<A: Allocator + Copy>(
    out: &mut Vec<Passing, A>,
    origin: Address,
    members: &[Address],
) -> Result<(), AllocError>
    ensures { OnOk result (map going_of out.new.items ≡
        map going_of out.old.items ++ broadcast_of origin [] members.now) }
{
    if !is_among(origin, members) {
        return Ok(());
    }
    let mut to = Vec::new(*out.allocator());
    append_others(&mut to, origin, members)?;
    append_to_each(out, origin, Bvll::OriginalBroadcastNpdu(&[]), to.as_slice())
}

/// Appends what an origin has distributed by a manager that serves it (J.2.10).
fn append_asked<A: Allocator + Copy>(
    out: &mut Vec<Passing, A>,
    origin: Address,
    manager: &Bbmd<A>,
    now: u64,
) -> Result<(), AllocError>
    ensures { OnOk result (map going_of out.new.items ≡
        map going_of out.old.items ++ asked_of now origin [] manager.now) }
{
    if !manager.serves(origin, now)? {
        return Ok(());
    }
    let to = [manager.own()];
    append_to_each(out, origin, Bvll::DistributeBroadcastToNetwork(&[]), &to)
}

/// What an origin says in a network.
fn begun<A: Allocator + Copy>(
    alloc: A,
    origin: Address,
    tables: &SiteTables<A>,
) -> Result<Vec<Passing, A>, AllocError>
    ensures { IfOk result (λ out. map going_of out.items ≡
        begun tables.now.moment origin [] tables.now.subnets) }
{
    let mut out = Vec::new(alloc);
    for subnet in tables.subnets.as_slice() {
        append_begun(&mut out, origin, subnet, tables.moment)?;
    }
    Ok(out)
}

/// Whether a manager is at this address.
fn is_manager<A: Allocator + Copy>(address: Address, subnets: &[Subnet<A>]) -> bool
    ensures { result ≡ is_among address (owns (managers_of subnets.now)) }
{
    for subnet in subnets {
        if let Some(manager) = &subnet.manager {
            if is_same(manager.own(), address) {
                return true;
            }
        }
    }
    false
}

/// Appends the stations that datagrams go to: all addressees but managers.
fn append_stations<A: Allocator + Copy>(
    out: &mut Items<Address, A>,
    all: &[Passing],
    subnets: &[Subnet<A>],
) -> Result<(), AllocError>
    ensures { OnOk result (out.new ≡ out.old ++
        stations (managers_of subnets.now) (map (λ g. g.to) (map going_of all.now))) }
{
    for passing in all {
        if !is_manager(passing.to, subnets) {
            out.push(passing.to)?;
        }
    }
    Ok(())
}

/// The stations that hear a broadcast: in its subnet, and in two passes through managers.
fn hearers_of<A: Allocator + Copy>(
    alloc: A,
    tables: &SiteTables<A>,
    origin: Address,
) -> Result<Items<Address, A>, AllocError>
    ensures { IfOk result (λ all. all ≡ hearers tables.now.moment origin [] tables.now.subnets) }
{
    let first = begun(alloc, origin, tables)?;
    let second = passed(alloc, first.as_slice(), tables)?;
    let third = passed(alloc, second.as_slice(), tables)?;
    let subnets = tables.subnets.as_slice();
    let mut all = Items::new(alloc);
    append_stations(&mut all, first.as_slice(), subnets)?;
    append_stations(&mut all, second.as_slice(), subnets)?;
    append_stations(&mut all, third.as_slice(), subnets)?;
    Ok(all)
}

/// The stations that hear a broadcast of this origin, each as often as it does, where what is said is delivered once:
/// the members of its subnet, whom managers forward it to, and whom managers forward that to (J.4.5). Over full tables
/// managers forward nothing more, and these are all other stations, each once.
///
/// # Errors
/// Want of memory.
pub fn spread<A: Allocator + Copy>(
    alloc: A,
    tables: &SiteTables<A>,
    origin: Address,
) -> Result<Items<Address, A>, AllocError>
    ensures heard { IfOk result (λ all. all ≡ hearers tables.now.moment origin [] tables.now.subnets) }
    ensures reached { AreFull tables.now.moment tables.now.subnets →
        is_among origin (stations (managers_of tables.now.subnets)
        (everyone tables.now.moment tables.now.subnets)) ≡ true →
        IfOk result (IsReached tables.now.moment origin tables.now.subnets) }
{
    let all = hearers_of(alloc, tables, origin)?;
    Ok(all)
}

/// Over full tables a broadcast reaches each other station once (J.4.5).
pub fn reach<A: Allocator>()
    ensures { Reaches A }
{}

/// Tables of two subnets, with a foreign device at one manager, are full; and the broadcast of a member is heard by
/// the foreign device and by the member of the other subnet (J.4.5).
pub fn two_subnets<A: Allocator>()
    ensures full { AreFull {A = A} 0 two_subnets }
    ensures heard { hearers {A = A} 0 (at_port 47810) [] two_subnets ≡ at_port 47824 ∷ (at_port 47811 ∷ []) }
{}
