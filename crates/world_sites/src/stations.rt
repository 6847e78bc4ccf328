//! Devices and clients, as they open.

ghost use Rattle.std.specs.Prelude.{◌≡◌, ◌++◌, ◌∷◌, [], IfErr, IfOk, OnOk};
ghost use Rattle.object_model.specs.Site.{IsSite};
ghost use Rattle.node_laws.specs.site_node.device.Device.{new_device};
ghost use Rattle.site_parts.specs.declared.role.Role.TheVariants as role;
ghost use Rattle.world_sites.specs.Opening.{opens};

use crate::nodes::put_part;
use crate::ports::place_port;
use link::Link;
use node_laws::{Client, Device, Part, SiteNode, SitePort};
use object_model::SiteObjects;
use site_parts::{Place, Station};
use std::alloc::{AllocError, Allocator};
use tags::Fault;

/// Puts a device as it opens with these objects behind other nodes, where it has a port.
#[tactic(auto, using(crate::proofs::MakingLaws::opening_rules))]
pub(crate) fn put_device<A: Allocator + Copy>(
    out: &mut Vec<SiteNode<A>, A>,
    alloc: A,
    all: &[Station<A>],
    name: &[u8],
    place: &Place<A>,
    objects: &SiteObjects<A>,
) -> Result<(), Fault>
    requires sound { IsSite objects.now }
    ensures put { OnOk result
        (out.new.items ≡ out.old.items ++ opens all.now name.now (role.Device place.now objects.now)) }
    ensures cause { IfErr result (λ fault. fault ≡ Fault.Memory) }
{
    let Some(port) = place_port(alloc, all, place)? else {
        return Ok(());
    };
    let device = device_at(alloc, SitePort::station(&port), objects)?;
    put_at(out, alloc, name, port, Part::Device(device))?;
    Ok(())
}

/// Puts a client as it opens behind other nodes, where it has a port.
#[tactic(auto, using(crate::proofs::MakingLaws::opening_rules))]
pub(crate) fn put_client<A: Allocator + Copy>(
    out: &mut Vec<SiteNode<A>, A>,
    alloc: A,
    all: &[Station<A>],
    name: &[u8],
    place: &Place<A>,
    segmented: bool,
) -> Result<(), AllocError>
    ensures { OnOk result
        (out.new.items ≡ out.old.items ++ opens all.now name.now (role.Client place.now segmented)) }
{
    let Some(port) = place_port(alloc, all, place)? else {
        return Ok(());
    };
    let kind = place.link_kind();
    let client = Client::new(alloc, SitePort::station(&port), segmented, kind);
    put_at(out, alloc, name, port, Part::Client(client))?;
    Ok(())
}

/// Returns the device at a station as it opens with these objects.
///
/// # Errors
/// `Memory` alone.
fn device_at<A: Allocator + Copy>(
    alloc: A,
    station: npdu::Station,
    objects: &SiteObjects<A>,
) -> Result<Device<A>, Fault>
    requires sound { IsSite objects.now }
    ensures opened { IfOk result (λ device. device ≡ new_device objects.now station) }
    ensures cause { IfErr result (λ fault. fault ≡ Fault.Memory) }
{
    let objects = objects.copy(alloc)?;
    let device = Device::new(alloc, objects, station)?;
    Ok(device)
}

/// Puts a node of a name with this one port behind others.
fn put_at<A: Allocator + Copy>(
    out: &mut Vec<SiteNode<A>, A>,
    alloc: A,
    name: &[u8],
    port: SitePort<A>,
    part: Part<A>,
) -> Result<(), AllocError>
    ensures { OnOk result
        (out.new.items ≡ out.old.items ++ record { name = name.now; ports = port ∷ []; part = part } ∷ []) }
{
    let mut ports = Vec::new(alloc);
    ports.push(port)?;
    put_part(out, alloc, name, ports, part)?;
    Ok(())
}
