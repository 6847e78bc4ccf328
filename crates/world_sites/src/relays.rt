//! Broadcast managers and routers, as they open.

ghost use Rattle.std.specs.Prelude.{◌≡◌, ◌++◌, IfErr, IfOk, OnOk};
ghost use Rattle.router.specs.Router.{AreNumbered, new_router};
ghost use Rattle.site_parts.specs.declared.role.Role.TheVariants as role;
ghost use Rattle.node_laws.specs.site_ports.Ports.{places_of};
ghost use Rattle.world_sites.specs.Fit.{HaveNumbers, IsManagerFit};
ghost use Rattle.world_sites.specs.Opening as spec;
ghost use Rattle.world_sites.specs.Opening.{opens};

use crate::nodes::put_part;
use crate::ports::ports_at;
use bbmd::Bbmd;
use link::Link;
use node_laws::{Part, SiteNode, SitePort};
use router::Router;
use site::SubnetId;
use site_parts::Station;
use site_views::{managers, members};
use std::alloc::{AllocError, Allocator};
use tags::{Fault, Items};

/// Puts a manager as it opens behind other nodes, where it is on BACnet/IP.
pub(crate) fn put_manager<A: Allocator + Copy>(
    out: &mut Vec<SiteNode<A>, A>,
    alloc: A,
    all: &[Station<A>],
    name: &[u8],
    link: site_parts::Link,
) -> Result<(), Fault>
    requires fit { IsManagerFit all.now link }
    ensures put { OnOk result (out.new.items ≡ out.old.items ++ spec.manager_at all.now name.now link) }
    ensures cause { IfErr result (λ fault. fault ≡ Fault.Memory) }
{
    let site_parts::Link::Ip {
        network,
        subnet,
        address,
    } = link
    else {
        return Ok(());
    };
    let subnet = SubnetId {
        network,
        number: subnet,
    };
    let members = members(alloc, subnet, all)?;
    let managers = managers(alloc, network, all)?;
    let manager = Bbmd::new(alloc, address, members.as_slice(), managers.as_slice())?;
    let part = Part::Manager {
        net: network,
        manager,
    };
    put_part(out, alloc, name, Vec::new(alloc), part)?;
    Ok(())
}

/// Puts a router with ports at these links as it opens behind other nodes.
pub(crate) fn put_router<A: Allocator + Copy>(
    out: &mut Vec<SiteNode<A>, A>,
    alloc: A,
    all: &[Station<A>],
    name: &[u8],
    links: &[site_parts::Link],
) -> Result<(), AllocError>
    requires numbers { HaveNumbers links.now }
    ensures { OnOk result (out.new.items ≡ out.old.items ++ opens all.now name.now (role.Router links.now)) }
{
    let ports = ports_at(alloc, all, links)?;
    let router = router_over(alloc, ports.as_slice())?;
    put_part(out, alloc, name, ports, Part::Router(router))?;
    Ok(())
}

/// Returns a router over these ports, which are on networks with numbers, as it opens.
///
/// # Errors
/// Want of memory.
fn router_over<A: Allocator + Copy>(
    alloc: A,
    ports: &[SitePort<A>],
) -> Result<Router<A>, AllocError>
    requires numbers { AreNumbered (places_of ports.now) }
    ensures { IfOk result (λ router. router ≡ new_router (places_of ports.now)) }
{
    let mut places = Items::new(alloc);
    for port in ports {
        places.push(SitePort::station(port))?;
    }
    let router = Router::new(alloc, places.as_slice())?;
    Ok(router)
}
