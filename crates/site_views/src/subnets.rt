//! Members and managers of BACnet/IP networks, and the MAC addresses of MS/TP networks.

ghost use Rattle.std.specs.Prelude.{◌≡◌, ◌++◌, IfOk, OnOk, option_to_list};
ghost use Rattle.std.specs.List.{flat_map};
ghost use Rattle.site_parts.specs.Roles.{links_in};
ghost use Rattle.site_views.specs.Views as spec;

use crate::foreigns::{address_of, managed_at};
use bvll::Address;
use site::SubnetId;
use site_parts::{Link, Station};
use std::alloc::{AllocError, Allocator};
use tags::Items;

/// The members of a subnet in site order: managers and ports of routers are some of them, foreign devices none (J.4.3).
///
/// # Errors
/// Want of memory.
pub fn members<A: Allocator + Copy>(
    alloc: A,
    subnet: SubnetId,
    stations: &[Station<A>],
) -> Result<Items<Address, A>, AllocError>
    ensures { IfOk result (λ all. all ≡ spec.members subnet stations.now) }
{
    let mut all = Items::new(alloc);
    for station in stations {
        put_members(&mut all, subnet, station.role.links())?;
    }
    Ok(all)
}

fn put_members<A: Allocator>(
    out: &mut Items<Address, A>,
    subnet: SubnetId,
    links: &[Link],
) -> Result<(), AllocError>
    ensures { OnOk result (out.new ≡ out.old ++ flat_map (spec.member_at subnet) links.now) }
{
    for link in links {
        put_member(out, subnet, *link)?;
    }
    Ok(())
}

fn put_member<A: Allocator>(
    out: &mut Items<Address, A>,
    subnet: SubnetId,
    link: Link,
) -> Result<(), AllocError>
    ensures { OnOk result (out.new ≡ out.old ++ spec.member_at subnet link) }
{
    if !is_on(subnet, link) {
        return Ok(());
    }
    put_address(out, link)
}

fn is_on(subnet: SubnetId, link: Link) -> bool
    ensures { result ≡ spec.on_subnet subnet link }
{
    match link {
        Link::Ip {
            network,
            subnet: number,
            ..
        } => network == subnet.network && number == subnet.number,
        Link::Bus { .. } => false,
    }
}

/// Puts the address of a link behind others, where it is on BACnet/IP.
fn put_address<A: Allocator>(out: &mut Items<Address, A>, link: Link) -> Result<(), AllocError>
    ensures { OnOk result (out.new ≡ out.old ++ option_to_list (spec.address_at link)) }
{
    if let Some(address) = address_of(link) {
        out.push(address)?;
    }
    Ok(())
}

/// The managers of a network in site order (J.4.3).
///
/// # Errors
/// Want of memory.
pub fn managers<A: Allocator + Copy>(
    alloc: A,
    network: u16,
    stations: &[Station<A>],
) -> Result<Items<Address, A>, AllocError>
    ensures { IfOk result (λ all. all ≡ spec.managers network stations.now) }
{
    let mut all = Items::new(alloc);
    for station in stations {
        put_manager(&mut all, network, managed_at(&station.role))?;
    }
    Ok(all)
}

fn put_manager<A: Allocator>(
    out: &mut Items<Address, A>,
    network: u16,
    link: Option<Link>,
) -> Result<(), AllocError>
    ensures { OnOk result (out.new ≡ out.old ++ spec.manager_at network link) }
{
    match link {
        Some(link) if link.network() == network => put_address(out, link),
        Some(_) | None => Ok(()),
    }
}

/// The MAC addresses on a network of MS/TP in site order, 0 to 127 (9).
///
/// # Errors
/// Want of memory.
pub fn macs<A: Allocator + Copy>(
    alloc: A,
    network: u16,
    stations: &[Station<A>],
) -> Result<Items<u8, A>, AllocError>
    ensures { IfOk result (λ all. all ≡ spec.macs network stations.now) }
{
    let mut all = Items::new(alloc);
    for station in stations {
        put_macs(&mut all, network, station.role.links())?;
    }
    Ok(all)
}

fn put_macs<A: Allocator>(
    out: &mut Items<u8, A>,
    network: u16,
    links: &[Link],
) -> Result<(), AllocError>
    ensures { OnOk result (out.new ≡ out.old ++ flat_map (spec.mac_at network) links.now) }
{
    for link in links {
        put_mac(out, network, *link)?;
    }
    Ok(())
}

fn put_mac<A: Allocator>(out: &mut Items<u8, A>, network: u16, link: Link) -> Result<(), AllocError>
    ensures { OnOk result (out.new ≡ out.old ++ spec.mac_at network link) }
{
    match link {
        Link::Bus { network: net, mac } if net == network => out.push(mac),
        Link::Bus { .. } | Link::Ip { .. } => Ok(()),
    }
}
