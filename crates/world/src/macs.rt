//! That the nodes of a site are at link addresses, for the proofs of the layers above.

ghost use Rattle.std.specs.List.{AllByRecursion};
ghost use Rattle.world_log.specs.node_laws.Out.{IsMac};
ghost use Rattle.npdu.specs.declared.mac.Mac.TheVariants as mac;
ghost use Rattle.world_log.specs.site_node.Node.{node_places};
ghost use Rattle.world.specs.Laws.{HasMacs, IsMacIfAny};

use bvll::Address;
use npdu::{Mac, Station};
use std::alloc::Allocator;
use world_log::SiteNode;

/// Six octets are an address of BACnet/IP (J.1.2).
#[tactic(auto, using(crate::proofs::MacLaws::octet_rules))]
fn is_six(octets: &[u8; 6])
    ensures { IsMac (mac.Six octets.now) }
{
    let _ = Address::from_octets(octets.as_slice()).to_octets();
}

/// A link address is one of its kind.
fn is_mac(place: Option<Station>)
    ensures { IsMacIfAny place }
{
    if let Some(place) = place {
        if let Mac::Six(octets) = place.mac {
            is_six(&octets);
        }
    }
}

/// All places of a node are at link addresses.
fn is_at_macs<A: Allocator + Copy>(node: &SiteNode<A>)
    ensures { HasMacs node.now }
{
    for port in 0..node.place_count() {
        is_mac(node.place(port));
    }
}

/// All places of these nodes are: looked at once, where a world opens.
pub(crate) fn are_at_macs<A: Allocator + Copy>(nodes: &[SiteNode<A>])
    ensures { AllByRecursion HasMacs nodes.now }
{
    for node in nodes {
        is_at_macs(node);
    }
}
