//! With which of its ports a node hears on a bus.

ghost use Rattle.std.specs.Prelude.{◌≡◌, IfNone, IfSome};
ghost use Rattle.node_laws.specs.site_node.Node.{node_places};
ghost use Rattle.world_sites.specs.Finding.{passes, place_of};
ghost use Rattle.world_sites.specs.Listening as spec;
ghost use Rattle.world_sites.specs.Listening.{HearsWith, HearsWithNone};

use node_laws::SiteNode;
use npdu::{Mac, Station};
use std::alloc::Allocator;

fn is_on(place: Option<Station>, network: u16) -> bool
    ensures { result ≡ passes (λ x. spec.is_on network x) place }
{
    match place {
        Some(place) => place.net == network,
        None => false,
    }
}

/// Returns the first of a node's places on the network of a number.
fn first_on<A: Allocator + Copy>(node: &SiteNode<A>, network: u16) -> Option<usize>
    ensures { result ≡ place_of (λ x. spec.is_on network x) (node_places node.now) }
{
    for port in 0..node.place_count() {
        if is_on(node.place(port), network) {
            return Some(port);
        }
    }
    None
}

/// The port with which a node hears on a bus.
#[derive(Clone, Copy, Debug, PartialEq, Eq)]
pub struct EarPort {
    /// Its number among the ports of the node.
    pub port: usize,
    /// Its address on the bus, 0 to 127 (9.5.2).
    pub mac: u8,
}

/// Returns with which of its ports a node hears on the bus of a number, and at which address there; a manager is on no
/// bus (9.5.2, J.4).
#[tactic(auto, using(crate::proofs::ListeningLaws::ear_rules))]
pub fn ear_port<A: Allocator + Copy>(node: &SiteNode<A>, network: u16) -> Option<EarPort>
    ensures with { IfSome result (λ ear. HearsWith network (node_places node.now) ear.port ear.mac) }
    ensures none { IfNone result (HearsWithNone network (node_places node.now)) }
{
    let Some(port) = first_on(node, network) else {
        return None;
    };
    let Some(place) = node.place(port) else {
        return None;
    };
    match place.mac {
        Mac::One(mac) => Some(EarPort { port, mac }),
        Mac::Six(_) => None,
    }
}
