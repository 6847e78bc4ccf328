//! The names and addresses of nodes.

ghost use Rattle.std.specs.Prelude.{◌≡◌, None, Some, IfNone, IfOk, IfSome, map, slice_get};
ghost use Rattle.world_sites.specs.Directory.{Leads, LeadsByAddress, LeadsByName, named_in, place_in};
ghost use Rattle.world_sites.specs.Finding.{IsNamed, IsNobody, IsNobodyAt, IsNodeAt};

use crate::node_places::{first_at, port_at};
use crate::places::{FirstPlaces, first_places};
use node_laws::SiteNode;
use npdu::Station;
use std::alloc::{AllocError, Allocator};
use std::marker::Model;

/// Which name each node of a world has, and at which addresses it is.
#[derive(Drop)]
pub struct Directory<A: Allocator> {
    names: FirstPlaces<Vec<u8, A>, A>,
    addresses: FirstPlaces<Station, A>,
}

impl<A: Allocator> Model for Directory<A> {
    ghost use Rattle.world_sites.specs.Directory.{DirectoryState, directory_of};

    ghost Value = { DirectoryState };

    ghost view = { λ d. directory_of d.names d.addresses };
}

/// A node that a directory has found by its name: its place among the nodes of its world.
#[derive(Clone, Copy, Debug, PartialEq, Eq)]
pub struct NodeId {
    place: usize,
}

impl Model for NodeId {
    ghost use Rattle.std.specs.Prelude.{ℕ};

    ghost Value = { ℕ };

    ghost view = { λ n. n.place };

    ghost inverse = { λ place. record { place = place } };
}

impl NodeId {
    /// Returns its place among the nodes of its world.
    pub fn place(self) -> usize
        ensures { result ≡ self }
    {
        self.place
    }
}

/// A node that has a name: which it is, and the node.
#[derive(Drop)]
pub struct NamedNode<'n, A: Allocator + Copy> {
    pub id: NodeId,
    pub node: &'n SiteNode<A>,
}

/// A node at an address: its place among others, which of its places is there, and the node.
#[derive(Drop)]
pub struct NodeFound<'n, A: Allocator + Copy> {
    pub place: usize,
    pub port: usize,
    pub node: &'n SiteNode<A>,
}

/// Returns the name of each of these nodes, in their order.
///
/// # Errors
/// Want of memory.
fn names_of<A: Allocator + Copy>(
    alloc: A,
    nodes: &[SiteNode<A>],
) -> Result<Vec<Vec<u8, A>, A>, AllocError>
    ensures { IfOk result (λ all. map (λ n. n.items) all.items ≡ map (λ n. n.name) nodes.now) }
{
    let mut all = Vec::new(alloc);
    let mut left = nodes;
    while let [first, rest @ ..] = left {
        all.push(Vec::from_slice(alloc, first.name())?)?;
        left = rest;
    }
    Ok(all)
}

/// Returns the node at a place, if there is one.
pub fn node_in<A: Allocator + Copy>(nodes: &[SiteNode<A>], place: usize) -> Option<&SiteNode<A>>
    ensures there { IfSome result (λ node. slice_get nodes.now place ≡ Some node.now) }
    ensures none { IfNone result (slice_get nodes.now place ≡ None) }
{
    match nodes.get(place) {
        Some(node) => Some(node),
        None => None,
    }
}

impl<A: Allocator + Copy> Directory<A> {
    /// Returns the directory of these nodes, in memory of `alloc`.
    ///
    /// # Errors
    /// Want of memory.
    pub fn new(alloc: A, nodes: &[SiteNode<A>]) -> Result<Self, AllocError>
        ensures { IfOk result (λ directory. Leads directory nodes.now) }
    {
        let names = first_places(alloc, names_of(alloc, nodes)?)?;
        let addresses = first_at(alloc, nodes)?;
        Ok(Directory { names, addresses })
    }

    /// Returns the place of the first node that has this name.
    #[tactic(auto, using(crate::proofs::DirectoryLaws::by_octets))]
    fn named_place(&self, name: &[u8]) -> Option<usize>
        ensures { result ≡ named_in self.now name.now }
    {
        self.names.get(name).copied()
    }

    /// Returns the place of the first node at this address.
    fn place_at(&self, address: Station) -> Option<usize>
        ensures { result ≡ place_in self.now address }
    {
        self.addresses.get(&address).copied()
    }

    /// Returns the node that has a name, if one has.
    pub fn node_named<'n>(&self, nodes: &'n [SiteNode<A>], name: &[u8]) -> Option<NamedNode<'n, A>>
        requires leads { LeadsByName self.now nodes.now }
        ensures there { IfSome result (λ found. IsNamed name.now nodes.now found.id found.node.now) }
        ensures none { IfNone result (IsNobody name.now nodes.now) }
    {
        let Some(place) = self.named_place(name) else {
            return None;
        };
        let Some(node) = node_in(nodes, place) else {
            return None;
        };
        Some(NamedNode {
            id: NodeId { place },
            node,
        })
    }

    /// Returns the node at an address, if one is there (6.1).
    pub fn node_at<'n>(
        &self,
        nodes: &'n [SiteNode<A>],
        address: Station,
    ) -> Option<NodeFound<'n, A>>
        requires leads { LeadsByAddress self.now nodes.now }
        ensures there { IfSome result (λ found.
            IsNodeAt address nodes.now found.place found.port found.node.now) }
        ensures none { IfNone result (IsNobodyAt address nodes.now) }
    {
        let Some(place) = self.place_at(address) else {
            return None;
        };
        let Some(node) = node_in(nodes, place) else {
            return None;
        };
        let Some(port) = port_at(node, address) else {
            return None;
        };
        Some(NodeFound { place, port, node })
    }
}
