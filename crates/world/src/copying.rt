//! Copies of an internetwork.

ghost use Rattle.std.specs.Prelude.{◌≡◌, IfErr, IfOk};

use crate::internetwork::Internetwork;
use due_times::DueTimes;
use primitives::copy_all;
use site_parts::Parts;
use std::alloc::{AllocError, Allocator};
use tags::{Fault, Items};
use world_log::{Draft, SiteNode};
use world_sites::{Directory, Site};

/// Returns an equal site, in memory of `alloc`: its parts are judged once more.
///
/// # Errors
/// `Memory` alone.
#[tactic(auto, using(crate::proofs::CopyLaws::copy_rules))]
fn site_of<A: Allocator + Copy>(alloc: A, site: &Site<A>) -> Result<Site<A>, Fault>
    ensures copy { IfOk result (λ copy. copy ≡ site.now) }
    ensures cause { IfErr result (λ fault. fault ≡ Fault.Memory) }
{
    let networks = Items::from_slice(alloc, site.networks())?;
    let stations = copy_all(alloc, site.stations())?;
    Site::new(alloc, Parts { networks, stations })
}

/// Returns equal nodes.
fn nodes_in<A: Allocator + Copy>(
    alloc: A,
    nodes: &[SiteNode<A>],
) -> Result<Vec<SiteNode<A>, A>, AllocError>
    ensures { IfOk result (λ copies. copies.items ≡ nodes.now) }
{
    let mut copies = Vec::with_capacity(alloc, nodes.len())?;
    for node in nodes {
        copies.push(node.copy()?)?;
    }
    Ok(copies)
}

impl<A: Allocator + Copy> Internetwork<A> {
    /// Returns an equal internetwork, in the same memory.
    ///
    /// # Errors
    /// `Memory` alone.
    pub fn copy(&self) -> Result<Self, Fault>
        ensures copy { IfOk result (λ copy. copy ≡ self.now) }
        ensures cause { IfErr result (λ fault. fault ≡ Fault.Memory) }
    {
        let site = site_of(self.alloc, &self.site)?;
        let nodes = nodes_in(self.alloc, self.nodes.as_slice())?;
        let dues = DueTimes::new(self.alloc, nodes.len())?;
        let directory = Directory::new(self.alloc, nodes.as_slice())?;
        let buses = self.buses.copy(self.alloc)?;
        let log = self.log.copy(self.alloc)?;
        Ok(Internetwork {
            alloc: self.alloc,
            site,
            moment: self.moment,
            nodes,
            dues,
            directory,
            buses,
            log,
            draft: Draft::new(self.alloc),
        })
    }
}
