//! The findings of a capture: how many of each name, and those that are kept.

use crate::finding::Finding;
use crate::name::{NAME_COUNT, NAMES, Name};
use std::alloc::{AllocError, Allocator};
use std::marker::Model;

/// The findings of a capture. A contract sees how many packets were read, and the findings that are kept: each packet
/// that they name was read.
#[derive(Drop)]
pub struct Findings<A: Allocator> {
    read: u64,
    kept: Vec<Finding, A>,
    /// How many findings of a name are kept.
    most: u64,
    counts: [u64; NAME_COUNT],
}

impl<A: Allocator> Model for Findings<A> {
    ghost use Rattle.std.specs.Prelude.{ℕ, List};
    ghost use Rattle.findings.specs.Packets.{AreIn};
    ghost use Rattle.findings.specs.declared.finding.Finding.{Finding};

    ghost Value = { ℕ × List Finding };

    ghost view = { λ f. (f.read, f.kept.items) };

    ghost invariant = { λ f. AreIn f.read f.kept.items };
}

impl<A: Allocator> Findings<A> {
    ghost use Rattle.std.specs.Prelude.{◌≡◌, ◌≤◌, ◌++◌, ◌∷◌, [], IfOk, OnErr, ◌⊎◌};
    ghost use Rattle.findings.specs.Packets.{AreIn, AreWithin};

    /// None yet, of which so many of a name are kept.
    pub fn new(alloc: A, most: u64) -> Findings<A>
        ensures { result ≡ (0, []) }
    {
        Findings {
            read: 0,
            kept: Vec::new(alloc),
            most,
            counts: [0; NAME_COUNT],
        }
    }

    /// Another packet is read.
    #[tactic(auto, using(crate::proofs::PacketLaws::are_in_more))]
    pub fn count_packet(&mut self)
        ensures more { self.old.0 ≤ self.new.0 }
        ensures kept { self.new.1 ≡ self.old.1 }
    {
        self.read = self.read.saturating_add(1);
    }

    /// How many packets were read.
    pub fn packets_read(&self) -> u64
        ensures { result ≡ self.now.0 }
    {
        self.read
    }

    /// Counts a finding, and keeps it unless enough of its name were found. One that names a packet that wasn't read is
    /// none.
    ///
    /// # Errors
    /// Want of memory.
    #[tactic(auto, using(crate::proofs::PacketLaws::are_in_rules))]
    pub fn tell(&mut self, finding: Finding) -> Result<(), AllocError>
        ensures read { self.new.0 ≡ self.old.0 }
        ensures kept { (self.new.1 ≡ self.old.1) ⊎ (self.new.1 ≡ self.old.1 ++ finding ∷ []) }
    {
        if !finding.packets.are_within(self.read) {
            return Ok(());
        }
        let name = finding.kind.name();
        let count = self.counts[name as usize].saturating_add(1);
        if count <= self.most {
            self.kept.push(finding)?;
        }
        self.counts[name as usize] = count;
        Ok(())
    }

    /// The findings that are kept, as they came about.
    pub fn kept(&self) -> &[Finding]
        ensures kept { result.now ≡ self.now.1 }
        ensures read { AreIn self.now.0 result.now }
    {
        self.kept.as_slice()
    }

    /// Keeps none of those that were found so far.
    pub fn forget_kept(&mut self)
        ensures { self.new ≡ (self.old.0, []) }
    {
        self.kept.clear();
    }

    /// How many findings of this name there are.
    pub fn count(&self, name: Name) -> u64 {
        self.counts[name as usize]
    }

    /// How many of a name are kept.
    pub fn most(&self) -> u64 {
        self.most
    }

    /// Whether there is a finding that is more than information.
    pub fn is_alarming(&self) -> bool {
        for name in NAMES {
            if !name.is_information() && self.counts[name as usize] != 0 {
                return true;
            }
        }
        false
    }
}
