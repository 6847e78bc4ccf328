//! The entries of a manager's two tables, as it tells them.

ghost use Rattle.std.specs.Prelude.{◌≡◌, ◌≤◌, ◌+◌, length, map, IfOk};
ghost use Rattle.profile.specs.Limits as limit;
ghost use Rattle.bbmd_tables.specs.Tables.{lives, living, told, two_hops};

use crate::registration::Registration;
use crate::tables::ManagerTables;
use bvll::{Address, DistributionEntry, ForeignDevice};
use std::alloc::{AllocError, Allocator};

/// The entry of a manager, whose mask asks for two hops (J.2.2, J.4.3).
fn two_hops(address: Address) -> DistributionEntry
    ensures { result ≡ two_hops address }
{
    DistributionEntry {
        address,
        mask: [0xFF; 4],
    }
}

/// The entries of these managers, in order.
fn distribution_entries<A: Allocator>(
    alloc: A,
    managers: &[Address],
) -> Result<Vec<DistributionEntry, A>, AllocError>
    ensures entries { IfOk result (λ all. all.items ≡ map two_hops managers.now) }
    ensures count { IfOk result (λ all. length all.items ≤ length managers.now) }
{
    let mut all = Vec::new(alloc);
    for address in managers {
        all.push(two_hops(*address))?;
    }
    Ok(all)
}

/// Whether a manager tells of this registration: while it lives (J.2.8).
fn is_told(registration: Registration, now: u64) -> bool
    ensures { result ≡ lives now registration }
{
    registration.lives(now)
}

/// The entries of the foreign devices that are served, in order.
fn foreign_entries<A: Allocator>(
    alloc: A,
    registrations: &[Registration],
    now: u64,
) -> Result<Vec<ForeignDevice, A>, AllocError>
    ensures entries { IfOk result (λ all. all.items ≡ map (told now) (living now registrations.now)) }
    ensures count { IfOk result (λ all. length all.items ≤ length registrations.now) }
{
    let mut all = Vec::new(alloc);
    for registration in registrations {
        if is_told(*registration, now) {
            all.push(registration.told(now))?;
        }
    }
    Ok(all)
}

impl<A: Allocator + Copy> ManagerTables<A> {
    /// The entries of the broadcast distribution table, in order (J.2.4).
    ///
    /// # Errors
    /// Want of memory.
    pub fn distribution_entries(&self) -> Result<Vec<DistributionEntry, A>, AllocError>
        ensures entries { IfOk result (λ all. all.items ≡ map two_hops self.now.managers) }
        ensures count { IfOk result (λ all. length all.items ≤ limit.MAX_PEERS + 1) }
    {
        distribution_entries(self.alloc(), self.managers.as_slice())
    }

    /// The entries of the foreign device table at the moment `now`, in milliseconds, in order (J.2.8).
    ///
    /// # Errors
    /// Want of memory.
    pub fn foreign_entries(&self, now: u64) -> Result<Vec<ForeignDevice, A>, AllocError>
        ensures entries { IfOk result (λ all. all.items ≡ map (told now) (living now self.now.foreign)) }
        ensures count { IfOk result (λ all. length all.items ≤ limit.MAX_FOREIGN_DEVICES) }
    {
        foreign_entries(self.alloc(), self.foreign.as_slice(), now)
    }
}
