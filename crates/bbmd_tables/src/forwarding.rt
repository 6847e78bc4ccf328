//! Whom a manager forwards a broadcast to (J.4.5).

ghost use Rattle.std.specs.Prelude.{◌≡◌, ◌++◌, true, IfOk, OnErr, option_map};
ghost use Rattle.bbmd_tables.specs.Tables.{all_but, is_among, listed, members_of, others, peers_of, served};

use crate::addresses::{append_other_devices, append_others, is_among, is_another};
use crate::registration::served;
use crate::tables::ManagerTables;
use bvll::Address;
use std::alloc::{AllocError, Allocator};

impl<A: Allocator + Copy> ManagerTables<A> {
    /// These without the manager itself.
    fn without_itself(&self, all: &[Address]) -> Result<Vec<Address, A>, AllocError>
        ensures { IfOk result (λ rest. rest.items ≡ others self.now.own all.now) }
    {
        let mut rest = Vec::new(self.alloc());
        append_others(&mut rest, self.own, all)?;
        Ok(rest)
    }

    /// The foreign devices that are served.
    fn served(&self, now: u64) -> Result<Vec<Address, A>, AllocError>
        ensures { IfOk result (λ devices. devices.items ≡ served now self.now.foreign) }
    {
        served(self.alloc(), self.foreign.as_slice(), now)
    }

    /// These without the manager itself, then the foreign devices that are served.
    fn with_served(&self, all: &[Address], now: u64) -> Result<Vec<Address, A>, AllocError>
        ensures { IfOk result (λ to. to.items ≡ others self.now.own all.now ++ served now self.now.foreign) }
    {
        let mut to = self.without_itself(all)?;
        to.extend_from_slice(self.served(now)?.as_slice())?;
        Ok(to)
    }

    /// To whom a broadcast goes that comes from one side of the manager, where it does: to those beyond, and to the
    /// foreign devices that are served. It takes no memory where it doesn't.
    fn across(
        &self,
        from: Address,
        side: &[Address],
        beyond: &[Address],
        now: u64,
    ) -> Result<Option<Vec<Address, A>>, AllocError>
        ensures to { IfOk result (λ to. option_map (λ v. v.items) to ≡
            listed (is_among from (others self.now.own side.now))
            (others self.now.own beyond.now ++ served now self.now.foreign)) }
        ensures side { OnErr result (is_among from (others self.now.own side.now) ≡ true) }
    {
        if !is_another(from, self.own, side) {
            return Ok(None);
        }
        Ok(Some(self.with_served(beyond, now)?))
    }

    /// To whom the broadcast of a member goes at the moment `now`, in milliseconds, where it is one: to the other
    /// managers and the foreign devices that are served (J.4.5).
    ///
    /// # Errors
    /// Want of memory, for the broadcast of a member alone.
    pub fn broadcast_to(
        &self,
        from: Address,
        now: u64,
    ) -> Result<Option<Vec<Address, A>>, AllocError>
        ensures to { IfOk result (λ to. option_map (λ v. v.items) to ≡
            listed (is_among from (members_of self.now)) (peers_of self.now ++ served now self.now.foreign)) }
        ensures member { OnErr result (is_among from (members_of self.now) ≡ true) }
    {
        self.across(from, self.members.as_slice(), self.managers.as_slice(), now)
    }

    /// To whom a broadcast goes that comes from another manager, where it does, at the moment `now`, in milliseconds:
    /// to the members and the foreign devices that are served, whom no other manager says it to (J.4.5).
    ///
    /// # Errors
    /// Want of memory, for one from another manager alone.
    pub fn forwarded_to(
        &self,
        from: Address,
        now: u64,
    ) -> Result<Option<Vec<Address, A>>, AllocError>
        ensures to { IfOk result (λ to. option_map (λ v. v.items) to ≡
            listed (is_among from (peers_of self.now)) (members_of self.now ++ served now self.now.foreign)) }
        ensures peer { OnErr result (is_among from (peers_of self.now) ≡ true) }
    {
        self.across(from, self.managers.as_slice(), self.members.as_slice(), now)
    }

    /// The members, then the other managers.
    fn with_managers(&self) -> Result<Vec<Address, A>, AllocError>
        ensures { IfOk result (λ to. to.items ≡ members_of self.now ++ peers_of self.now) }
    {
        let mut to = self.without_itself(self.members.as_slice())?;
        to.extend_from_slice(self.without_itself(self.managers.as_slice())?.as_slice())?;
        Ok(to)
    }

    /// The members, the other managers, and the foreign devices that are served but the one that asks.
    fn all_but(&self, from: Address, served: &[Address]) -> Result<Vec<Address, A>, AllocError>
        ensures { IfOk result (λ to. to.items ≡
            members_of self.now ++ (peers_of self.now ++ others from served.now)) }
    {
        let mut to = self.with_managers()?;
        append_other_devices(&mut to, from, served)?;
        Ok(to)
    }

    /// To whom a broadcast goes that a foreign device asks for, where it is served at the moment `now`, in
    /// milliseconds: to the members, the other managers and the other foreign devices (J.2.10, J.4.5).
    ///
    /// # Errors
    /// Want of memory.
    pub fn distributed_to(
        &self,
        from: Address,
        now: u64,
    ) -> Result<Option<Vec<Address, A>>, AllocError>
        ensures { IfOk result (λ to. option_map (λ v. v.items) to ≡
            listed (is_among from (served now self.now.foreign)) (all_but now from self.now)) }
    {
        let served = self.served(now)?;
        if !is_among(from, served.as_slice()) {
            return Ok(None);
        }
        let to = self.all_but(from, served.as_slice())?;
        Ok(Some(to))
    }
}
