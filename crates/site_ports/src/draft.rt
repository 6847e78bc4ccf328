//! What an event changes of ports, until it is done.

ghost use Rattle.std.specs.Prelude.{◌≡◌, ◌<◌, [], OnOk, length};
ghost use Rattle.link_site.specs.Port.{changed};
ghost use Rattle.site_ports.specs.Drafts.{SameLeft, left_of};

use link::{Change, Link, PortSent};
use link_site::SitePort;
use std::alloc::{AllocError, Allocator};
use std::mem;
use tags::Items;

/// What an event would change of a node's ports, and what it puts out over them. One draft serves event after event,
/// and keeps its memory.
#[derive(Drop)]
pub struct Draft<A: Allocator> {
    pub(crate) changes: Vec<Change<SitePort<A>>, A>,
    /// What is put out, in order.
    pub out: Items<PortSent<A>, A>,
}

impl<A: Allocator + Copy> Draft<A> {
    /// Returns an empty draft, in memory of `alloc`. It takes none yet.
    pub fn new(alloc: A) -> Self
        ensures changes { result.changes.items ≡ [] }
        ensures out { result.out ≡ [] }
    {
        Draft {
            changes: Vec::new(alloc),
            out: Items::new(alloc),
        }
    }

    /// Begins anew, for another event.
    pub fn clear(&mut self)
        ensures changes { self.new.changes.items ≡ [] }
        ensures out { self.new.out ≡ [] }
    {
        self.changes.clear();
        let alloc = *self.changes.allocator();
        let mut out = mem::replace(&mut self.out, Items::new(alloc)).into_vec();
        out.clear();
        self.out = Items::from_vec(out);
    }

    /// Makes a place for what changes of the port of this number.
    ///
    /// # Errors
    /// Want of memory.
    pub(crate) fn reach(&mut self, port: usize) -> Result<(), AllocError>
        ensures same { SameLeft self.old.changes.items self.new.changes.items }
        ensures out { self.new.out ≡ self.old.out }
        ensures there { OnOk result (port < length self.new.changes.items) }
    {
        while self.changes.len() <= port {
            self.changes.push(Change::Nothing)?;
        }
        Ok(())
    }
}

/// Makes what an event at the moment `now`, in milliseconds, changes of a port: nothing of it is left.
fn settle_one<A: Allocator + Copy>(
    port: &mut SitePort<A>,
    change: &mut Change<SitePort<A>>,
    now: u64,
)
    ensures { port.new ≡ changed now port.old change.old }
{
    port.settle(mem::replace(change, Change::Nothing), now);
}

/// Makes what an event at the moment `now`, in milliseconds, changes of its ports: nothing of it is left in the draft.
/// It takes no memory.
pub fn settle<A: Allocator + Copy>(ports: &mut Vec<SitePort<A>, A>, draft: &mut Draft<A>, now: u64)
    ensures left { ports.new.items ≡ left_of now ports.old.items draft.old.changes.items }
    ensures out { draft.new.out ≡ draft.old.out }
{
    let mut port = 0;
    while port < ports.len() && port < draft.changes.len() {
        settle_one(&mut ports[port], &mut draft.changes[port], now);
        port += 1;
    }
}
