//! What a world keeps of all that happened.

ghost use Rattle.std.specs.Prelude.{◌≡◌, ◌≤◌, ◌<◌, ◌+◌, ◌++◌, [], IfOk, OnErr, OnOk, length};
ghost use Rattle.std.specs.Vec.{vec_capacity, vec_len};
ghost use Rattle.carry_ends.specs.carry_world.carry_said.Said.{HasInsides};
ghost use Rattle.node_laws.specs.site_node.Node.{node_places};
ghost use Rattle.world_log.specs.Growing.{frames_at};
ghost use Rattle.world_log.specs.Log.{Forgets, GoesOn, HasRoomToTell, IsReadyFor, Tells, caused, cut_to};
ghost use Rattle.world_log.specs.Log.{handed_out, log_of, put_in};

use crate::keeping::{append_reserved, push_reserved};
use crate::key::Key;
use crate::last_issues::LastIssues;
use crate::putting::put_out;
use crate::saying::{SaidMessage, say};
use crate::telling::{tell_executed, tell_outcomes};
use history::Entry;
use link::PortSent;
use node_laws::{PartTold, SiteNode};
use npdu::Station;
use primitives::{Reply, Request};
use std::alloc::{AllocError, Allocator};
use std::mem;
use tags::Items;
use traffic::{FramePut, RecentItems};

/// An entry of a world's history.
pub type WorldEntry<A> = Entry<Station, Request<A>, Reply<A>>;

/// What a world keeps of all that happened.
#[derive(Drop)]
pub struct WorldLog<A: Allocator> {
    /// What was put out on networks of BACnet/IP, in order: an item has its place as its number.
    pub items: RecentItems<A>,
    /// Who issued, and under which invoke ID, of each issue, in order.
    pub keys: LastIssues<A>,
    /// How many entries were handed out: they stand before the others.
    pub first_entry: usize,
    /// What was issued, executed, answered and ended, in order.
    pub history: Vec<WorldEntry<A>, A>,
    /// How many messages are forgotten: they stand before the others.
    pub first_said: usize,
    /// What is inside each message that was said, in order.
    pub said: Vec<SaidMessage<A>, A>,
}

/// What is written down of an event before its node acts.
#[derive(Drop)]
pub enum Cause<A: Allocator> {
    /// Nothing.
    Nothing,
    /// A client issues: who, under which invoke ID, and the entry of the issue (5.4.4.1).
    Issue(Key, WorldEntry<A>),
    /// A device restarts: the entry of it.
    Restart(WorldEntry<A>),
}

impl<A: Allocator + Copy> WorldLog<A> {
    /// Returns a log in which nothing has happened. It takes no memory yet.
    pub fn new(alloc: A) -> Self
        ensures { log_of result ≡ record {
          first_item = 0;
          items = [];
          keys = [];
          first_entry = 0;
          history = [];
          first_said = 0;
          said = [];
        } }
    {
        WorldLog {
            items: RecentItems::new(alloc),
            keys: LastIssues::new(alloc),
            first_entry: 0,
            history: Vec::new(alloc),
            first_said: 0,
            said: Vec::new(alloc),
        }
    }

    /// Returns how many items were put out, to cut it back to them.
    pub fn mark(&self) -> usize
        ensures count { result ≡ length (log_of self.now).items }
        ensures first { (log_of self.now).first_item ≤ result }
    {
        self.items.len()
    }

    /// Leaves the first so many items.
    pub fn cut(&mut self, items: usize)
        ensures { log_of self.new ≡ cut_to items (log_of self.old) }
    {
        self.items.truncate(items);
    }

    /// Makes room for what an event is, before its node acts.
    ///
    /// # Errors
    /// Want of memory.
    pub fn begin(&mut self, cause: &Cause<A>) -> Result<(), AllocError>
        ensures ready { OnOk result (IsReadyFor cause.now self.new) }
        ensures same { log_of self.new ≡ log_of self.old }
    {
        match cause {
            Cause::Nothing => {}
            Cause::Issue(key, _) => self.keys.prepare(*key)?,
            Cause::Restart(_) => {}
        }
        Ok(())
    }

    /// Appends what a node puts out over its places at the moment `now`, in milliseconds, and takes room for what is
    /// written down, for so many messages that it says, for what it executes and for so many outcomes. Returns the
    /// frames that go out on buses, which aren't kept here.
    ///
    /// # Errors
    /// Want of memory. Some items may then be appended.
    #[tactic(auto, using(crate::proofs::LogLaws::log_rules))]
    pub fn grow(
        &mut self,
        alloc: A,
        node: &SiteNode<A>,
        out: Items<PortSent<A>, A>,
        messages: usize,
        outcomes: usize,
        now: u64,
    ) -> Result<Vec<FramePut<A>, A>, AllocError>
        ensures grown { OnOk result (log_of self.new ≡ put_in now (node_places node.now) out (log_of self.old)) }
        ensures frames { IfOk result (λ frames. frames.items ≡ frames_at (node_places node.now) out) }
        ensures room { OnOk result (HasRoomToTell self.new messages outcomes) }
        ensures keys { self.new.keys ≡ self.old.keys }
        ensures on { GoesOn (log_of self.old) (log_of self.new) }
    {
        let frames = put_out(alloc, &mut self.items, node, out, now)?;
        self.said.reserve(messages)?;
        self.history.reserve(outcomes.saturating_add(2))?;
        Ok(frames)
    }

    /// Writes down what an event is, where there is room.
    fn write(&mut self, cause: Cause<A>)
        requires ready { IsReadyFor cause self.old }
        requires room { vec_len self.old.history < vec_capacity self.old.history }
        ensures written { log_of self.new ≡ caused cause (log_of self.old) }
        ensures said { self.new.said ≡ self.old.said }
        ensures len { vec_len self.new.history ≤ vec_len self.old.history + 1 }
        ensures room { vec_capacity self.old.history ≤ vec_capacity self.new.history }
    {
        match cause {
            Cause::Nothing => {}
            Cause::Issue(key, entry) => {
                self.keys.push(key);
                push_reserved(&mut self.history, entry);
            }
            Cause::Restart(entry) => push_reserved(&mut self.history, entry),
        }
    }

    /// Writes down what an event is, and appends what the node at this station said, with what is inside each message,
    /// what it executed, and what came of its requests, at the moment `now`, in milliseconds. It takes no memory, and
    /// copies nothing.
    pub fn tell(&mut self, cause: Cause<A>, station: Station, told: PartTold<A>, now: u64)
        requires ready { IsReadyFor cause self.old }
        requires room { HasRoomToTell self.old (length told.said) (length told.outcomes) }
        requires insides { HasInsides station.net told.said }
        ensures { Tells station now told (caused cause (log_of self.old)) (log_of self.new) }
    {
        self.write(cause);
        tell_executed(&mut self.history, &self.keys, told.executed, now);
        tell_outcomes(&mut self.history, &self.keys, station, told.outcomes, now);
        say(&mut self.said, station.net, told.said);
    }

    /// Hands out all entries that it has, behind others.
    ///
    /// # Errors
    /// Want of memory, or of numbers. All is then as it was.
    pub fn hand_out(&mut self, told: &mut Vec<WorldEntry<A>, A>) -> Result<(), AllocError>
        ensures told { OnOk result (told.new.items ≡ told.old.items ++ self.old.history.items) }
        ensures handed { OnOk result (log_of self.new ≡ handed_out (log_of self.old)) }
        ensures items { self.new.items ≡ self.old.items }
        ensures nothing { OnErr result (told.new.items ≡ told.old.items) }
        ensures unchanged { OnErr result (log_of self.new ≡ log_of self.old) }
    {
        let Some(first) = self.first_entry.checked_add(self.history.len()) else {
            return Err(AllocError);
        };
        told.reserve(self.history.len())?;
        let alloc = *self.history.allocator();
        append_reserved(told, mem::replace(&mut self.history, Vec::new(alloc)));
        self.first_entry = first;
        Ok(())
    }

    /// Forgets items that are too old to be heard at the moment `now`, in milliseconds, but for the last so many, the
    /// issues that later ones replaced, and what was said.
    #[tactic(auto, using(crate::proofs::LogLaws::forgetting_rules))]
    pub fn forget(&mut self, latest: usize, now: u64)
        ensures { Forgets now (log_of self.old) (log_of self.new) }
    {
        self.items.forget(latest, now);
        self.keys.forget();
        if let Some(first) = self.first_said.checked_add(self.said.len()) {
            self.first_said = first;
            self.said.clear();
        }
    }
}
