//! The commands that a value object holds (clause 19.2).

ghost use Rattle.std.specs.Prelude.{◌≡◌, ◌≤◌, ◌<◌, ◌&&◌, nat_lt, if◌then◌else◌, List, Option, IfOk, length};
ghost use Rattle.std.specs.Prelude.{option_copied};
ghost use Rattle.priority.specs.Slots.{no_slots, slot, first_filled, put_slot};
ghost use Rattle.object_model.specs.Levels.{put_level};

use primitives::tags::Value;
use priority::Slots;
use std::alloc::{AllocError, Allocator};
use std::marker::Model;

/// The sixteen slots of a value object. They lie in memory of their own, so that an object is
/// small. A contract sees the list of the slots.
#[derive(Drop)]
pub struct Commands<A: Allocator> {
    slots: Box<Slots<Value<A>>, A>,
}

impl<A: Allocator> Model for Commands<A> {
    ghost use Rattle.object_model.specs.Levels.{SlotList};

    ghost Value = { SlotList A };

    ghost view = { λ s. s.slots.value };
}

impl<A: Allocator + Copy> Commands<A> {
    /// Sixteen empty slots.
    ///
    /// # Errors
    /// Want of memory.
    pub fn new(alloc: A) -> Result<Self, AllocError>
        ensures { IfOk result (λ slots. slots ≡ no_slots) }
    {
        Ok(Commands {
            slots: Box::new(alloc, Slots::new())?,
        })
    }
}

impl<A: Allocator> Commands<A> {
    /// The value of the highest priority (19.2), `None` where all slots are empty.
    pub fn current(&self) -> Option<&Value<A>>
        ensures filled { option_copied result ≡ first_filled self.now }
    {
        self.slots.current()
    }

    /// The number of slots, 16.
    pub fn len(&self) -> usize
        ensures count { result ≡ 16 }
        ensures sixteen { length self.now ≡ 16 }
    {
        self.slots.len()
    }

    /// What stands in the slot of a level from 1 to 16.
    pub fn at(&self, level: u8) -> Option<&Value<A>>
        requires { (1 ≤ level) × (level ≤ 16) }
        ensures held { option_copied result ≡ slot self.now level }
        ensures sixteen { length self.now ≡ 16 }
    {
        self.slots.at(level)
    }

    /// Puts a value into the slot of a level, or empties it. A level other than 1 to 16 has no
    /// slot.
    pub fn put(&mut self, level: u8, value: Option<Value<A>>)
        ensures { self.new ≡ put_level self.old level value }
    {
        if 0 < level && level < 17 {
            let _old = self.slots.put(level, value);
        }
    }
}
