//! The slots of a commandable property (19.2).

ghost use Rattle.std.specs.Prelude.{◌≡◌, ◌≤◌, ◌∷◌, [], List, Option, length, option_copied};
ghost use Rattle.priority.specs.Slots.{no_slots, slot, put_slot, first_filled};

use std::marker::Model;
use std::mem;

/// The sixteen slots of a commandable property (19.2), level 1 being the highest priority and
/// level 16 the lowest. A slot holds the value that was last commanded at its level, or is empty.
///
/// They are fields and no array: whoever held slots of a type of its own parameters would else
/// have to ask that an array of that type is not too large.
#[derive(Drop)]
pub struct Slots<T> {
    level_1: Option<T>,
    level_2: Option<T>,
    level_3: Option<T>,
    level_4: Option<T>,
    level_5: Option<T>,
    level_6: Option<T>,
    level_7: Option<T>,
    level_8: Option<T>,
    level_9: Option<T>,
    level_10: Option<T>,
    level_11: Option<T>,
    level_12: Option<T>,
    level_13: Option<T>,
    level_14: Option<T>,
    level_15: Option<T>,
    level_16: Option<T>,
}

impl<T> Model for Slots<T> {
    ghost Value = { List (Option T) };

    ghost view = { λ s. s.level_1 ∷ s.level_2 ∷ s.level_3 ∷ s.level_4 ∷ s.level_5 ∷ s.level_6 ∷ s.level_7 ∷ s.level_8 ∷
        s.level_9 ∷ s.level_10 ∷ s.level_11 ∷ s.level_12 ∷ s.level_13 ∷ s.level_14 ∷ s.level_15 ∷ s.level_16 ∷ [] };
}

impl<T: Drop> Slots<T> {
    /// Sixteen empty slots.
    pub fn new() -> Self
        ensures { result ≡ no_slots }
    {
        Slots {
            level_1: None,
            level_2: None,
            level_3: None,
            level_4: None,
            level_5: None,
            level_6: None,
            level_7: None,
            level_8: None,
            level_9: None,
            level_10: None,
            level_11: None,
            level_12: None,
            level_13: None,
            level_14: None,
            level_15: None,
            level_16: None,
        }
    }

    /// Puts a value into the slot of a level from 1 to 16, or empties it. Answers what stood
    /// there.
    pub fn put(&mut self, level: u8, value: Option<T>) -> Option<T>
        requires { (1 ≤ level) × (level ≤ 16) }
        ensures slots { self.new ≡ put_slot self.old level value }
        ensures old { result ≡ slot self.old level }
        ensures sixteen { length self.new ≡ 16 }
    {
        match level {
            1 => mem::replace(&mut self.level_1, value),
            2 => mem::replace(&mut self.level_2, value),
            3 => mem::replace(&mut self.level_3, value),
            4 => mem::replace(&mut self.level_4, value),
            5 => mem::replace(&mut self.level_5, value),
            6 => mem::replace(&mut self.level_6, value),
            7 => mem::replace(&mut self.level_7, value),
            8 => mem::replace(&mut self.level_8, value),
            9 => mem::replace(&mut self.level_9, value),
            10 => mem::replace(&mut self.level_10, value),
            11 => mem::replace(&mut self.level_11, value),
            12 => mem::replace(&mut self.level_12, value),
            13 => mem::replace(&mut self.level_13, value),
            14 => mem::replace(&mut self.level_14, value),
            15 => mem::replace(&mut self.level_15, value),
            _ => mem::replace(&mut self.level_16, value),
        }
    }

    /// The number of slots, which is always sixteen.
    pub fn len(&self) -> usize
        ensures count { result ≡ 16 }
        ensures sixteen { length self.now ≡ 16 }
    {
        let _first = &self.level_1;
        16
    }

    /// The value of the highest priority: that of the filled slot of the least number. `None`
    /// where all slots are empty.
    pub fn current(&self) -> Option<&T>
        ensures filled { option_copied result ≡ first_filled self.now }
        ensures sixteen { length self.now ≡ 16 }
    {
        let last = self.len() as u8;
        for level in 1..=last {
            if let Some(value) = self.at(level) {
                return Some(value);
            }
        }
        None
    }

    /// What stands in the slot of a level from 1 to 16.
    pub fn at(&self, index: u8) -> Option<&T>
        requires { (1 ≤ index) × (index ≤ 16) }
        ensures held { option_copied result ≡ slot self.now index }
        ensures sixteen { length self.now ≡ 16 }
    {
        match index {
            1 => self.level_1.as_ref(),
            2 => self.level_2.as_ref(),
            3 => self.level_3.as_ref(),
            4 => self.level_4.as_ref(),
            5 => self.level_5.as_ref(),
            6 => self.level_6.as_ref(),
            7 => self.level_7.as_ref(),
            8 => self.level_8.as_ref(),
            9 => self.level_9.as_ref(),
            10 => self.level_10.as_ref(),
            11 => self.level_11.as_ref(),
            12 => self.level_12.as_ref(),
            13 => self.level_13.as_ref(),
            14 => self.level_14.as_ref(),
            15 => self.level_15.as_ref(),
            _ => self.level_16.as_ref(),
        }
    }
}
