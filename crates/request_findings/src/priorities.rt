//! The priorities at which a property is commanded (19.2).

/// Which priorities, 1 to 16, hold a value; 1 is the highest.
#[derive(Clone, Copy)]
pub(crate) struct Priorities {
    held: [bool; 16],
}

impl Priorities {
    /// None holds a value.
    pub(crate) fn none() -> Priorities {
        Priorities { held: [false; 16] }
    }

    /// This one holds a value, too.
    pub(crate) fn with(self, priority: u8) -> Priorities {
        self.set(priority, true)
    }

    /// This one holds none any longer.
    pub(crate) fn without(self, priority: u8) -> Priorities {
        self.set(priority, false)
    }

    fn set(self, priority: u8, holds: bool) -> Priorities {
        let mut held = self.held;
        if let Some(place) = held.get_mut(usize::from(priority).wrapping_sub(1)) {
            *place = holds;
        }
        Priorities { held }
    }

    /// Whether one that is higher holds a value: then that is what is read.
    pub(crate) fn is_any_above(&self, priority: u8) -> bool {
        match self.held.get(..usize::from(priority).saturating_sub(1)) {
            Some(above) => above.iter().any(|holds| *holds),
            None => true,
        }
    }
}
