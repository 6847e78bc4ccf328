//! What is left of a frame that has begun.

use mstp_frame::Deframer;
use std::alloc::{AllocError, Allocator};
use std::marker::Model;

/// What a deframer keeps of a frame that has begun (9.5.4), in memory of its own: it is moved cheaply. Mostly none has,
/// which takes no memory.
#[derive(Drop)]
pub struct CutFrame<A: Allocator> {
    held: Option<Box<Deframer, A>>,
}

impl<A: Allocator> Model for CutFrame<A> {
    ghost use Rattle.std.specs.Prelude.{ℕ, List, option_map};
    ghost use Rattle.bus_traffic.specs.Ears.{if_begun};

    ghost Value = { List ℕ };

    ghost view = { λ c. if_begun (option_map (λ d. d.value) c.held) };
}

impl<A: Allocator> CutFrame<A> {
    ghost use Rattle.std.specs.Prelude.{◌≡◌, IfOk};

    /// What a deframer keeps.
    ///
    /// # Errors
    /// Want of memory.
    pub(crate) fn of(alloc: A, deframer: &Deframer) -> Result<Self, AllocError>
        ensures { IfOk result (λ cut. cut ≡ deframer.now) }
    {
        if deframer.kept().is_empty() {
            return Ok(CutFrame { held: None });
        }
        Ok(CutFrame {
            held: Some(Box::new(alloc, deframer.copy())?),
        })
    }

    /// A deframer keeps just this.
    pub(crate) fn put_in(&self, deframer: &mut Deframer)
        ensures { deframer.new ≡ self.now }
    {
        match &self.held {
            Some(cut) => *deframer = cut.copy(),
            None => deframer.silence(),
        }
    }
}
