//! Who asked, and what is remembered of the answer.

ghost use Rattle.std.specs.Prelude.{◌≡◌, IfOk, Option};
ghost use Rattle.std.specs.Ordering.{is_eq};
ghost use Rattle.remembered.specs.Records.{asker_cmp};

use answers::apdu::{AbortReason, ConfirmedService};
use npdu::{Station, Way};
use segments::Sender;
use std::alloc::{AllocError, Allocator};
use tags::Octets;

/// Who asked: a station, and the invoke ID of its request, 0..=255 (20.1.2.6). In their order the invoke ID counts
/// first: it tells most askers apart at once.
#[derive(Clone, Copy, Debug, PartialEq, Eq, PartialOrd, Ord)]
pub struct Asker {
    pub invoke_id: u8,
    pub station: Station,
}

impl Asker {
    /// Whether it is this asker.
    #[tactic(auto, using(crate::proofs::Ordering::one_order))]
    pub(crate) fn is_same(self, other: Asker) -> bool
        ensures { result ≡ is_eq (asker_cmp self other) }
    {
        self.cmp(&other).is_eq()
    }
}

/// An answer as it is remembered.
#[derive(Drop)]
pub enum RememberedAnswer<A: Allocator> {
    /// A SimpleACK (20.1.4).
    Simple,
    /// The service data of a ComplexACK (20.1.5).
    Complex(Octets<A>),
    /// What stands behind the service in an Error (20.1.7).
    Error(Octets<A>),
    /// An Abort in place of an answer that can't be said (20.1.9).
    Abort(AbortReason),
}

impl<A: Allocator + Copy> RememberedAnswer<A> {
    /// An equal answer, in memory of `alloc`.
    ///
    /// # Errors
    /// Want of memory.
    pub fn copy(&self, alloc: A) -> Result<Self, AllocError>
        ensures { IfOk result (λ copy. copy ≡ self.now) }
    {
        Ok(match self {
            RememberedAnswer::Simple => RememberedAnswer::Simple,
            RememberedAnswer::Complex(octets) => RememberedAnswer::Complex(octets.copy(alloc)?),
            RememberedAnswer::Error(octets) => RememberedAnswer::Error(octets.copy(alloc)?),
            RememberedAnswer::Abort(reason) => RememberedAnswer::Abort(*reason),
        })
    }
}

/// An answer that is remembered: of a request that was executed at the moment `at`.
#[derive(Drop)]
pub struct Record<A: Allocator> {
    /// Who asked.
    pub asker: Asker,
    /// The service of the request.
    pub service: ConfirmedService,
    /// The answer.
    pub answer: RememberedAnswer<A>,
    /// How many octets of it go in a segment, 1 at least.
    pub chunk: usize,
    /// The moment of the execution, in milliseconds.
    pub at: u64,
    /// Where the answer goes: the way on which it was said last.
    pub way: Way,
    /// Its segments, where they are being said.
    pub sending: Option<Sender>,
}

impl<A: Allocator + Copy> Record<A> {
    /// An equal record, in memory of `alloc`.
    ///
    /// # Errors
    /// Want of memory.
    pub fn copy(&self, alloc: A) -> Result<Self, AllocError>
        ensures { IfOk result (λ copy. copy ≡ self.now) }
    {
        Ok(Record {
            asker: self.asker,
            service: self.service,
            answer: self.answer.copy(alloc)?,
            chunk: self.chunk,
            at: self.at,
            way: self.way,
            sending: self.sending,
        })
    }
}
