//! An answer that is remembered, in words.

use names::abort_reasons;
use remembered::RememberedAnswer;
use std::alloc::Allocator;
use std::fmt;
use words::{Hex, Named, Spelling};

/// A remembered answer by the PDU that says it, as `simple-ack`, `complex-ack 0C02..`, `error 91029128` or
/// `abort out-of-resources` (20.1).
#[derive(Clone, Copy)]
pub(crate) struct AnswerWords<'a, A: Allocator> {
    pub(crate) answer: &'a RememberedAnswer<A>,
    pub(crate) spelling: Spelling,
}

impl<A: Allocator> fmt::Display for AnswerWords<'_, A> {
    fn fmt<W: fmt::Write>(&self, f: &mut fmt::Formatter<W>) -> fmt::Result {
        match self.answer {
            RememberedAnswer::Simple => f.write_str("simple-ack"),
            RememberedAnswer::Complex(octets) => write!(
                f,
                "complex-ack {}",
                Hex(octets.as_slice())
            ),
            RememberedAnswer::Error(octets) => write!(f, "error {}", Hex(octets.as_slice())),
            RememberedAnswer::Abort(reason) => {
                let reason = Named {
                    spelling: self.spelling,
                    table: abort_reasons(),
                    number: u32::from(u8::from(*reason)),
                };
                write!(f, "abort {reason}")
            }
        }
    }
}
