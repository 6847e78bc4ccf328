//! The words of a fault, as a script has them.

ghost use Rattle.std.specs.Prelude.{Some};
ghost use Rattle.network_faults.specs.Printed.{fault_text, issue_text, message_text};

use crate::fault::{FaultyMessage, IssueRef, NetworkFault};
use last_hop::RequestOrAnswer;
use std::alloc::Allocator;
use std::fmt;

impl fmt::Display for IssueRef {
    ghost output = { λ i. Some (issue_text i) };

    fn fmt<W: fmt::Write>(&self, f: &mut fmt::Formatter<W>) -> fmt::Result {
        match self {
            IssueRef::Number(number) => write!(f, "{number}"),
            IssueRef::Last => f.write_str("last"),
        }
    }
}

impl fmt::Display for FaultyMessage {
    ghost output = { λ m. Some (message_text m) };

    fn fmt<W: fmt::Write>(&self, f: &mut fmt::Formatter<W>) -> fmt::Result {
        let which = match self.which {
            RequestOrAnswer::Request => "request",
            RequestOrAnswer::Answer => "answer",
        };
        write!(f, "{which} {}", self.issue)
    }
}

impl<A: Allocator> fmt::Display for NetworkFault<A> {
    ghost output = { λ x. Some (fault_text x) };

    #[tactic(auto, unfolding(crate::specs::Printed::fault_text))]
    fn fmt<W: fmt::Write>(&self, f: &mut fmt::Formatter<W>) -> fmt::Result {
        match self {
            NetworkFault::Lose { count, message } => {
                if *count == 1 {
                    write!(f, "lose {message}")
                } else {
                    write!(f, "lose {count} {message}")
                }
            }
            NetworkFault::Repeat(message) => write!(f, "repeat {message}"),
            NetworkFault::Delay { message, ms } => write!(f, "delay {message} {ms}"),
            NetworkFault::Damage(message) => write!(f, "damage {message}"),
            NetworkFault::LoseTo { station, ms } => {
                let station = StationName(station.as_slice());
                write!(f, "lose to {station} for {ms}")
            }
            NetworkFault::LoseOn { network, ms } => write!(f, "lose on {network} for {ms}"),
        }
    }
}

/// The name of a station, which is letters and digits.
#[derive(Clone, Copy)]
pub struct StationName<'a>(pub &'a [u8]);

impl fmt::Display for StationName<'_> {
    ghost output = { λ n. Some n.0.now };

    fn fmt<W: fmt::Write>(&self, f: &mut fmt::Formatter<W>) -> fmt::Result {
        match std::str::from_utf8(self.0) {
            Ok(name) => f.write_str(name),
            Err(_) => Err(fmt::Error),
        }
    }
}
