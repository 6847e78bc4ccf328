//! What may stand at a place of a line.

use messages::Choice;
use std::fmt;

/// What may stand at a place of a line.
#[derive(Clone, Copy)]
pub(crate) enum Expected {
    /// The first word of a step.
    Order,
    /// The first word of a step that a live run takes.
    LiveOrder,
    /// The first word of a request.
    Service,
    /// The first word of a value.
    Value,
    /// `true` or `false`.
    Flag,
    /// The number of an Enumerated, or the name of a state.
    Enumerated,
    /// What is lost.
    Loss,
    /// Which message of a request.
    Message,
    /// The word before a time.
    Duration,
    /// The first word of what is expected of a run.
    Expectation,
    /// The first word of what is expected of a live run.
    LiveExpectation,
    /// How a request is answered, or how soon.
    Reply,
    /// Why a request has no answer, or how soon it ends.
    Cause,
    /// How often a request is executed.
    Times,
    /// What there is none of.
    Refused,
    /// What a property reads.
    Reading,
    /// The word before a priority, or the end.
    Priority,
    /// The end of the line.
    End,
    /// A second value, which no write has.
    OneValue,
    /// A number, of this kind and within this range.
    Number {
        kind: &'static str,
        least: i64,
        greatest: u64,
    },
    /// The name of an object type.
    ObjectType,
    /// The name of a property.
    Property,
    /// What these words say.
    Phrase(&'static str),
}

/// The first words of steps.
const ORDERS: [&str; 15] = [
    "issue", "whois", "tick", "flow", "wake", "deliver", "hear", "register", "restart", "lose",
    "repeat", "delay", "damage", "expect", "state",
];

/// The first words of steps that a live run takes.
const LIVE_ORDERS: [&str; 7] = [
    "issue", "whois", "tick", "flow", "register", "restart", "expect",
];

/// The first words of requests.
const SERVICES: [&str; 4] = ["read", "many", "write", "batch"];

/// The first words of values.
const VALUES: [&str; 12] = [
    "null", "bool", "unsigned", "signed", "enum", "object", "bits", "text", "other", "built",
    "active", "inactive",
];

/// The values of a Boolean.
const FLAGS: [&str; 2] = ["true", "false"];

/// The states of a binary value.
const STATES: [&str; 2] = ["active", "inactive"];

/// What is lost, beside how many sendings.
const LOSSES: [&str; 4] = ["request", "answer", "to", "on"];

/// The messages of a request.
const MESSAGES: [&str; 2] = ["request", "answer"];

/// The word before a time.
const DURATION: [&str; 1] = ["for"];

/// The first words of what is expected of a run.
const EXPECTATIONS: [&str; 5] = ["answered", "ended", "executed", "value", "none"];

/// The first words of what is expected of a live run.
const LIVE_EXPECTATIONS: [&str; 4] = ["answered", "ended", "executed", "none"];

/// The first words of replies, and the one before a time.
const REPLIES: [&str; 5] = ["done", "values", "many", "error", "within"];

/// The first words of why a request has no answer, and the one before a time.
const CAUSES: [&str; 4] = ["timedout", "rejected", "aborted", "within"];

/// How often a request is executed.
const TIMES: [&str; 2] = ["once", "never"];

/// What there is none of.
const REFUSED: [&str; 1] = ["refused"];

/// The word before a priority.
const PRIORITY: [&str; 1] = ["at"];

impl Expected {
    /// The words that may stand there, where they are few.
    pub(crate) fn words(&self) -> &[&'static str] {
        match self {
            Expected::Order => &ORDERS,
            Expected::LiveOrder => &LIVE_ORDERS,
            Expected::Service => &SERVICES,
            Expected::Value | Expected::Reading => &VALUES,
            Expected::Flag => &FLAGS,
            Expected::Enumerated => &STATES,
            Expected::Loss => &LOSSES,
            Expected::Message => &MESSAGES,
            Expected::Duration => &DURATION,
            Expected::Priority => &PRIORITY,
            Expected::Expectation => &EXPECTATIONS,
            Expected::LiveExpectation => &LIVE_EXPECTATIONS,
            Expected::Reply => &REPLIES,
            Expected::Cause => &CAUSES,
            Expected::Times => &TIMES,
            Expected::Refused => &REFUSED,
            Expected::End
            | Expected::OneValue
            | Expected::Number { .. }
            | Expected::ObjectType
            | Expected::Property
            | Expected::Phrase(_) => &[],
        }
    }
}

impl fmt::Display for Expected {
    fn fmt<W: fmt::Write>(&self, f: &mut fmt::Formatter<W>) -> fmt::Result {
        match self {
            Expected::Order
            | Expected::LiveOrder
            | Expected::Service
            | Expected::Flag
            | Expected::Message
            | Expected::Expectation
            | Expected::LiveExpectation
            | Expected::Reply
            | Expected::Cause
            | Expected::Times
            | Expected::Refused => write!(f, "{}", Choice(self.words())),
            Expected::Loss => write!(f, "how many of them, {}", Choice(self.words())),
            Expected::Duration => f.write_str("\"for\" and a number of milliseconds"),
            Expected::Value => fmt_values(f),
            Expected::Reading => {
                f.write_str("a number, ")?;
                fmt_values(f)
            }
            Expected::Enumerated => {
                write!(f, "a number, 0 to 4294967295, {}", Choice(self.words()))
            }
            Expected::Priority => f.write_str("\"at\" and a priority, or the end of the write"),
            Expected::End => f.write_str("the end of the line"),
            Expected::OneValue => f.write_str("one value"),
            Expected::Number {
                kind,
                least,
                greatest,
            } => write!(f, "{kind}, {least} to {greatest}"),
            Expected::ObjectType => f.write_str("an object type, 0 to 1023 or its name"),
            Expected::Property => f.write_str("a property, 0 to 4294967295 or its name"),
            Expected::Phrase(words) => f.write_str(words),
        }
    }
}

/// Prints how a value may begin.
fn fmt_values<W: fmt::Write>(f: &mut fmt::Formatter<W>) -> fmt::Result {
    for word in VALUES {
        write!(f, "{word}, ")?;
    }
    f.write_str("or a text in quotes")
}
