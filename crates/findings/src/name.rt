//! The names of findings.

use std::fmt;

/// The name of what no plant should show.
#[derive(Clone, Copy, PartialEq, Eq)]
pub enum Name {
    ExecutedTwice,
    AnswerChanged,
    InvokeIdReused,
    AnswerWithoutRequest,
    AnswerOfAnother,
    LateAnswer,
    Unanswered,
    Slow,
    SegmentsLost,
    WindowExceeded,
    TwoAddressesOneInstance,
    BroadcastTwice,
    BroadcastStorm,
    TwoRoutersOneNetwork,
    MessageCircles,
    NoRoute,
    RegistrationRefused,
    TokenLost,
    BadCheck,
    SlowReply,
    Malformed,
    OneSidedCapture,
}

/// How many names there are.
pub const NAME_COUNT: usize = 22;

/// All names, in the order in which a summary has them.
pub const NAMES: [Name; NAME_COUNT] = [
    Name::ExecutedTwice,
    Name::AnswerChanged,
    Name::InvokeIdReused,
    Name::AnswerWithoutRequest,
    Name::AnswerOfAnother,
    Name::LateAnswer,
    Name::Unanswered,
    Name::Slow,
    Name::SegmentsLost,
    Name::WindowExceeded,
    Name::TwoAddressesOneInstance,
    Name::BroadcastTwice,
    Name::BroadcastStorm,
    Name::TwoRoutersOneNetwork,
    Name::MessageCircles,
    Name::NoRoute,
    Name::RegistrationRefused,
    Name::TokenLost,
    Name::BadCheck,
    Name::SlowReply,
    Name::Malformed,
    Name::OneSidedCapture,
];

impl Name {
    /// The name as it is printed.
    fn text(self) -> &'static str {
        match self {
            Name::ExecutedTwice => "executed-twice",
            Name::AnswerChanged => "answer-changed",
            Name::InvokeIdReused => "invoke-id-reused",
            Name::AnswerWithoutRequest => "answer-without-request",
            Name::AnswerOfAnother => "answer-of-another",
            Name::LateAnswer => "late-answer",
            Name::Unanswered => "unanswered",
            Name::Slow => "slow",
            Name::SegmentsLost => "segments-lost",
            Name::WindowExceeded => "window-exceeded",
            Name::TwoAddressesOneInstance => "two-addresses-one-instance",
            Name::BroadcastTwice => "broadcast-twice",
            Name::BroadcastStorm => "broadcast-storm",
            Name::TwoRoutersOneNetwork => "two-routers-one-network",
            Name::MessageCircles => "message-circles",
            Name::NoRoute => "no-route",
            Name::RegistrationRefused => "registration-refused",
            Name::TokenLost => "token-lost",
            Name::BadCheck => "bad-check",
            Name::SlowReply => "slow-reply",
            Name::Malformed => "malformed",
            Name::OneSidedCapture => "one-sided-capture",
        }
    }

    /// Whether it only informs: nothing in the plant has to be wrong.
    pub fn is_information(self) -> bool {
        matches!(self, Name::AnswerChanged | Name::OneSidedCapture)
    }
}

impl fmt::Display for Name {
    fn fmt<W: fmt::Write>(&self, f: &mut fmt::Formatter<W>) -> fmt::Result {
        f.write_str(self.text())
    }
}
