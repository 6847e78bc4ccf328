//! The clause of the standard that a finding is about, what it means in the plant, and what to look at first.

use crate::kind::Kind;
use crate::name::Name;

const EXECUTED_TWICE: &str =
    "An old command undid a newer one, so equipment runs that was stopped: look first at \
    how the device takes a repeated request, and whether it forgets its answers.";

const ANSWER_CHANGED: &str =
    "The device didn't remember its answer and took the repeat for a new request: look \
    first at what the request does when it is done again.";

const INVOKE_ID_REUSED: &str =
    "An answer can be taken for that of the other request, so a value or a command may be \
    the wrong one: look first at the client's software, and how long it waits (--timeout).";

const ANSWER_WITHOUT_REQUEST: &str =
    "Something answers what nobody asked here, or long after: look first for a \
    device that answers from another of its addresses, or for a second way past the capture.";

const ANSWER_OF_ANOTHER: &str =
    "A value may come from the wrong device: look first for a device with several \
    addresses, and for two devices with one address.";

const LATE_ANSWER: &str =
    "The request or its answer was lost, or the device takes longer than the client waits: \
    look first for losses on the way, then at the client's APDU_Timeout.";

const UNANSWERED: &str =
    "The device is off, unreachable or too busy, and whether the request was executed isn't \
    known: look first whether the device answers anything else.";

const SLOW: &str =
    "The device or the bus before it has too much to do, so values on screens are old: look first at \
    how often it is polled, and by how many clients.";

const SEGMENTS_LOST: &str =
    "Long messages come late or not at all: look first for losses on the way, and for a \
    window that is too large for it.";

const WINDOW_EXCEEDED: &str =
    "The receiver has no room for so much and may drop it, so long messages fail: look \
    first at the software of the sender.";

const TWO_ADDRESSES_ONE_INSTANCE: &str =
    "Two devices have one number, so clients read and command now one and now \
    the other: look first at the Device object's instance at both addresses.";

const BROADCAST_TWICE: &str =
    "Each broadcast comes twice and is answered twice, also where it asks all devices: \
    look first for a subnet with two managers, and for a foreign device that is registered twice.";

const BROADCAST_STORM: &str =
    "Controllers and buses lose their time with broadcasts: look first at who sends most \
    of them, and for a loop of managers or routers.";

const TWO_ROUTERS_ONE_NETWORK: &str =
    "Messages go now one way and now the other, and may circle, since only one way \
    may join two stations: look first at the network numbers of both routers.";

const MESSAGE_CIRCLES: &str =
    "Routers form a loop, which multiplies what goes through it: look first for two \
    routers that join the same two networks.";

const NO_ROUTE: &str =
    "What is on that network can't be reached: look first whether the router next to it is up, \
    then at the network numbers of routers and clients.";

const REGISTRATION_REFUSED: &str =
    "The foreign device gets no broadcasts, so it finds no devices: look first \
    whether the manager takes foreign devices, and whether its table is full.";

const TOKEN_LOST: &str =
    "All nodes of the bus had to wait: look first for a node that restarts, two nodes with one \
    address, and at wiring and termination.";

const BAD_CHECK: &str =
    "Frames are damaged on the bus, and what they carry is lost or late: look first at wiring, \
    termination, bias and baud rates.";

const SLOW_REPLY: &str =
    "The whole bus waits for this node, and who asked may give up: look first at what the node \
    has to do, and at its software.";

const MALFORMED: &str =
    "What was sent isn't understood by anybody: look first at the sender's software, and for \
    another program at that port.";

const ONE_SIDED_CAPTURE: &str =
    "The capture sees one direction of some traffic, so nothing is said of what seems to \
    be missing: look first at the place of the capture, and at both directions of the mirror port.";

/// The clause of ANSI/ASHRAE 135.
pub(crate) fn clause_of(kind: &Kind) -> &'static str {
    match kind {
        Kind::Malformed { layer, .. } => layer.clause(),
        _ => clause_of_name(kind.name()),
    }
}

/// The clause of ANSI/ASHRAE 135 that findings of a name are about; of malformed headers that is one for each layer.
fn clause_of_name(name: Name) -> &'static str {
    match name {
        Name::ExecutedTwice | Name::AnswerChanged => "5.4.5",
        Name::InvokeIdReused | Name::AnswerOfAnother => "20.1.2.6",
        Name::AnswerWithoutRequest => "5.4.4.1",
        Name::LateAnswer | Name::Unanswered => "5.4.4.3",
        Name::Slow => "5.4.5.3",
        Name::OneSidedCapture => "5.4",
        Name::SegmentsLost | Name::WindowExceeded => "5.2.2",
        Name::TwoAddressesOneInstance => "12.11.1",
        Name::BroadcastTwice => "J.4.5",
        Name::BroadcastStorm => "6.3.2",
        Name::TwoRoutersOneNetwork => "6.1",
        Name::MessageCircles => "6.2.3",
        Name::NoRoute => "6.4.4",
        Name::RegistrationRefused => "J.5.2",
        Name::TokenLost => "9.5.6",
        Name::BadCheck => "9.5.4",
        Name::SlowReply => "9.5.3",
        Name::Malformed => "20.1, 6.2, J.2",
    }
}

/// What it means in the plant, and what to look at first.
pub(crate) fn meaning_of(name: Name) -> &'static str {
    match name {
        Name::ExecutedTwice => EXECUTED_TWICE,
        Name::AnswerChanged => ANSWER_CHANGED,
        Name::InvokeIdReused => INVOKE_ID_REUSED,
        Name::AnswerWithoutRequest => ANSWER_WITHOUT_REQUEST,
        Name::AnswerOfAnother => ANSWER_OF_ANOTHER,
        Name::LateAnswer => LATE_ANSWER,
        Name::Unanswered => UNANSWERED,
        Name::Slow => SLOW,
        Name::SegmentsLost => SEGMENTS_LOST,
        Name::WindowExceeded => WINDOW_EXCEEDED,
        Name::TwoAddressesOneInstance => TWO_ADDRESSES_ONE_INSTANCE,
        Name::BroadcastTwice => BROADCAST_TWICE,
        Name::BroadcastStorm => BROADCAST_STORM,
        Name::TwoRoutersOneNetwork => TWO_ROUTERS_ONE_NETWORK,
        Name::MessageCircles => MESSAGE_CIRCLES,
        Name::NoRoute => NO_ROUTE,
        Name::RegistrationRefused => REGISTRATION_REFUSED,
        Name::TokenLost => TOKEN_LOST,
        Name::BadCheck => BAD_CHECK,
        Name::SlowReply => SLOW_REPLY,
        Name::Malformed => MALFORMED,
        Name::OneSidedCapture => ONE_SIDED_CAPTURE,
    }
}
