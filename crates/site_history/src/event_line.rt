//! An event as the line of a script, and why it is refused.

ghost use Rattle.std.specs.Prelude.{◌≡◌, IfOk, Some};
ghost use Rattle.std.specs.Fmt.{WritesOnOk};
ghost use Rattle.site_history.specs.Asked.{asked_in_line, cause_text, event_text, line_text, missing_text, who_is_text};

use apdu::Limits;
use faulty_flow::Event;
use std::alloc::{AllocError, Allocator};
use std::fmt;
use std::marker::Model;
use tags::Fault;
use words::{Hex, Spelled, Spelling};

/// An event as the line of a script that asks for it, without its end: `tick 20`, `wake panel`, `deliver 4`,
/// `hear 2 box 55FF0102010000F5`, `issue panel 10 read 45:1 85`, `whois panel`, `register boiler`, `restart ahu`.
#[derive(Clone, Copy)]
pub struct EventLine<'a, A: Allocator> {
    pub event: &'a Event<A>,
    /// The standard's numbers, or its names.
    pub spelling: Spelling,
}

impl<A: Allocator> fmt::Display for EventLine<'_, A> {
    ghost output = { λ l. Some (event_text l.spelling l.event.now) };

    #[tactic(auto, unfolding(crate::specs::Asked::event_text))]
    fn fmt<W: fmt::Write>(&self, f: &mut fmt::Formatter<W>) -> fmt::Result {
        match self.event {
            Event::Issue {
                client,
                instance,
                request,
            } => {
                let client = Name(client.as_slice());
                let request = Spelled {
                    spelling: self.spelling,
                    what: request,
                };
                write!(f, "issue {client} {instance} {request}")
            }
            Event::WhoIs { client, limits } => fmt_who_is(client.as_slice(), *limits, f),
            Event::Tick(ms) => write!(f, "tick {ms}"),
            Event::Wake(station) => write!(f, "wake {}", Name(station.as_slice())),
            Event::Deliver(number) => write!(f, "deliver {number}"),
            Event::Hear {
                network,
                station,
                octets,
            } => {
                let station = Name(station.as_slice());
                write!(f, "hear {network} {station} {}", Hex(octets.as_slice()))
            }
            Event::Register(station) => write!(f, "register {}", Name(station.as_slice())),
            Event::Restart(station) => write!(f, "restart {}", Name(station.as_slice())),
        }
    }
}

/// The name of a station, which is letters and digits.
#[derive(Clone, Copy)]
struct Name<'a>(&'a [u8]);

impl fmt::Display for Name<'_> {
    ghost output = { λ n. Some n.0.now };

    fn fmt<W: fmt::Write>(&self, f: &mut fmt::Formatter<W>) -> fmt::Result {
        match std::str::from_utf8(self.0) {
            Ok(name) => f.write_str(name),
            Err(_) => Err(fmt::Error),
        }
    }
}

/// Prints a Who-Is of a client.
fn fmt_who_is<W: fmt::Write>(
    client: &[u8],
    limits: Option<Limits>,
    f: &mut fmt::Formatter<W>,
) -> fmt::Result
    ensures { WritesOnOk W.write_str_gives f.old result (who_is_text client.now limits) f.new }
{
    let client = Name(client);
    match limits {
        None => write!(f, "whois {client}"),
        Some(Limits { low, high }) => write!(f, "whois {client} {low} {high}"),
    }
}

/// The number of a script's line before what it asks for: `line 7 `, or nothing where there is none.
#[derive(Clone, Copy)]
pub(crate) struct ScriptLine(pub(crate) Option<u64>);

impl fmt::Display for ScriptLine {
    ghost output = { λ l. Some (line_text l.0) };

    fn fmt<W: fmt::Write>(&self, f: &mut fmt::Formatter<W>) -> fmt::Result {
        match self.0 {
            None => Ok(()),
            Some(number) => write!(f, "line {number} "),
        }
    }
}

/// What is told of an event behind its refusal, made before it is refused.
#[derive(Drop)]
pub struct AskedFor<A: Allocator> {
    text: String<A>,
    missing: &'static str,
}

impl<A: Allocator> Model for AskedFor<A> {
    ghost use Rattle.std.specs.Prelude.{string_bytes};
    ghost use Rattle.site_history.specs.Asked.{Asked};

    ghost Value = { Asked };

    ghost view = { λ a. record { text = string_bytes a.text; missing = a.missing.now } };
}

impl<A: Allocator> AskedFor<A> {
    /// That of an event, with the number of the script's line that asks for it.
    ///
    /// # Errors
    /// Want of memory.
    pub fn of(alloc: A, script_line: Option<u64>, event: &Event<A>) -> Result<Self, AllocError>
        ensures { IfOk result (λ a. a ≡ asked_in_line script_line event.now) }
    {
        let asked = EventLine {
            event,
            spelling: Spelling::Names,
        };
        Ok(AskedFor {
            text: format!(in alloc; "{}{asked}", ScriptLine(script_line))?,
            missing: missing(event),
        })
    }

    pub(crate) fn text(&self) -> &str
        ensures { result.now ≡ self.now.text }
    {
        self.text.as_str()
    }

    pub(crate) fn missing(&self) -> &'static str
        ensures { result.now ≡ self.now.missing }
    {
        self.missing
    }
}

/// The plain cause of a refusal, behind a colon, or nothing where its name says it all; what is missing stands for
/// itself.
pub(crate) fn cause(missing: &'static str, fault: Fault) -> &'static str
    ensures { result.now ≡ cause_text missing.now fault }
{
    match fault {
        Fault::Memory => ": there is no memory for it",
        Fault::TooLong => ": it is too long to be sent",
        Fault::NoInvokeId => ": the next invoke ID is in use",
        Fault::Unbound => ": no I-Am of this device was heard yet",
        Fault::NoRoute => ": a router said that it has no route to this device",
        Fault::TableFull => ": there is no place left for it",
        Fault::Expired => ": it is too old to be heard",
        Fault::Forged => ": nobody sent this",
        Fault::NoSuch => missing,
        Fault::Short
        | Fault::BadTag
        | Fault::BadLength
        | Fault::BadVersion
        | Fault::Wire
        | Fault::BadSite => "",
    }
}

/// What is not there that an event asks for, behind a colon.
pub(crate) fn missing<A: Allocator>(event: &Event<A>) -> &'static str
    ensures { result.now ≡ missing_text event.now }
{
    match event {
        Event::Issue { .. } | Event::WhoIs { .. } => ": no client has this name",
        Event::Tick(_) => ": 1 to 60000 ms pass at once, and none after the greatest moment",
        Event::Wake(_) => ": no station has this name",
        Event::Deliver(_) => ": no datagram has this number, or nobody is at its address",
        Event::Hear { .. } => ": no station of this name is on this network",
        Event::Register(_) => ": no foreign device has this name",
        Event::Restart(_) => ": no device has this name",
    }
}
