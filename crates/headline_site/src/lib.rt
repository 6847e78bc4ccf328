//! All stations of a site, clients and devices, as their contracts have them, and the promise over every fair list of
//! what can happen to them (ANSI/ASHRAE 135, clause 5.4).
//!
//! It has no code. Each function is a law: its contract. In `specs/`, from below:
//!
//! - `AllStations`: the clients and devices of a site over one book, and what comes of an event.
//! - `Fair`: which events are fair, and how a site begins.
//! - `Placed`: a site by its devices.
//! - `Laws`: what the functions state.
#![tactic(auto)]

ghost use Rattle.headline.specs.Promised.{AnswersAreWhole, ExecutesWhatIsIssued, RequestsAreWhole};
ghost use Rattle.headline.specs.Promised.{TransactionsAreOfIssues};
ghost use Rattle.headline.specs.Promised as core;
ghost use Rattle.history.specs.Legal.{AnswersWereExecuted, AreClosedOnce, AreExecutedOnce, AreNumbered};
ghost use Rattle.history.specs.Legal.{StandAfterIssue};
ghost use Rattle.headline_client.specs.headline_bacnet.Protocol.{bacnet};
ghost use Rattle.headline_site.specs.Laws.{Always, BeginsWell, ClientHearingGoes, DeviceHearingGoes, ExecutedIsIssued};
ghost use Rattle.headline_site.specs.Laws.{IsReached, OutcomesAreOfIssues, SaidStays, StepRefines, TablesAreLeft};
ghost use Rattle.headline_site.specs.Laws.{BeginsReached, GoesThen, HearingExecutesIssued, HearingIsWholeIssue};
ghost use Rattle.headline_site.specs.Laws.{HearingTellsOfIssues, ReachedThen, Wherever, WokenIsOfIssues};
ghost use Rattle.headline_site.specs.Placed.{SiteHasEach, SiteIsSite};

use std::alloc::Allocator;

/// Devices with sound objects, at stations of their own and with instances of their own, are a site of the promise,
/// which has each of them with its opening objects.
pub fn site_is_site<A: Allocator>()
    ensures site { SiteIsSite A }
    ensures each { SiteHasEach A }
{}

/// What comes of a fair event is a list of honest happenings, and the core stays what safety sees of each station; so
/// it is where a site begins.
pub fn step_refines<A: Allocator>()
    ensures step { StepRefines A }
    ensures begin { BeginsWell A }
{}

/// What a client or a device does on an NPDU by its contract, where what it brings was said, goes as well.
pub fn hearing_goes<A: Allocator>()
    ensures client { ClientHearingGoes A }
    ensures device { DeviceHearingGoes A }
{}

/// Fair events lead where honest happenings lead.
pub fn honest_happenings_lead_there<A: Allocator>()
    ensures { Always A (λ s w. IsReached s w.core) }
{}

/// Issues are numbered in order, each other entry stands after its issue, each issue is executed at most once, each
/// answer has the reply of an earlier execution of that very issue, and no issue is answered or ended twice.
pub fn histories_are_legal<A: Allocator>()
    ensures numbered { Always A (λ s w. AreNumbered w.core.book.history) }
    ensures after_issue { Always A (λ s w. StandAfterIssue w.core.book.history) }
    ensures executed { Always A (λ s w. AreExecutedOnce w.core.book.history) }
    ensures answered { Always A (λ s w. AnswersWereExecuted w.core.book.history) }
    ensures closed { Always A (λ s w. AreClosedOnce w.core.book.history) }
{}

/// The objects of each device are what the executions of its requests leave, in their order.
pub fn tables_are_what_executions_leave<A: Allocator>()
    ensures { Always A (λ s w. TablesAreLeft s w) }
{}

/// What is executed, open or closed is of the last issue of its client under its invoke ID, which has its request and
/// names the instance of the device; a reply that is given is that of an execution of it.
pub fn all_is_of_an_issue<A: Allocator>()
    ensures executed { Always A (λ s w. ExecutesWhatIsIssued (bacnet A) s w.core) }
    ensures opened { Always A (λ s w. TransactionsAreOfIssues (bacnet A) s w.core) }
    ensures closed { Always A (λ s w. core.OutcomesAreOfIssues (bacnet A) s w.core) }
{}

/// What a device executes is the request of the last issue of the asker under its invoke ID, which names the instance
/// of the device.
pub fn executed_is_issued<A: Allocator>()
    ensures { Always A (λ s w. ExecutedIsIssued s w) }
{}

/// What a client tells is of its last issue under that invoke ID, which has the request of the transaction and names
/// the instance of the station addressed; a reply is that of an execution of it.
pub fn outcomes_are_of_issues<A: Allocator>()
    ensures { OutcomesAreOfIssues A }
{}

/// Each request that was gathered is the whole body of one issue, each gathered answer the whole of one execution's.
pub fn whole_bodies<A: Allocator>()
    ensures requests { Always A (λ s w. RequestsAreWhole (bacnet A) s w.core) }
    ensures answers { Always A (λ s w. AnswersAreWhole (bacnet A) s w.core) }
{}

/// Honest happenings lead to where a site begins, and on to wherever its stations go, in however many steps.
pub fn reached_leads_on<A: Allocator>()
    ensures begins { BeginsReached A }
    ensures leads { ReachedThen A }
    ensures goes { GoesThen A }
{}

/// All of it holds wherever honest happenings led and the core is what safety sees of each station, whatever the steps
/// were: the history is legal there, and the objects of each device are what the executions of its requests leave.
pub fn holds_wherever_reached<A: Allocator>()
    ensures numbered { Wherever A (λ own s w. AreNumbered w.core.book.history) }
    ensures after_issue { Wherever A (λ own s w. StandAfterIssue w.core.book.history) }
    ensures executed { Wherever A (λ own s w. AreExecutedOnce w.core.book.history) }
    ensures answered { Wherever A (λ own s w. AnswersWereExecuted w.core.book.history) }
    ensures closed { Wherever A (λ own s w. AreClosedOnce w.core.book.history) }
    ensures tables { Wherever A (λ own s w. TablesAreLeft s w) }
{}

/// So is what a device executes and a client tells on an NPDU by its contract of an issue, and what a client tells
/// where it wakes; and what they gather is the whole body of one.
pub fn hearings_are_of_issues<A: Allocator>()
    ensures executed { Wherever A (λ own s w. HearingExecutesIssued s w) }
    ensures told { Wherever A (λ own s w. HearingTellsOfIssues own s w) }
    ensures woken { Wherever A (λ own s w. WokenIsOfIssues own s w) }
    ensures whole { Wherever A (λ own s w. HearingIsWholeIssue s w) }
    ensures requests { Wherever A (λ own s w. RequestsAreWhole (bacnet A) s w.core) }
    ensures answers { Wherever A (λ own s w. AnswersAreWhole (bacnet A) s w.core) }
{}

/// Nothing that was said is taken back.
pub fn said_stays_said<A: Allocator>()
    ensures { SaidStays A }
{}
