//! A client that asks a device (ANSI/ASHRAE 135, clauses 5.4 and 6.5): what each event takes on one subnet, whether it
//! grows with the stations there or with what happened before, and what a request takes through a router.

use crate::clock::{Clock, Often, Work};
use crate::parts::{chain, client, device, networks, on_ip};
use crate::worlds::{ask_who, deliver_from, flow, make_again, name, open, read};
use profile::LinkKind;
use simulator::{Event, World};
use site_parts::Parts;
use std::alloc::{AllocError, Allocator};
use std::io;
use tags::{Fault, Items};

/// How many stations a subnet has at the small end, and at the large one.
const COUNTS: [u16; 2] = [3, 300];

/// How many of them are devices at most; all others are clients, of which the last one asks the first device.
const DEVICES: u16 = 256;

/// How many events a round has on a subnet.
const EVENTS: u64 = 5;

/// How many of them the history has an entry of.
const ENTRIES: u64 = 3;

/// How many events happened before a round is made few times, and before one is timed.
const AGES: [(u64, u64); 2] = [(100, 1_000), (2_000, 100_000)];

/// What is done again and again.
#[derive(Clone, Copy, Debug, PartialEq, Eq)]
enum Turn {
    /// A millisecond passes.
    Tick,
    /// The device wakes, and nothing is due.
    Wake,
    /// The client issues a request.
    Issue,
    /// A request is delivered, and executed.
    Execute,
    /// An answer is delivered.
    Answer,
    /// A request that was answered is delivered again.
    Repeat,
    /// A request is issued and its answer comes, 300 ms pass, and stations wake.
    Round,
}

impl Turn {
    /// What it is, and of what so many come.
    fn words(self) -> (&'static str, &'static str) {
        match self {
            Turn::Tick => ("a tick", "made"),
            Turn::Wake => ("a wake at which nothing is due", "made"),
            Turn::Issue => ("a request issued", "issued"),
            Turn::Execute => ("a request delivered and executed", "executed"),
            Turn::Answer => ("an answer delivered", "answered"),
            Turn::Repeat => ("a request delivered again", "answers put out"),
            Turn::Round => ("a request and its answer", "entries"),
        }
    }

    /// How often it is done: at one moment no more requests are made than there are invoke IDs.
    fn often(self) -> Often {
        let (few, timed) = match self {
            Turn::Tick | Turn::Wake => (100, 100_000),
            Turn::Issue | Turn::Execute | Turn::Answer => (32, 32),
            Turn::Repeat => (32, 2_000),
            Turn::Round => (20, 20),
        };
        Often { few, timed }
    }
}

/// A world in which a client asks a device. It is not dropped: its world is closed.
struct Asking<A: Allocator + Copy> {
    world: World<A>,
    issue: Event<A>,
    wakes: Vec<Event<A>, A>,
    /// How often something is delivered until an answer has come.
    deliveries: u64,
    /// Each item before this place was delivered.
    delivered: usize,
    turn: Turn,
}

impl<A: Allocator + Copy> Asking<A> {
    /// The world of parts in which this client has met device 1, and stations of these letters and the number 1 wake.
    fn new(
        alloc: A,
        parts: Parts<A>,
        client: u16,
        letters: &[&str],
        deliveries: u64,
    ) -> Result<Self, Fault> {
        let issue = read(alloc, client)?;
        let mut wakes = Vec::new(alloc);
        for letter in letters {
            wakes.push(Event::Wake(name(alloc, *letter, 1)?))?;
        }
        let mut asking = Asking {
            world: open(alloc, parts)?,
            issue,
            wakes,
            deliveries,
            delivered: 0,
            turn: Turn::Tick,
        };
        match asking.meet(alloc, client) {
            Ok(()) => Ok(asking),
            Err(fault) => {
                asking.close();
                Err(fault)
            }
        }
    }

    /// Routers tell where they lead, and the client of this number learns where device 1 is.
    fn meet(&mut self, alloc: A, client: u16) -> Result<(), Fault> {
        flow(&mut self.world, 5)?;
        ask_who(alloc, &mut self.world, client)?;
        flow(&mut self.world, 5)?;
        self.delivered = self.world.items().len();
        Ok(())
    }

    /// Lets go of it.
    fn close(self) {
        let Asking {
            world,
            issue: _issue,
            wakes: _wakes,
            deliveries: _,
            delivered: _,
            turn: _,
        } = self;
        world.close();
    }

    /// Each station that does wakes so many times; answers how often one woke.
    fn wake(&mut self, times: u64) -> Result<u64, Fault> {
        let mut woke = 0u64;
        for wake in &self.wakes {
            woke = woke.saturating_add(make_again(&mut self.world, wake, times)?);
        }
        Ok(woke)
    }

    /// The client issues so many requests.
    fn issue(&mut self, times: u64) -> Result<(), Fault> {
        make_again(&mut self.world, &self.issue, times)?;
        Ok(())
    }

    /// All is delivered that was put out so far.
    fn deliver(&mut self) -> Result<(), Fault> {
        self.delivered = deliver_from(&mut self.world, self.delivered)?;
        Ok(())
    }

    /// The same so often that all answers came.
    fn deliver_all(&mut self) -> Result<(), Fault> {
        for _ in 0..self.deliveries {
            self.deliver()?;
        }
        Ok(())
    }

    /// What was delivered last is delivered again so many times; answers how many items were put out.
    fn repeat(&mut self, times: u64) -> Result<u64, Fault> {
        let again = Event::Deliver(self.delivered.saturating_sub(1) as u64);
        let before = self.world.items().len();
        make_again(&mut self.world, &again, times)?;
        Ok(self.world.items().len().saturating_sub(before) as u64)
    }

    /// So many requests are made one after another, each with its answer, 300 ms and the wakes.
    fn ask(&mut self, times: u64) -> Result<(), Fault> {
        for _ in 0..times {
            self.issue(1)?;
            self.deliver_all()?;
            self.world.step(&Event::Tick(300))?;
            self.wake(1)?;
        }
        Ok(())
    }

    /// Makes ready for a turn: all is answered, and each invoke ID is free; then so many requests are made, and are
    /// executed where the turn begins with that.
    fn make_ready(&mut self, times: u64) -> Result<(), Fault> {
        let (issued, is_executed) = match self.turn {
            Turn::Tick | Turn::Wake | Turn::Round => return Ok(()),
            Turn::Issue => (0, false),
            Turn::Execute => (times, false),
            Turn::Answer => (times, true),
            Turn::Repeat => (1, true),
        };
        self.deliver_all()?;
        self.world.step(&Event::Tick(60_000))?;
        self.issue(issued)?;
        if is_executed { self.deliver() } else { Ok(()) }
    }

    /// Takes a turn so many times; answers what came of it, which are entries of the history where nothing else is.
    fn take(&mut self, times: u64) -> Result<u64, Fault> {
        let before = self.world.history().len();
        match self.turn {
            Turn::Tick => return make_again(&mut self.world, &Event::Tick(1), times),
            Turn::Wake => return self.wake(times),
            Turn::Repeat => return self.repeat(times),
            Turn::Issue => self.issue(times)?,
            Turn::Execute | Turn::Answer => self.deliver()?,
            Turn::Round => self.ask(times)?,
        }
        Ok(self.world.history().len().saturating_sub(before) as u64)
    }
}

impl<A: Allocator + Copy> Work for Asking<A> {
    fn prepare(&mut self, times: u64) -> Result<(), AllocError> {
        self.make_ready(times).map_err(|_| AllocError)
    }

    fn go(&mut self, times: u64) -> Result<u64, AllocError> {
        self.take(times).map_err(|_| AllocError)
    }
}

/// Times a turn, and prints what came of it or what it took, after these words.
fn run_turn<A: Allocator + Copy>(
    clock: Clock<'_>,
    words: &str,
    turn: Turn,
    asking: &mut Asking<A>,
) -> io::Result<()> {
    asking.turn = turn;
    let (name, unit) = turn.words();
    let name = format!(in clock.alloc(); "{words}, {name}")?;
    clock.tell(turn.often(), name.as_str(), unit, asking)
}

/// Times all turns but rounds in a subnet of so many stations.
fn run_turns<A: Allocator + Copy>(
    clock: Clock<'_>,
    count: u16,
    asking: &mut Asking<A>,
) -> io::Result<()> {
    let words = format!(in clock.alloc(); "{count} stations")?;
    for turn in [
        Turn::Tick,
        Turn::Wake,
        Turn::Issue,
        Turn::Execute,
        Turn::Answer,
        Turn::Repeat,
    ] {
        run_turn(clock, words.as_str(), turn, asking)?;
    }
    Ok(())
}

/// Times rounds after more and more events.
fn run_ages<A: Allocator + Copy>(clock: Clock<'_>, asking: &mut Asking<A>) -> io::Result<()> {
    for (few, timed) in AGES {
        let events = Often { few, timed }.times(clock.has_times);
        let made = asking.world.history().len() as u64 / ENTRIES;
        let rounds = (events / EVENTS).saturating_sub(made);
        asking.ask(rounds).map_err(|_| AllocError)?;
        let words = format!(in clock.alloc(); "after {events} events")?;
        run_turn(clock, words.as_str(), Turn::Round, asking)?;
    }
    Ok(())
}

/// A subnet of so many stations, of which the last one asks the first.
fn subnet<A: Allocator + Copy>(alloc: A, count: u16) -> Result<Asking<A>, Fault> {
    let devices = DEVICES.min(count.saturating_sub(1));
    let mut stations = Items::new(alloc);
    for number in 1..=devices {
        stations.push(device(alloc, number, on_ip(1, 1, number), 1)?)?;
    }
    for number in devices.saturating_add(1)..=count {
        stations.push(client(alloc, number, on_ip(1, 1, number))?)?;
    }
    let networks = networks(alloc, 1, LinkKind::BacnetIp)?;
    let parts = Parts { networks, stations };
    Asking::new(alloc, parts, count, &["d"], 2)
}

/// Times what is done in a subnet of so many stations.
fn run_subnet(clock: Clock<'_>, count: u16) -> io::Result<()> {
    let mut asking = subnet(clock.alloc(), count).map_err(|_| AllocError)?;
    let run = run_turns(clock, count, &mut asking);
    asking.close();
    run
}

/// Times a request and its answer after more and more events.
fn run_growth(clock: Clock<'_>) -> io::Result<()> {
    let mut asking = subnet(clock.alloc(), COUNTS[0]).map_err(|_| AllocError)?;
    let run = run_ages(clock, &mut asking);
    asking.close();
    run
}

/// Times a request through a router of two networks and its answer back, with the wakes of all three: nine events.
fn run_routed(clock: Clock<'_>) -> io::Result<()> {
    let alloc = clock.alloc();
    let parts = chain(alloc, 2, 1, 1)?;
    let mut asking = Asking::new(alloc, parts, 1, &["c", "r", "d"], 4).map_err(|_| AllocError)?;
    let run = run_turn(clock, "through a router", Turn::Round, &mut asking);
    asking.close();
    run
}

/// Times what a client asks, and prints what came of it, or what it took.
///
/// # Errors
/// Those of the clock and of printing, and want of memory.
pub(crate) fn run(clock: Clock<'_>) -> io::Result<()> {
    for count in COUNTS {
        run_subnet(clock, count)?;
    }
    run_growth(clock)?;
    run_routed(clock)
}
