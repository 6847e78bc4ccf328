//! Datagrams and frames as strays, which no station of the site sent: each row of `strays.rows` comes whole, cut and
//! changed to each address of a site, and to two that nobody has. The site is that of `strays.site`, behind the steps
//! of `strays.script`: the nodes of its bus pass their token, its client has asked, and waits for an answer.
//!
//! Each stray comes to a world of its own. Where it is refused that world does afterwards what one does that got none.

use crate::worlds::opened;
use npdu::{Mac, Station};
use refusing::Refusing;
use script::{Step, script_of};
use sheets::{
    Counts, Given, Part, Report, Row, Stop, Trial, change_octets, differs, octets, rows, two_words,
};
use simulator::{Event, Flow, Internetwork, World};
use std::alloc::{AllocError, Allocator, Global};
use std::{fs, io};
use tags::{Fault, Items};

/// Where strays come from: an address of BACnet/IP and a node of a bus that the site has not.
const STRANGER: Mac = Mac::Six([127, 0, 0, 1, 0xBB, 0x1C]);

const STRANGE_NODE: Mac = Mac::One(9);

/// The addresses of the device, of both ports of the router and of the client, and two that nobody has.
const DEVICE: Station = Station {
    net: 1,
    mac: Mac::Six([127, 0, 0, 1, 0xBA, 0xC3]),
};

const ROUTER: Station = Station {
    net: 1,
    mac: Mac::Six([127, 0, 0, 1, 0xBA, 0xC0]),
};

const BEHIND: Station = Station {
    net: 2,
    mac: Mac::One(1),
};

const CLIENT: Station = Station {
    net: 2,
    mac: Mac::One(5),
};

const NOBODY: Station = Station {
    net: 1,
    mac: Mac::Six([127, 0, 0, 1, 0xBA, 0xC2]),
};

const NOWHERE: Station = Station {
    net: 3,
    mac: Mac::One(5),
};

/// What is asked in the end: all properties of the device's objects, and which networks the router has a way to
/// (15.7, 6.4.1).
const ASKED: [(Station, &str); 2] = [
    (
        DEVICE,
        "810A002E01040265FF0E0C0200000A1E09081F0C014000011E09081F0C0B4000011E09081F0C0A0000011E09081F",
    ),
    (ROUTER, "810B0007018000"),
];

/// The stations of the site.
const NAMES: [&[u8]; 3] = [b"r", b"d", b"c"];

/// The file of the datagrams, and those of the site and of its script.
const DATAGRAMS: &str = "strays.rows";

const SITE: &str = "strays.site";

const SCRIPT: &str = "strays.script";

/// Lets each row of datagrams stray, and prints what comes of them.
///
/// # Errors
/// Those of reading and of printing, and want of memory.
pub(crate) fn run_file(rt: &HostRuntime) -> io::Result<()> {
    let text = fs::read_to_string(rt, DATAGRAMS)?;
    let site = fs::read(rt, SITE)?;
    let script = fs::read(rt, SCRIPT)?;
    let said = run_rows(
        rt.alloc(),
        text.as_str(),
        site.as_slice(),
        script.as_slice(),
    )?;
    rt.print(said.as_str())
}

/// Lets each row of a text stray, and answers what is printed of them.
fn run_rows(alloc: Global, text: &str, site: &[u8], script: &[u8]) -> Result<String, AllocError> {
    let memory = Refusing::new(alloc);
    let other = Refusing::new(alloc);
    let given = Given {
        alloc,
        memory: &memory,
        other: &other,
    };
    let Ok(world) = opened_behind(alloc, given.memory, site, script) else {
        return format!(in alloc; "{SITE}, {SCRIPT}: unread\n");
    };
    let said = run_each(given, given.memory, &world, text);
    world.close();
    said
}

/// Lets each row of a text stray, and answers what is printed of them.
fn run_each<A: Allocator + Copy>(
    given: Given<'_>,
    memory: A,
    world: &Internetwork<A>,
    text: &str,
) -> Result<String, AllocError> {
    let mut report = Report::new(given.alloc, DATAGRAMS);
    for row in rows(given.alloc, text)?.as_slice() {
        report.add(row, run_row(given, memory, world, row))?;
    }
    report.text()
}

/// The world of a site behind the steps of a script.
fn opened_behind<A: Allocator + Copy>(
    reading: Global,
    memory: A,
    site: &[u8],
    script: &[u8],
) -> Result<Internetwork<A>, Stop> {
    let mut world = opened(reading, memory, site)?;
    match take_steps(memory, &mut world, script) {
        Ok(()) => Ok(world.into_internetwork()),
        Err(stop) => {
            world.close();
            Err(stop)
        }
    }
}

/// Lets a row stray to each address.
fn run_row<A: Allocator + Copy>(
    given: Given<'_>,
    memory: A,
    world: &Internetwork<A>,
    row: &Row<'_>,
) -> Result<Counts, Stop> {
    let (word, _name) = two_words(row.asked);
    let octets = octets(given.alloc, word)?;
    let mut changed = 0u64;
    for to in [DEVICE, ROUTER, BEHIND, CLIENT, NOBODY, NOWHERE] {
        let strays = strays_at(given.alloc, memory, world, to)?;
        let came = stray_whole_and_changed(given, &strays, octets.as_slice());
        let Strays {
            memory: _memory,
            world: strayed,
            to: _to,
            wanted: _wanted,
        } = strays;
        strayed.close();
        changed = changed.saturating_add(came?);
    }
    Ok(Counts {
        rows: 1,
        refused: 0,
        changed,
    })
}

/// Lets octets stray as they are, cut and changed, and answers how many times they were changed.
fn stray_whole_and_changed<A: Allocator + Copy>(
    given: Given<'_>,
    strays: &Strays<A>,
    octets: &[u8],
) -> Result<u64, Stop> {
    strays.answer(given, octets)?;
    change_octets(given, strays, octets)
}

/// Worlds to which strays come at an address. They are not dropped, but closed.
struct Strays<A: Allocator + Copy> {
    memory: A,
    world: Internetwork<A>,
    to: Station,
    /// What is told of such a world.
    wanted: Vec<u8>,
}

/// Strays that come to a world at an address.
fn strays_at<A: Allocator + Copy>(
    alloc: Global,
    memory: A,
    world: &Internetwork<A>,
    to: Station,
) -> Result<Strays<A>, Stop> {
    let wanted = told_by_copy(alloc, memory, world)?;
    Ok(Strays {
        memory,
        world: world.copy()?,
        to,
        wanted,
    })
}

/// What is told of a copy of a world.
fn told_by_copy<A: Allocator + Copy>(
    alloc: Global,
    memory: A,
    world: &Internetwork<A>,
) -> Result<Vec<u8>, Stop> {
    let mut asked = world.copy()?;
    let said = told(alloc, memory, &mut asked);
    asked.close();
    said
}

impl<A: Allocator + Copy> Strays<A> {
    /// Lets octets stray to a world, and judges what comes of it.
    fn judge(&self, alloc: Global, world: &mut Internetwork<A>, octets: &[u8]) -> Result<(), Stop> {
        let came = world.stray(stranger_at(self.to), self.to, octets);
        if !is_fitting(self.to, came) {
            return Err(differs(alloc, "a refusal that a station has not"));
        }
        if came.is_err() && told(alloc, self.memory, world)?.as_slice() != self.wanted.as_slice() {
            return Err(differs(alloc, "a change where a stray was refused"));
        }
        Ok(())
    }
}

impl<'a, A: Allocator + Copy> Trial<'a> for Strays<A> {
    fn answer(&self, given: Given<'a>, octets: &[u8]) -> Result<String, Stop> {
        let mut world = self.world.copy()?;
        let judged = self.judge(given.alloc, &mut world, octets);
        world.close();
        judged?;
        Ok(String::new(given.alloc))
    }
}

/// Where a stray to an address comes from.
fn stranger_at(to: Station) -> Mac {
    match to.mac {
        Mac::One(_) => STRANGE_NODE,
        Mac::Six(_) => STRANGER,
    }
}

/// Whether this may come of a stray to an address.
fn is_fitting(to: Station, came: Result<(), Fault>) -> bool {
    match came {
        Ok(()) => to != NOBODY && to != NOWHERE,
        Err(Fault::NoSuch) => to == NOBODY || to == NOWHERE,
        Err(Fault::Short | Fault::BadTag | Fault::BadLength | Fault::BadVersion) => {
            to == DEVICE || to == ROUTER
        }
        Err(Fault::TableFull) => to == ROUTER || to == BEHIND,
        Err(_) => false,
    }
}

/// What a world puts out that is asked, and left to itself for a while.
fn told<A: Allocator + Copy>(
    alloc: Global,
    memory: A,
    world: &mut Internetwork<A>,
) -> Result<Vec<u8>, Stop> {
    for (to, words) in ASKED {
        world.stray(STRANGER, to, octets(alloc, words)?.as_slice())?;
    }
    for number in 0..world.items().len() {
        let _ = world.step(&Event::Deliver(number as u64));
    }
    world.step(&Event::Tick(3000))?;
    for name in NAMES {
        world.step(&Event::Wake(Items::from_slice(memory, name)?))?;
    }
    let mut told = Vec::new(alloc);
    told.extend_from_slice(&(world.said().len() as u64).to_be_bytes())?;
    told.extend_from_slice(&(world.history().len() as u64).to_be_bytes())?;
    for item in world.items() {
        push_item(item.octets.as_slice(), &mut told)?;
    }
    Ok(told)
}

/// Appends the octets of an item behind their number.
fn push_item(octets: &[u8], told: &mut Vec<u8>) -> Result<(), AllocError> {
    told.extend_from_slice(&(octets.len() as u64).to_be_bytes())?;
    told.extend_from_slice(octets)
}

/// Takes the steps of a script.
fn take_steps<A: Allocator + Copy>(
    memory: A,
    world: &mut World<A>,
    script: &[u8],
) -> Result<(), Stop> {
    let Ok(steps) = script_of(memory, script) else {
        return Err(Stop::Unread(Part::Asked));
    };
    for step in steps.into_vec() {
        match step {
            Step::Happens(event) => take(world, &event)?,
            Step::Flow(n) => flow(world, n)?,
            Step::Disturbs(_) | Step::Expects(_) | Step::Shows(_) => {
                return Err(Stop::Unread(Part::Asked));
            }
        }
    }
    Ok(())
}

/// An event happens.
fn take<A: Allocator + Copy>(world: &mut World<A>, event: &Event<A>) -> Result<(), Stop> {
    if !event.is_sound() {
        return Err(Stop::Unread(Part::Words));
    }
    world.step(event)?;
    Ok(())
}

/// Lets milliseconds pass.
fn flow<A: Allocator + Copy>(world: &mut World<A>, n: u64) -> Result<(), Stop> {
    let mut flow = Flow::new(n)?;
    for _ in 0..u64::MAX {
        match world.next_of(&mut flow)? {
            Some(event) => take(world, &event)?,
            None => break,
        }
    }
    Ok(())
}
