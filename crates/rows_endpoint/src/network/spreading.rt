//! Who hears a broadcast: `47810: 47808 47810 by 47808 serving 47824 | 47809 47811 by 47809 -> 47824 47811`, of
//! the member at 47810 in two subnets. In each stand its members, behind `by` its manager, behind `serving` the foreign
//! devices that have registered there.

use crate::network::addresses::{addresses, at_port, port, push_address};
use bbmd::{Bbmd, SiteTables, Subnet, spread};
use bvll::Address;
use sheets::{Counts, Given, Part, Stop, differs, run_refused};
use std::alloc::{AllocError, Allocator, Global};
use tags::Items;

/// How many allocations of a call are refused at most.
const MANY: u64 = 200;

/// Asks for 60 seconds (J.2.6).
const REGISTER: [u8; 6] = [0x81, 0x05, 0x00, 0x06, 0x00, 0x3C];

/// The words of a subnet: its members, its manager, and whom that serves.
#[derive(Clone, Copy)]
struct Words<'r> {
    members: &'r str,
    manager: Option<&'r str>,
    serving: &'r str,
}

/// The words of a subnet.
fn words_of(text: &str) -> Words<'_> {
    let Some((members, rest)) = text.split_once(" by ") else {
        return Words {
            members: text,
            manager: None,
            serving: "",
        };
    };
    let (manager, serving) = match rest.split_once(" serving ") {
        Some(parts) => parts,
        None => (rest, ""),
    };
    Words {
        members,
        manager: Some(manager),
        serving,
    }
}

/// The addresses of all managers.
fn managers(alloc: Global, subnets: &str) -> Result<Vec<Address>, Stop> {
    let mut all = Vec::new(alloc);
    for text in subnets.split(" | ") {
        if let Some(manager) = words_of(text).manager {
            all.push(at_port(port(manager)?))?;
        }
    }
    Ok(all)
}

/// A manager at this address with these members and managers, at which these foreign devices have registered.
fn manager_of<A: Allocator + Copy>(
    memory: A,
    own: Address,
    members: &[Address],
    managers: &[Address],
    serving: &[Address],
) -> Result<Bbmd<A>, Stop> {
    if !managers.contains(&own) {
        return Err(Stop::Unread(Part::Asked));
    }
    let Ok(mut manager) = Bbmd::new(memory, own, members, managers) else {
        return Err(Stop::Unread(Part::Asked));
    };
    for device in serving {
        if manager.moment() > 0 || manager.on_datagram(*device, &REGISTER, 0).is_err() {
            return Err(Stop::Unread(Part::Asked));
        }
    }
    Ok(manager)
}

/// A subnet.
fn subnet<A: Allocator + Copy>(
    alloc: Global,
    memory: A,
    words: Words<'_>,
    managers: &[Address],
) -> Result<Subnet<A>, Stop> {
    let all = addresses(alloc, words.members)?;
    let serving = addresses(alloc, words.serving)?;
    let manager = match words.manager {
        None => None,
        Some(own) => {
            let own = at_port(port(own)?);
            Some(manager_of(memory, own, all.as_slice(), managers, serving.as_slice())?)
        }
    };
    Ok(Subnet {
        members: Items::from_slice(memory, all.as_slice())?,
        manager,
    })
}

/// All subnets.
fn subnets<A: Allocator + Copy>(
    alloc: Global,
    memory: A,
    text: &str,
    managers: &[Address],
) -> Result<Items<Subnet<A>, A>, Stop> {
    let mut subnets = Items::new(memory);
    for words in text.split(" | ") {
        subnets.push(subnet(alloc, memory, words_of(words), managers)?)?;
    }
    Ok(subnets)
}

/// Tables at the moment 0.
fn tables<A: Allocator + Copy>(
    alloc: Global,
    memory: A,
    text: &str,
) -> Result<SiteTables<A>, Stop> {
    let managers = managers(alloc, text)?;
    Ok(SiteTables {
        moment: 0,
        subnets: subnets(alloc, memory, text, managers.as_slice())?,
    })
}

/// Who hears, in words.
fn push_all(all: &[Address], out: &mut String) -> Result<(), AllocError> {
    let mut mark = "";
    for address in all {
        out.push_str(mark)?;
        push_address(*address, out)?;
        mark = " ";
    }
    if mark.is_empty() {
        out.push('-')?;
    }
    Ok(())
}

/// Who hears a broadcast of this origin, in words.
fn heard<A: Allocator + Copy>(
    alloc: Global,
    memory: A,
    tables: &SiteTables<A>,
    origin: Address,
) -> Result<String, Stop> {
    let all = spread(memory, tables, origin)?;
    let mut found = String::new(alloc);
    push_all(all.as_slice(), &mut found)?;
    Ok(found)
}

/// Spreads a broadcast with each allocation of the call refused in turn, until none is.
fn try_spread<A: Allocator + Copy>(
    given: Given<'_>,
    memory: A,
    tables: &SiteTables<A>,
    origin: Address,
    wanted: &str,
) -> Result<Counts, Stop> {
    for refused in 0..MANY {
        given.memory.refuse_only(refused + 1);
        let came = heard(given.alloc, memory, tables, origin);
        let is_met = !given.memory.is_waiting();
        given.memory.refuse_only(0);
        match came {
            Err(Stop::Memory) if is_met => {}
            Ok(found) if !is_met => return run_refused(found, refused, wanted),
            _ => return Err(differs(
                given.alloc,
                "want of memory where there was enough, or the reverse",
            )),
        }
    }
    Err(differs(given.alloc, "a call that is refused memory again and again"))
}

/// Runs a row in this memory, that of `given`.
pub(crate) fn run<A: Allocator + Copy>(
    given: Given<'_>,
    memory: A,
    asked: &str,
    wanted: &str,
) -> Result<Counts, Stop> {
    let Some((origin, subnets)) = asked.split_once(": ") else {
        return Err(Stop::Unread(Part::Asked));
    };
    let origin = at_port(port(origin)?);
    let tables = tables(given.alloc, memory, subnets)?;
    try_spread(given, memory, &tables, origin, wanted)
}
