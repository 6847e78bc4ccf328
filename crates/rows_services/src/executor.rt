//! What executes requests (15, 19.2). `device 99 260 NAME | binary-value 1 NAME DESCRIPTION enum 1` opens a
//! device of one object; `reply REQUEST -> REPLY` writes nothing; `run REQUEST | READ -> REPLY` reads behind
//! it; `copy REQUEST | READ -> REPLY` is the same on a copy, and leaves the executor as it is. With `bare` in
//! front a reply is given, or a request runs, while each allocation is refused.

use crate::said::reply_in_words;
use objects::{SiteObject, SiteObjects, Table, ValueKind};
use primitives::Request;
use profile::LinkKind;
use services::{Executor, ObjectExecutor};
use sheets::{
    Counts, Given, Part, Report, Row, Stop, Trial, compare, differs, request_in, run_text,
    run_word, try_row, two_words,
};
use std::alloc::{AllocError, Allocator};
use tags::Items;
use words::{parse_number, parse_octets, parse_value};

/// An executor that a row opens.
pub(crate) trait Opens<A: Allocator>: Sized {
    /// Opens a device of one Binary Value, as words say.
    ///
    /// # Errors
    /// `Unread` where they say none, and `Memory`.
    fn open(memory: A, words: &str) -> Result<Self, Stop>;
}

impl<A: Allocator + Copy> Opens<A> for ObjectExecutor<A> {
    fn open(memory: A, words: &str) -> Result<Self, Stop> {
        let Some((device, object)) = words.split_once(" | binary-value ") else {
            return Err(Stop::Unread(Part::Asked));
        };
        let (instance, device) = two_words(device);
        let (vendor, name) = two_words(device);
        let instance = parse_number(instance)?;
        let vendor = parse_number(vendor)?;
        let name = parse_octets(memory, name)?;
        let mut objects = Items::new(memory);
        objects.push(binary_value(memory, object)?)?;
        let site = SiteObjects {
            name,
            instance,
            vendor,
            data_link: LinkKind::BacnetIp,
            objects,
        };
        Ok(ObjectExecutor {
            table: Table::new(memory, site)?,
        })
    }
}

/// Runs the rows of a file on the executor that a row opened last. It lies in `memory`, and the requests in `other`,
/// those of `given`.
pub(crate) fn run<A: Allocator + Copy>(
    given: Given<'_>,
    memory: A,
    other: A,
    rows: &[Row<'_>],
    report: &mut Report<'_>,
) -> Result<(), AllocError> {
    run_rows::<A, ObjectExecutor<A>>(given, memory, other, rows, report)
}

/// Runs the rows of a file on the executor of this type that a row opened last.
fn run_rows<A: Allocator + Copy, E: Executor<A> + Opens<A> + Drop>(
    given: Given<'_>,
    memory: A,
    other: A,
    rows: &[Row<'_>],
    report: &mut Report<'_>,
) -> Result<(), AllocError> {
    let mut opened: Option<E> = None;
    for row in rows {
        report.add(row, run_row(given, memory, other, &mut opened, row))?;
    }
    Ok(())
}

/// Runs a row.
fn run_row<A: Allocator + Copy, E: Executor<A> + Opens<A> + Drop>(
    given: Given<'_>,
    memory: A,
    other: A,
    opened: &mut Option<E>,
    row: &Row<'_>,
) -> Result<Counts, Stop> {
    let wanted = row.wanted()?;
    let (verb, rest) = two_words(row.asked);
    if verb == "device" {
        *opened = Some(E::open(memory, rest)?);
        return run_word(given, "opened", wanted);
    }
    match opened {
        Some(executor) => run_asked(given, other, executor, (verb, rest), wanted),
        None => Err(Stop::Unread(Part::Asked)),
    }
}

/// Runs a row that asks an executor for something.
fn run_asked<A: Allocator + Copy, E: Executor<A> + Drop>(
    given: Given<'_>,
    other: A,
    executor: &mut E,
    (verb, rest): (&str, &str),
    wanted: &str,
) -> Result<Counts, Stop> {
    match verb {
        "reply" => run_reply(given, other, &*executor, rest, wanted),
        "bare" => run_bare(given, other, executor, rest, wanted),
        "copy" => run_copied(given, other, &*executor, pair(rest)?, wanted),
        "run" => run_whole(given, other, executor, pair(rest)?, wanted),
        _ => Err(Stop::Unread(Part::Asked)),
    }
}

/// The request that runs, and the one that is read behind it.
fn pair(rest: &str) -> Result<(&str, &str), Stop> {
    match rest.split_once(" | ") {
        Some(pair) => Ok(pair),
        None => Err(Stop::Unread(Part::Asked)),
    }
}

/// What any executor replies to a request, both in words.
fn replied<A: Allocator + Copy, E: Executor<A>>(
    given: Given<'_>,
    other: A,
    executor: &E,
    request: &str,
) -> Result<String, Stop> {
    let request = request_in(other, request)?;
    replied_to(given, executor, &request)
}

/// What any executor replies to a request, in words. The memory that the request lies in is refused meanwhile.
fn replied_to<A: Allocator + Copy, E: Executor<A>>(
    given: Given<'_>,
    executor: &E,
    request: &Request<A>,
) -> Result<String, Stop> {
    given.other.refuse_all();
    let reply = executor.reply(request);
    given.other.refuse_only(0);
    reply_in_words(given.alloc, &reply?)
}

/// Whether any executor had the memory to run a request, while that in which the request lies is refused.
fn ran<A: Allocator + Copy, E: Executor<A>>(
    given: Given<'_>,
    other: A,
    executor: &mut E,
    request: &str,
) -> Result<bool, Stop> {
    let request = request_in(other, request)?;
    given.other.refuse_all();
    let is_done = executor.run(&request).is_ok();
    given.other.refuse_only(0);
    Ok(is_done)
}

/// Whether any executor had the memory to run a request, and what is read behind it, in words.
fn ran_and_read<A: Allocator + Copy, E: Executor<A>>(
    given: Given<'_>,
    other: A,
    executor: &mut E,
    (request, read): (&str, &str),
) -> Result<(bool, String), Stop> {
    let is_done = ran(given, other, executor, request)?;
    let found = replied(given, other, &*executor, read)?;
    Ok((is_done, found))
}

/// A request to which an executor replies. The request lies in `other`.
#[derive(Drop)]
struct Asked<'t, 'w, A: Allocator + Copy, E: Executor<A> + Drop> {
    other: A,
    executor: &'t E,
    request: &'w str,
}

impl<'t, 'w, 'a, A: Allocator + Copy, E: Executor<A> + Drop> Trial<'a> for Asked<'t, 'w, A, E> {
    fn answer(&self, given: Given<'a>, _octets: &[u8]) -> Result<String, Stop> {
        replied(given, self.other, self.executor, self.request)
    }
}

/// Runs a row of a reply, with each allocation refused in turn.
fn run_reply<A: Allocator + Copy, E: Executor<A> + Drop>(
    given: Given<'_>,
    other: A,
    executor: &E,
    request: &str,
    wanted: &str,
) -> Result<Counts, Stop> {
    let asked = Asked {
        other,
        executor,
        request,
    };
    try_row(given, &asked, &[], wanted)
}

/// A request that runs on a copy of an executor, and one that is read behind it. They lie in `other`.
#[derive(Drop)]
struct Runs<'t, 'w, A: Allocator + Copy, E: Executor<A> + Drop> {
    other: A,
    executor: &'t E,
    request: &'w str,
    read: &'w str,
}

impl<'t, 'w, 'a, A: Allocator + Copy, E: Executor<A> + Drop> Trial<'a> for Runs<'t, 'w, A, E> {
    fn answer(&self, given: Given<'a>, _octets: &[u8]) -> Result<String, Stop> {
        run_on_copy(given, self.other, self.executor, (self.request, self.read))
    }
}

/// What is read of a copy of an executor behind a request that runs on it, in words. The executor
/// stays as it is, and so does the copy where memory was refused.
fn run_on_copy<A: Allocator + Copy, E: Executor<A> + Drop>(
    given: Given<'_>,
    other: A,
    executor: &E,
    (request, read): (&str, &str),
) -> Result<String, Stop> {
    let before = replied(given, other, executor, read)?;
    let (is_done, found) = ran_copy(given, other, executor, (request, read))?;
    if replied(given, other, executor, read)? != before {
        return Err(differs(given.alloc, "a change by what runs on a copy"));
    }
    match is_done {
        true => Ok(found),
        false if found == before => Err(Stop::Memory),
        false => Err(differs(given.alloc, "a change where memory was refused")),
    }
}

/// Whether a copy of an executor had the memory to run a request, and what is read of it then, in words.
fn ran_copy<A: Allocator + Copy, E: Executor<A> + Drop>(
    given: Given<'_>,
    other: A,
    executor: &E,
    requests: (&str, &str),
) -> Result<(bool, String), Stop> {
    let mut copy = executor.copy()?;
    ran_and_read(given, other, &mut copy, requests)
}

/// Runs a request on copies of an executor, with each allocation refused in turn.
fn run_copied<A: Allocator + Copy, E: Executor<A> + Drop>(
    given: Given<'_>,
    other: A,
    executor: &E,
    (request, read): (&str, &str),
    wanted: &str,
) -> Result<Counts, Stop> {
    let runs = Runs {
        other,
        executor,
        request,
        read,
    };
    try_row(given, &runs, &[], wanted)
}

/// Runs a request on copies of an executor, and then on the executor.
fn run_whole<A: Allocator + Copy, E: Executor<A> + Drop>(
    given: Given<'_>,
    other: A,
    executor: &mut E,
    requests: (&str, &str),
    wanted: &str,
) -> Result<Counts, Stop> {
    let counts = run_copied(given, other, &*executor, requests, wanted)?;
    let (is_done, found) = ran_and_read(given, other, executor, requests)?;
    if !is_done {
        return Err(Stop::Memory);
    }
    compare(found, wanted)?;
    Ok(counts)
}

/// Runs a row of `reply REQUEST` or `run REQUEST` while each allocation is refused.
fn run_bare<A: Allocator + Copy, E: Executor<A>>(
    given: Given<'_>,
    other: A,
    executor: &mut E,
    rest: &str,
    wanted: &str,
) -> Result<Counts, Stop> {
    let (verb, request) = two_words(rest);
    match verb {
        "run" => run_bare_run(given, other, executor, request, wanted),
        _ => run_bare_reply(given, other, &*executor, request, wanted),
    }
}

/// Runs a row of what an executor replies while each allocation is refused.
fn run_bare_reply<A: Allocator + Copy, E: Executor<A>>(
    given: Given<'_>,
    other: A,
    executor: &E,
    request: &str,
    wanted: &str,
) -> Result<Counts, Stop> {
    given.memory.refuse_all();
    let text = replied(given, other, executor, request);
    given.memory.refuse_only(0);
    run_text(text?, wanted)
}

/// Runs a row of a request that an executor runs while each allocation is refused.
fn run_bare_run<A: Allocator + Copy, E: Executor<A>>(
    given: Given<'_>,
    other: A,
    executor: &mut E,
    request: &str,
    wanted: &str,
) -> Result<Counts, Stop> {
    given.memory.refuse_all();
    let is_done = ran(given, other, executor, request);
    given.memory.refuse_only(0);
    match is_done? {
        true => run_word(given, "done", wanted),
        false => Err(Stop::Memory),
    }
}

/// A Binary Value: its instance, name, description and default.
fn binary_value<A: Allocator + Copy>(memory: A, words: &str) -> Result<SiteObject<A>, Stop> {
    let (instance, rest) = two_words(words);
    let (name, rest) = two_words(rest);
    let (description, default) = two_words(rest);
    let instance = parse_number(instance)?;
    Ok(SiteObject {
        kind: ValueKind::Binary,
        instance,
        name: parse_octets(memory, name)?,
        description: parse_octets(memory, description)?,
        default: parse_value(memory, default)?,
    })
}
