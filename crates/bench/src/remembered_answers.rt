//! Remembered answers (ANSI/ASHRAE 135, clause 5.4.5): finding one, and executing a request with so many there.

use crate::clock::{Clock, Often, Work};
use apdu::ConfirmedService;
use npdu::{Mac, Station, Way};
use objects::{SiteObjects, Table};
use primitives::Request;
use profile::{KEEP_MS, LinkKind};
use remembered::{Asker, ListRecords, Record, Records, RememberedAnswer, SlabRecords};
use services::ObjectExecutor;
use std::alloc::{AllocError, Allocator, Global};
use std::io;
use tags::{Items, ObjectId};

/// How often a call is made.
const OFTEN: Often = Often {
    few: 1_000,
    timed: 1_000_000,
};

/// How many answers are remembered.
const COUNTS: [u8; 3] = [1, 8, 64];

/// A form of what remembers.
trait Form {
    /// None, in memory of `alloc`.
    fn none(alloc: Global) -> Self;

    /// Executes a request, and puts the record of it behind all others.
    fn run(
        &mut self,
        entry: Record<Global>,
        executor: &mut ObjectExecutor<Global>,
        request: &Request<Global>,
    ) -> Result<(), AllocError>;
}

impl Form for ListRecords<Global> {
    fn none(alloc: Global) -> Self {
        ListRecords::new(alloc)
    }

    fn run(
        &mut self,
        entry: Record<Global>,
        executor: &mut ObjectExecutor<Global>,
        request: &Request<Global>,
    ) -> Result<(), AllocError> {
        self.execute(entry, executor, request)
    }
}

impl Form for SlabRecords<Global> {
    fn none(alloc: Global) -> Self {
        SlabRecords::new(alloc)
    }

    fn run(
        &mut self,
        entry: Record<Global>,
        executor: &mut ObjectExecutor<Global>,
        request: &Request<Global>,
    ) -> Result<(), AllocError> {
        self.execute(entry, executor, request)
    }
}

/// The asker of this number, at a station of its own on BACnet/IP.
fn asker(number: u8) -> Asker {
    Asker {
        station: Station {
            net: 1,
            mac: Mac::Six([192, 168, 1, number, 0xBA, 0xC0]),
        },
        invoke_id: number,
    }
}

/// The record of a request of this asker, executed at this moment.
fn entry<A: Allocator>(asker: Asker, at: u64) -> Record<A> {
    Record {
        asker,
        service: ConfirmedService::ReadProperty,
        answer: RememberedAnswer::Simple,
        chunk: 475,
        at,
        way: Way {
            to: asker.station.mac,
            destination: None,
        },
        sending: None,
    }
}

/// A table of a device without objects.
fn table<A: Allocator + Copy>(alloc: A) -> io::Result<Table<A>> {
    let site = SiteObjects {
        name: Items::new(alloc),
        instance: 1,
        vendor: 260,
        data_link: LinkKind::BacnetIp,
        objects: Items::new(alloc),
    };
    match Table::new(alloc, site) {
        Ok(table) => Ok(table),
        Err(_) => Err(io::Error::from(AllocError)),
    }
}

/// The request for the name of a device.
fn request<A: Allocator>() -> Request<A> {
    Request::Read {
        object: ObjectId {
            object_type: 8,
            instance: 1,
        },
        property: 77,
        index: None,
    }
}

/// A device that remembers the answers to so many askers, of which one is executed at each moment from 0 on.
#[derive(Drop)]
struct Device<R: Drop> {
    records: R,
    executor: ObjectExecutor<Global>,
    request: Request<Global>,
    count: u8,
    now: u64,
}

impl<R: Records<Global> + Form + Drop> Device<R> {
    /// A device with so many records.
    fn new(alloc: Global, count: u8) -> io::Result<Device<R>> {
        let mut device = Device {
            records: R::none(alloc),
            executor: ObjectExecutor {
                table: table(alloc)?,
            },
            request: request(),
            count,
            now: 0,
        };
        for _ in 0..count {
            device.execute_next()?;
        }
        Ok(device)
    }

    /// Executes the next asker's request.
    fn execute_next(&mut self) -> Result<(), AllocError> {
        let number = (self.now % 65) as u8;
        let entry = entry(asker(number), self.now);
        self.records.run(entry, &mut self.executor, &self.request)?;
        self.now = self.now.saturating_add(1);
        Ok(())
    }
}

/// The next number below `count`, in turn.
fn next(number: u8, count: u8) -> u8 {
    let next = number.saturating_add(1);
    if next < count { next } else { 0 }
}

/// Finding each asker's record in turn.
#[derive(Drop)]
struct Finding<R: Drop>(Device<R>);

impl<R: Records<Global> + Form + Drop> Work for Finding<R> {
    fn go(&mut self, times: u64) -> Result<u64, AllocError> {
        let mut found = 0u64;
        let mut number = 0u8;
        for _ in 0..times {
            if let Some(entry) = self.0.records.find(asker(number)) {
                found = found
                    .saturating_add(entry.at.saturating_sub(u64::from(number)))
                    .saturating_add(1);
            }
            number = next(number, self.0.count);
        }
        Ok(found)
    }
}

/// Executing a request, and forgetting the oldest record.
#[derive(Drop)]
struct Executing<R: Drop>(Device<R>);

impl<R: Records<Global> + Form + Drop> Work for Executing<R> {
    fn go(&mut self, times: u64) -> Result<u64, AllocError> {
        for _ in 0..times {
            self.0.execute_next()?;
            let kept = self.0.now.saturating_sub(u64::from(self.0.count));
            self.0.records.forget_dead(kept.saturating_add(KEEP_MS));
        }
        Ok(self.0.records.len() as u64)
    }
}

/// Times finding in a form, with so many records there.
fn find_told<R: Records<Global> + Form + Drop>(clock: Clock<'_>, count: u8) -> io::Result<String> {
    let mut finding = Finding(Device::<R>::new(clock.alloc(), count)?);
    clock.told(OFTEN, "found", &mut finding)
}

/// Times executing in a form, with so many records there.
fn execute_told<R: Records<Global> + Form + Drop>(
    clock: Clock<'_>,
    count: u8,
) -> io::Result<String> {
    let mut executing = Executing(Device::<R>::new(clock.alloc(), count)?);
    clock.told(OFTEN, "remembered", &mut executing)
}

/// Times the calls of a form, and prints them.
fn run_form<R: Records<Global> + Form + Drop>(clock: Clock<'_>, name: &str) -> io::Result<()> {
    for count in COUNTS {
        let found = find_told::<R>(clock, count)?;
        let executed = execute_told::<R>(clock, count)?;
        let told = format!(in clock.alloc(); "find {found}, execute {executed}")?;
        let name = format!(in clock.alloc(); "{name} {count}")?;
        clock.print(name.as_str(), told.as_str())?;
    }
    Ok(())
}

/// Times the calls of both forms.
///
/// # Errors
/// Those of the clock and of printing, and want of memory.
pub(crate) fn run(clock: Clock<'_>) -> io::Result<()> {
    run_form::<ListRecords<Global>>(clock, "list")?;
    run_form::<SlabRecords<Global>>(clock, "keys")
}
