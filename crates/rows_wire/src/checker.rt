//! Whether a history is legal that was printed: issues are numbered in order; none is executed twice; each answer is
//! the reply of an execution of its issue; each issue has one end at most; and the replies of a device are those of its
//! objects, as they are when the requests are executed in that order from its opening objects on (12, 15).

use objects::Table;
use site_parts::Station;
use site_views::opening_objects;
use std::alloc::{AllocError, Allocator, Global};
use tags::Fault;
use words::{Words, parse_request};

/// An issue, and what came of it so far.
#[derive(Drop)]
struct Issue {
    instance: u32,
    request: String,
    /// What a device replied that executed it.
    reply: Option<String>,
    /// Whether its client was told of an end.
    is_over: bool,
}

/// A device, and its objects as executions left them.
#[derive(Drop)]
struct Device<A: Allocator> {
    instance: u32,
    table: Table<A>,
}

/// Who judges a history.
#[derive(Drop)]
pub struct Checker<A: Allocator + Copy> {
    /// Memory for words.
    alloc: Global,
    /// Memory for what devices hold and are asked.
    memory: A,
    devices: Vec<Device<A>>,
    issues: Vec<Issue>,
}

/// The devices of a site as they open.
fn devices_of<A: Allocator + Copy>(
    alloc: Global,
    memory: A,
    stations: &[Station<A>],
) -> Result<Vec<Device<A>>, Fault> {
    let mut devices = Vec::new(alloc);
    for station in stations {
        if let Some(objects) = opening_objects(memory, station)? {
            let instance = objects.instance;
            let table = Table::new(memory, objects)?;
            devices.push(Device { instance, table })?;
        }
    }
    Ok(devices)
}

/// What a device replies to a request in words, in words, once it has executed it.
fn executed<A: Allocator + Copy>(
    alloc: Global,
    memory: A,
    device: &mut Device<A>,
    request: &str,
) -> Result<String, Fault> {
    let Ok(request) = parse_request(memory, request) else {
        return Ok(String::from_str(alloc, "no request")?);
    };
    let reply = device.table.apply(&request)?;
    Ok(format!(in alloc; "{}", Words(&reply))?)
}

/// A number, and the words behind it.
fn number_and_words(words: &str) -> Option<(usize, &str)> {
    let (number, words) = words.split_once(' ')?;
    Some((number.parse::<usize>().ok()?, words))
}

impl<A: Allocator + Copy> Checker<A> {
    /// Who judges the history of a site with these stations.
    ///
    /// # Errors
    /// Want of memory.
    pub fn new(alloc: Global, memory: A, stations: &[Station<A>]) -> Result<Self, Fault> {
        Ok(Checker {
            alloc,
            memory,
            devices: devices_of(alloc, memory, stations)?,
            issues: Vec::new(alloc),
        })
    }

    /// Whether these lines are a legal history, with refusals among them.
    ///
    /// # Errors
    /// Want of memory.
    pub fn accepts_all(&mut self, printed: &str) -> Result<bool, Fault> {
        for line in printed.lines() {
            if !self.accepts(line)? {
                return Ok(false);
            }
        }
        Ok(true)
    }

    /// Whether a line may stand behind those before.
    fn accepts(&mut self, line: &str) -> Result<bool, Fault> {
        let (_, entry) = line.split_once(' ').unwrap_or((line, ""));
        let (kind, words) = entry.split_once(' ').unwrap_or((entry, ""));
        if line.starts_with("end ") || kind == "refused" {
            return Ok(true);
        }
        let Some((number, words)) = number_and_words(words) else {
            return Ok(false);
        };
        match kind {
            "issue" => Ok(self.is_issued(number, words)?),
            "executed" => self.is_executed(number, words),
            "answered" => Ok(self.is_answered(number, words)),
            "ended" => Ok(self.is_ended(number)),
            _ => Ok(false),
        }
    }

    /// An issue: `CLIENT INSTANCE REQUEST`. Whether it has the next number.
    fn is_issued(&mut self, number: usize, words: &str) -> Result<bool, AllocError> {
        let (_, words) = words.split_once(' ').unwrap_or((words, ""));
        let (instance, request) = words.split_once(' ').unwrap_or((words, ""));
        let Ok(instance) = instance.parse::<u32>() else {
            return Ok(false);
        };
        let is_next = number == self.issues.len();
        let request = String::from_str(self.alloc, request)?;
        self.issues.push(Issue {
            instance,
            request,
            reply: None,
            is_over: false,
        })?;
        Ok(is_next)
    }

    /// An execution, with this reply. Whether it is the first of its issue, and the reply that of the device's objects.
    fn is_executed(&mut self, number: usize, reply: &str) -> Result<bool, Fault> {
        let alloc = self.alloc;
        let Some(issue) = self.issues.get_mut(number) else {
            return Ok(false);
        };
        let is_first = issue.reply.is_none();
        issue.reply = Some(String::from_str(alloc, reply)?);
        let instance = issue.instance;
        let request = String::from_str(alloc, issue.request.as_str())?;
        let replied = self.replied(instance, request.as_str())?;
        Ok(is_first && replied.as_str() == reply)
    }

    /// What the device of an instance replies to a request, once it has executed it.
    fn replied(&mut self, instance: u32, request: &str) -> Result<String, Fault> {
        let (alloc, memory) = (self.alloc, self.memory);
        for device in self.devices.as_mut_slice() {
            if device.instance == instance {
                return executed(alloc, memory, device, request);
            }
        }
        Ok(String::from_str(alloc, "no device")?)
    }

    /// An answer, which is this reply. Whether it is the first end of its issue, and the reply that of its execution.
    fn is_answered(&mut self, number: usize, reply: &str) -> bool {
        let Some(issue) = self.issues.get_mut(number) else {
            return false;
        };
        let is_first = !issue.is_over;
        issue.is_over = true;
        is_first && issue.reply.as_deref() == Some(reply)
    }

    /// An end without a reply. Whether it is the first end of its issue.
    fn is_ended(&mut self, number: usize) -> bool {
        let Some(issue) = self.issues.get_mut(number) else {
            return false;
        };
        let is_first = !issue.is_over;
        issue.is_over = true;
        is_first
    }
}
