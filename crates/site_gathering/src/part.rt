//! Which part of a run is shown.

use std::fmt;

/// The part of a run between two moments in milliseconds, both among it, of some stations and of some requests. Without
/// a moment it goes on from the beginning, or up to the end; without stations or requests it is of all.
#[derive(Clone, Copy)]
pub struct Part<'a> {
    pub from: Option<u64>,
    pub to: Option<u64>,
    /// Names of stations, with commas between them: what they send and receive is shown, and their events.
    pub only: Option<&'a str>,
    /// Numbers of requests: their messages are shown, and their events.
    pub requests: Option<&'a [u64]>,
}

impl Part<'_> {
    /// Whether a moment is among it.
    pub(crate) fn has(self, moment: u64) -> bool {
        self.from.unwrap_or(0) <= moment && moment <= self.to.unwrap_or(u64::MAX)
    }

    /// Whether it is of all stations and all requests.
    fn is_of_all(self) -> bool {
        self.only.is_none() && self.requests.is_none()
    }

    /// Whether it shows what belongs to a request, or to none.
    pub(crate) fn has_request(self, request: Option<u64>) -> bool {
        match (self.requests, request) {
            (None, _) => true,
            (Some(_), None) => false,
            (Some(requests), Some(request)) => requests.contains(&request),
        }
    }
}

/// The part in sentences: `The whole run.`, `From 20 ms to 40 ms. Stations: panel, ahu. Requests: 3, 4.`
impl fmt::Display for Part<'_> {
    fn fmt<W: fmt::Write>(&self, f: &mut fmt::Formatter<W>) -> fmt::Result {
        match (self.from, self.to) {
            (None, None) if self.is_of_all() => f.write_str("The whole run.")?,
            (None, None) => f.write_str("From the beginning to the end.")?,
            (Some(from), None) => write!(f, "From {from} ms to the end.")?,
            (None, Some(to)) => write!(f, "From the beginning to {to} ms.")?,
            (Some(from), Some(to)) => write!(f, "From {from} ms to {to} ms.")?,
        }
        if let Some(names) = self.only {
            fmt_names(names, f)?;
        }
        match self.requests {
            Some(requests) => fmt_requests(requests, f),
            None => Ok(()),
        }
    }
}

/// Writes the names of stations, which have commas between them.
fn fmt_names<W: fmt::Write>(names: &str, f: &mut fmt::Formatter<W>) -> fmt::Result {
    let mut before = " Stations: ";
    for name in names.split(',') {
        write!(f, "{before}{name}")?;
        before = ", ";
    }
    f.write_str(".")
}

/// Writes the numbers of requests.
fn fmt_requests<W: fmt::Write>(requests: &[u64], f: &mut fmt::Formatter<W>) -> fmt::Result {
    let mut before = " Requests: ";
    for request in requests {
        write!(f, "{before}{request}")?;
        before = ", ";
    }
    f.write_str(".")
}
