//! What is told, each on a line of its own.

use crate::part::Subject;
use crate::shown::{Common, Named, Row};
use profile::{
    MAX_DEVICES, MAX_FOREIGN_DEVICES, MAX_NETWORKS, MAX_OBJECTS, MAX_PEERS, MAX_TEXT_OCTETS,
};
use std::io::Write;
use std::{fmt, io};
use thiserror::Error;

/// The most broadcast managers of a network: each has the others as peers.
pub(crate) const MAX_MANAGERS: usize = MAX_PEERS + 1;

/// What is told of a site. What no file can say, since `site_text` refuses its key, is told without the
/// station that says it.
#[derive(Clone, Copy, Debug, Error)]
pub(crate) enum Told<'a> {
    #[error("there is no network")]
    NoNetwork,
    #[error("there are {0} networks, more than {MAX_NETWORKS}")]
    ManyNetworks(usize),
    #[error("a network's number is not 1 to 65534")]
    NetworkNumber,
    #[error("two networks have the number {0}")]
    SameNumber(u16),

    #[error("a station's name is not 1 to 32 letters and digits")]
    NoName,
    #[error("two stations have the name {name}: {first} and {second}")]
    SameName {
        name: &'a str,
        first: Row,
        second: Row,
    },
    #[error("stations are not in the order bbmd, router, device, client")]
    NoOrder,

    #[error("bbmd {0} is on a network of kind mstp")]
    ManagerOnBus(Named<'a>),
    #[error("router {0} has fewer than two ports")]
    FewPorts(Named<'a>),
    #[error("router {router} has two ports on network {network}")]
    SamePort {
        router: Named<'a>,
        network: u16,
    },

    #[error("{station} is on network {network}, which is not there")]
    NoSuchNetwork {
        station: Named<'a>,
        network: u16,
    },
    #[error("{station} has an address on network {network}, which is of kind mstp")]
    AddressOnBus {
        station: Named<'a>,
        network: u16,
    },
    #[error("{station} has a MAC on network {network}, which is of kind ip")]
    MacOnIp {
        station: Named<'a>,
        network: u16,
    },
    #[error("{0} is on no subnet from 1 to 255, or has no MAC from 0 to 127")]
    NoPlace(Named<'a>),

    #[error("there are {0} devices, more than {MAX_DEVICES}")]
    ManyDevices(usize),
    #[error("device {device} has {count} objects, more than {MAX_OBJECTS}")]
    ManyObjects {
        device: Named<'a>,
        count: usize,
    },
    #[error("device {device}: objects {first} and {second} are both {kind}:{instance}")]
    SameObject {
        device: Named<'a>,
        first: usize,
        second: usize,
        kind: u16,
        instance: u32,
    },
    #[error("device {device}: objects {first} and {second} have the same name")]
    SameObjectName {
        device: Named<'a>,
        first: usize,
        second: usize,
    },
    #[error("device {device}: object {object} has the device's name")]
    DeviceName {
        device: Named<'a>,
        object: usize,
    },
    #[error("device {device}: the {text} of object {object} has more than {MAX_TEXT_OCTETS} octets")]
    LongText {
        device: Named<'a>,
        object: usize,
        text: &'static str,
    },
    #[error("device {0} has objects that no device may have")]
    NoDevice(Named<'a>),

    #[error("two stations have {common}: {first} and {second}")]
    SameMark {
        common: Common,
        first: Named<'a>,
        second: Named<'a>,
    },
    #[error("router {router} has {common} twice")]
    MarkTwice {
        common: Common,
        router: Named<'a>,
    },
    #[error("{common} has two bbmds: {first} and {second}")]
    TwoManagers {
        common: Common,
        first: Named<'a>,
        second: Named<'a>,
    },

    #[error("network {network} has several subnets, and subnet {subnet}, where {station} is, has no bbmd")]
    NoManager {
        network: u16,
        subnet: u8,
        station: Named<'a>,
    },
    #[error("network {network} has {count} bbmds, more than {MAX_MANAGERS}")]
    ManyManagers {
        network: u16,
        count: usize,
    },
    #[error("{station} registers at {manager}, which is no bbmd")]
    NoHost {
        station: Named<'a>,
        manager: &'a str,
    },
    #[error("{station} registers at {manager}, which is not on network {network}")]
    HostElsewhere {
        station: Named<'a>,
        manager: &'a str,
        network: u16,
    },
    #[error("{0} registers for less than a second")]
    NoTime(Named<'a>),
    #[error("{count} stations register at {manager}, more than {MAX_FOREIGN_DEVICES}")]
    ManyBeyond {
        manager: &'a str,
        count: usize,
    },

    #[error("no router leads from network {first} to network {network}")]
    Apart {
        first: u16,
        network: u16,
    },
    #[error("router {router} closes a ring with its port on network {network}")]
    Ring {
        router: Named<'a>,
        network: u16,
    },
}

/// A fault of a site. It prints as a sentence.
#[derive(Clone, Copy, Debug)]
pub struct Fault<'a> {
    pub(crate) told: Told<'a>,
    /// What it is about; of two parts that may not both be there, the second.
    pub subject: Subject,
    /// The first of two such parts.
    pub first: Option<Subject>,
}

impl fmt::Display for Fault<'_> {
    fn fmt<W: fmt::Write>(&self, f: &mut fmt::Formatter<W>) -> fmt::Result {
        write!(f, "{}", self.told)
    }
}

impl<'a> Told<'a> {
    /// What is told, of a part.
    pub(crate) fn of(self, subject: Subject) -> Fault<'a> {
        Fault {
            told: self,
            subject,
            first: None,
        }
    }

    /// What is told, of two parts.
    pub(crate) fn of_both(self, first: Subject, second: Subject) -> Fault<'a> {
        Fault {
            told: self,
            subject: second,
            first: Some(first),
        }
    }
}

/// Who is told of faults.
pub trait Listener {
    /// Tells of a fault.
    ///
    /// # Errors
    /// A failed write, and want of memory (`OutOfMemory`).
    fn tell(&mut self, fault: Fault<'_>) -> io::Result<()>;
}

/// A writer has each fault on a line of its own.
impl<W: Write> Listener for W {
    fn tell(&mut self, fault: Fault<'_>) -> io::Result<()> {
        writeln!(self, "{fault}")
    }
}
