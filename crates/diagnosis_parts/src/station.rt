//! What a capture shows of a station.

use apdu::{IAm, Segmentation};

/// What a device says of itself in its I-Am (16.10.3).
#[derive(Clone, Copy)]
pub struct Identity {
    /// The Device object's instance.
    pub instance: u32,
    /// How many octets an APDU to it has at most.
    pub max_apdu: u32,
    /// Whether it takes and sends segments.
    pub segmentation: Segmentation,
    /// The vendor's identifier.
    pub vendor: u32,
}

impl From<IAm> for Identity {
    fn from(i_am: IAm) -> Identity {
        Identity {
            instance: i_am.instance,
            max_apdu: i_am.max_apdu,
            segmentation: i_am.segmentation,
            vendor: i_am.vendor,
        }
    }
}

/// What a station does beside reading and being read.
#[derive(Clone, Copy)]
pub enum Role {
    /// It announces networks (6.4.2).
    Router,
    /// It forwards broadcasts between subnets (J.4.2).
    Manager,
    /// It registers with a manager (J.5.2).
    ForeignDevice,
}

/// What a capture shows of a station.
#[derive(Clone, Copy)]
pub struct Station {
    /// The number of its first packet.
    pub first: u64,
    /// How many packets it sent.
    pub packets: u64,
    /// What it says of itself.
    pub identity: Option<Identity>,
    /// Whether it announces networks (6.4.2).
    pub is_router: bool,
    /// Whether it forwards broadcasts between subnets (J.4.2).
    pub is_manager: bool,
    /// Whether it registers with a manager (J.5.2).
    pub is_foreign_device: bool,
}

impl Station {
    /// A station that has sent nothing before the packet of this number.
    pub fn new(first: u64) -> Station {
        Station {
            first,
            packets: 0,
            identity: None,
            is_router: false,
            is_manager: false,
            is_foreign_device: false,
        }
    }

    /// After another packet.
    pub fn heard(self) -> Station {
        Station {
            packets: self.packets.saturating_add(1),
            ..self
        }
    }

    /// After its I-Am.
    pub fn identified(self, i_am: IAm) -> Station {
        Station {
            identity: Some(Identity::from(i_am)),
            ..self
        }
    }

    /// After it did something that stations of this role do.
    pub fn with_role(self, role: Role) -> Station {
        match role {
            Role::Router => Station {
                is_router: true,
                ..self
            },
            Role::Manager => Station {
                is_manager: true,
                ..self
            },
            Role::ForeignDevice => Station {
                is_foreign_device: true,
                ..self
            },
        }
    }
}
