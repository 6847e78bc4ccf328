//! Services, the building blocks that they make (Annex K), and the device profile (Annex L).

use apdu::{ConfirmedService, UnconfirmedService};
use std::fmt;

/// Which side of a building block a station is (Annex K).
#[derive(Clone, Copy, Debug, PartialEq, Eq)]
pub(crate) enum Side {
    /// The one that asks.
    A,
    /// The one that is asked.
    B,
}

/// A building block, without its side (Annex K).
#[derive(Clone, Copy, Debug, PartialEq, Eq)]
pub(crate) enum Family {
    /// Data Sharing, ReadProperty.
    ReadProperty,
    /// Data Sharing, ReadPropertyMultiple.
    ReadPropertyMultiple,
    /// Data Sharing, WriteProperty.
    WriteProperty,
    /// Data Sharing, WritePropertyMultiple.
    WritePropertyMultiple,
    /// Device Management, Dynamic Device Binding.
    DynamicDeviceBinding,
    /// Device Management, Dynamic Object Binding.
    DynamicObjectBinding,
    /// Network Management, Foreign Device Registration.
    ForeignDeviceRegistration,
}

/// A building block (BIBB, Annex K).
#[derive(Clone, Copy, Debug, PartialEq, Eq)]
pub(crate) struct BuildingBlock {
    pub(crate) family: Family,
    pub(crate) side: Side,
}

/// Its name: `DS-RP-B`.
impl fmt::Display for BuildingBlock {
    fn fmt<W: fmt::Write>(&self, f: &mut fmt::Formatter<W>) -> fmt::Result {
        let side = match self.side {
            Side::A => 'A',
            Side::B => 'B',
        };
        let family = match self.family {
            Family::ReadProperty => "DS-RP",
            Family::ReadPropertyMultiple => "DS-RPM",
            Family::WriteProperty => "DS-WP",
            Family::WritePropertyMultiple => "DS-WPM",
            Family::DynamicDeviceBinding => "DM-DDB",
            Family::DynamicObjectBinding => "DM-DOB",
            Family::ForeignDeviceRegistration => "NM-FDR",
        };
        write!(f, "{family}-{side}")
    }
}

/// A service that asks a device for something: a confirmed one, or Who-Is.
#[derive(Clone, Copy, Debug, PartialEq, Eq)]
pub(crate) enum Asking {
    Confirmed(ConfirmedService),
    WhoIs,
}

/// All of them, in the order of the standard's clauses.
pub(crate) const ASKING: [Asking; 5] = [
    Asking::Confirmed(ConfirmedService::ReadProperty),
    Asking::Confirmed(ConfirmedService::ReadPropertyMultiple),
    Asking::Confirmed(ConfirmedService::WriteProperty),
    Asking::Confirmed(ConfirmedService::WritePropertyMultiple),
    Asking::WhoIs,
];

/// The place of the first unconfirmed service, I-Am, in Protocol_Services_Supported (21, BACnetServicesSupported).
const FIRST_UNCONFIRMED: u8 = 26;

impl Asking {
    /// Its place in Protocol_Services_Supported: for these confirmed services their numbers (21,
    /// BACnetServicesSupported).
    pub(crate) fn place(self) -> u8 {
        match self {
            Asking::Confirmed(service) => u8::from(service),
            Asking::WhoIs => u8::from(UnconfirmedService::WhoIs).saturating_add(FIRST_UNCONFIRMED),
        }
    }

    /// Its name.
    pub(crate) fn name(self) -> &'static str {
        match self {
            Asking::Confirmed(ConfirmedService::ReadProperty) => "ReadProperty",
            Asking::Confirmed(ConfirmedService::ReadPropertyMultiple) => "ReadPropertyMultiple",
            Asking::Confirmed(ConfirmedService::WriteProperty) => "WriteProperty",
            Asking::Confirmed(ConfirmedService::WritePropertyMultiple) => "WritePropertyMultiple",
            Asking::WhoIs => "Who-Is",
        }
    }

    /// The building block that it makes.
    pub(crate) fn family(self) -> Family {
        match self {
            Asking::Confirmed(ConfirmedService::ReadProperty) => Family::ReadProperty,
            Asking::Confirmed(ConfirmedService::ReadPropertyMultiple) => {
                Family::ReadPropertyMultiple
            }
            Asking::Confirmed(ConfirmedService::WriteProperty) => Family::WriteProperty,
            Asking::Confirmed(ConfirmedService::WritePropertyMultiple) => {
                Family::WritePropertyMultiple
            }
            Asking::WhoIs => Family::DynamicDeviceBinding,
        }
    }
}

/// What the profile B-SA, BACnet Smart Actuator, asks for (Annex L).
pub(crate) const SMART_ACTUATOR: [BuildingBlock; 4] = [
    BuildingBlock {
        family: Family::ReadProperty,
        side: Side::B,
    },
    BuildingBlock {
        family: Family::WriteProperty,
        side: Side::B,
    },
    BuildingBlock {
        family: Family::DynamicDeviceBinding,
        side: Side::B,
    },
    BuildingBlock {
        family: Family::DynamicObjectBinding,
        side: Side::B,
    },
];
