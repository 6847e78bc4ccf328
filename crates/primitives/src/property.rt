//! Properties (clause 12; 21, BACnetPropertyIdentifier).

ghost use Rattle.std.specs.Prelude.{◌≡◌, MatchResult};
ghost use Rattle.primitives.specs.Numbers.{property_number, NoProperty};
ghost use Rattle.primitives.specs.Properties.{is_required, is_array};
ghost use Rattle.tags.specs.declared.fault.Fault.TheVariants.{NoSuch};

use tags::Fault;

/// Stands for all properties of an object in ReadPropertyMultiple (15.7.3.1.2).
pub const ALL_PROPERTIES: u32 = 8;

/// Stands for its optional properties (15.7.3.1.2).
pub const OPTIONAL_PROPERTIES: u32 = 80;

/// Stands for its required properties (15.7.3.1.2).
pub const REQUIRED_PROPERTIES: u32 = 105;

/// The properties that this product has (21, BACnetPropertyIdentifier), with the standard's numbers.
#[derive(Clone, Copy, Debug, PartialEq, Eq)]
pub enum Property {
    /// APDU_Segment_Timeout.
    ApduSegmentTimeout = 10,
    /// APDU_Timeout.
    ApduTimeout = 11,
    /// Application_Software_Version.
    ApplicationSoftwareVersion = 12,
    /// Description.
    Description = 28,
    /// Device_Address_Binding.
    DeviceAddressBinding = 30,
    /// Event_State.
    EventState = 36,
    /// Firmware_Revision.
    FirmwareRevision = 44,
    /// Max_APDU_Length_Accepted.
    MaxApduLengthAccepted = 62,
    /// Model_Name.
    ModelName = 70,
    /// Number_Of_APDU_Retries.
    NumberOfApduRetries = 73,
    /// Number_Of_States.
    NumberOfStates = 74,
    /// Object_Identifier.
    ObjectIdentifier = 75,
    /// Object_List.
    ObjectList = 76,
    /// Object_Name.
    ObjectName = 77,
    /// Object_Type.
    ObjectType = 79,
    /// Out_Of_Service.
    OutOfService = 81,
    /// Present_Value.
    PresentValue = 85,
    /// Priority_Array.
    PriorityArray = 87,
    /// Protocol_Object_Types_Supported.
    ProtocolObjectTypesSupported = 96,
    /// Protocol_Services_Supported.
    ProtocolServicesSupported = 97,
    /// Protocol_Version.
    ProtocolVersion = 98,
    /// Relinquish_Default.
    RelinquishDefault = 104,
    /// Segmentation_Supported.
    SegmentationSupported = 107,
    /// Status_Flags.
    StatusFlags = 111,
    /// System_Status.
    SystemStatus = 112,
    /// Units.
    Units = 117,
    /// Vendor_Identifier.
    VendorIdentifier = 120,
    /// Vendor_Name.
    VendorName = 121,
    /// Protocol_Revision.
    ProtocolRevision = 139,
    /// Database_Revision.
    DatabaseRevision = 155,
    /// Max_Segments_Accepted.
    MaxSegmentsAccepted = 167,
}

impl Property {
    /// Whether every object of a type that has it must have it (conformance code R, and not O).
    pub fn is_required(self) -> bool
        ensures { result ≡ is_required self }
    {
        !matches!(
            self,
            Property::PriorityArray | Property::RelinquishDefault | Property::Description
        )
    }

    /// Whether it is an array, whose elements have an index from 1.
    pub fn is_array(self) -> bool
        ensures { result ≡ is_array self }
    {
        matches!(self, Property::PriorityArray | Property::ObjectList)
    }
}

impl From<Property> for u32 {
    ghost from_gives = { λ property number. number ≡ property_number property };

    fn from(property: Property) -> u32 {
        property as u32
    }
}

/// The property of a number; one that this product does not have is refused as `NoSuch`.
impl TryFrom<u32> for Property {
    type Error = Fault;

    ghost try_from_gives = { λ number result. MatchResult result (λ property. property_number property ≡ number)
        (λ fault. (fault ≡ NoSuch) × NoProperty number) };

    fn try_from(number: u32) -> Result<Property, Fault> {
        Ok(match number {
            10 => Property::ApduSegmentTimeout,
            11 => Property::ApduTimeout,
            12 => Property::ApplicationSoftwareVersion,
            28 => Property::Description,
            30 => Property::DeviceAddressBinding,
            36 => Property::EventState,
            44 => Property::FirmwareRevision,
            62 => Property::MaxApduLengthAccepted,
            70 => Property::ModelName,
            73 => Property::NumberOfApduRetries,
            74 => Property::NumberOfStates,
            75 => Property::ObjectIdentifier,
            76 => Property::ObjectList,
            77 => Property::ObjectName,
            79 => Property::ObjectType,
            81 => Property::OutOfService,
            85 => Property::PresentValue,
            87 => Property::PriorityArray,
            96 => Property::ProtocolObjectTypesSupported,
            97 => Property::ProtocolServicesSupported,
            98 => Property::ProtocolVersion,
            104 => Property::RelinquishDefault,
            107 => Property::SegmentationSupported,
            111 => Property::StatusFlags,
            112 => Property::SystemStatus,
            117 => Property::Units,
            120 => Property::VendorIdentifier,
            121 => Property::VendorName,
            139 => Property::ProtocolRevision,
            155 => Property::DatabaseRevision,
            167 => Property::MaxSegmentsAccepted,
            _ => return Err(Fault::NoSuch),
        })
    }
}
