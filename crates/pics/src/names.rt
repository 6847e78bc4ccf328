//! The names that the standard has for object types, properties and services (clauses 12 to 16 and 21).

use primitives::{ObjectType, Property};

/// The name of an object type.
pub(crate) fn type_name(object_type: ObjectType) -> &'static str {
    match object_type {
        ObjectType::BinaryValue => "Binary Value",
        ObjectType::Device => "Device",
        ObjectType::MultiStateValue => "Multi-state Value",
        ObjectType::CharacterStringValue => "CharacterString Value",
        ObjectType::IntegerValue => "Integer Value",
    }
}

/// The name of a property.
pub(crate) fn property_name(property: Property) -> &'static str {
    match property {
        Property::ApduSegmentTimeout => "APDU_Segment_Timeout",
        Property::ApduTimeout => "APDU_Timeout",
        Property::ApplicationSoftwareVersion => "Application_Software_Version",
        Property::Description => "Description",
        Property::DeviceAddressBinding => "Device_Address_Binding",
        Property::EventState => "Event_State",
        Property::FirmwareRevision => "Firmware_Revision",
        Property::MaxApduLengthAccepted => "Max_APDU_Length_Accepted",
        Property::ModelName => "Model_Name",
        Property::NumberOfApduRetries => "Number_Of_APDU_Retries",
        Property::NumberOfStates => "Number_Of_States",
        Property::ObjectIdentifier => "Object_Identifier",
        Property::ObjectList => "Object_List",
        Property::ObjectName => "Object_Name",
        Property::ObjectType => "Object_Type",
        Property::OutOfService => "Out_Of_Service",
        Property::PresentValue => "Present_Value",
        Property::PriorityArray => "Priority_Array",
        Property::ProtocolObjectTypesSupported => "Protocol_Object_Types_Supported",
        Property::ProtocolServicesSupported => "Protocol_Services_Supported",
        Property::ProtocolVersion => "Protocol_Version",
        Property::RelinquishDefault => "Relinquish_Default",
        Property::SegmentationSupported => "Segmentation_Supported",
        Property::StatusFlags => "Status_Flags",
        Property::SystemStatus => "System_Status",
        Property::Units => "Units",
        Property::VendorIdentifier => "Vendor_Identifier",
        Property::VendorName => "Vendor_Name",
        Property::ProtocolRevision => "Protocol_Revision",
        Property::DatabaseRevision => "Database_Revision",
        Property::MaxSegmentsAccepted => "Max_Segments_Accepted",
    }
}
