//! The standard's numbers and their names (18, 21).

ghost use Rattle.std.specs.Prelude.{◌≡◌, map};
ghost use Rattle.names.specs.Tables as spec;

/// A number of the standard, and its name there.
#[derive(Clone, Copy, Debug)]
pub struct Row {
    pub number: u32,
    pub name: &'static str,
}

/// Object types (21, BACnetObjectType).
#[rattlefmt::skip]
pub fn object_types() -> &'static [Row]
    ensures { map spec.row_of result.now ≡ spec.object_types }
{
    &[
        Row { number: 5, name: "binary-value" },
        Row { number: 8, name: "device" },
        Row { number: 19, name: "multi-state-value" },
        Row { number: 40, name: "characterstring-value" },
        Row { number: 45, name: "integer-value" },
    ]
}

/// Properties (21, BACnetPropertyIdentifier); `all`, `optional` and `required` stand for several (15.7.3.1.2).
#[rattlefmt::skip]
pub fn properties() -> &'static [Row]
    ensures { map spec.row_of result.now ≡ spec.properties }
{
    &[
        Row { number: 8, name: "all" },
        Row { number: 10, name: "apdu-segment-timeout" },
        Row { number: 11, name: "apdu-timeout" },
        Row { number: 12, name: "application-software-version" },
        Row { number: 28, name: "description" },
        Row { number: 30, name: "device-address-binding" },
        Row { number: 36, name: "event-state" },
        Row { number: 44, name: "firmware-revision" },
        Row { number: 62, name: "max-apdu-length-accepted" },
        Row { number: 70, name: "model-name" },
        Row { number: 73, name: "number-of-apdu-retries" },
        Row { number: 74, name: "number-of-states" },
        Row { number: 75, name: "object-identifier" },
        Row { number: 76, name: "object-list" },
        Row { number: 77, name: "object-name" },
        Row { number: 79, name: "object-type" },
        Row { number: 80, name: "optional" },
        Row { number: 81, name: "out-of-service" },
        Row { number: 85, name: "present-value" },
        Row { number: 87, name: "priority-array" },
        Row { number: 96, name: "protocol-object-types-supported" },
        Row { number: 97, name: "protocol-services-supported" },
        Row { number: 98, name: "protocol-version" },
        Row { number: 104, name: "relinquish-default" },
        Row { number: 105, name: "required" },
        Row { number: 107, name: "segmentation-supported" },
        Row { number: 111, name: "status-flags" },
        Row { number: 112, name: "system-status" },
        Row { number: 117, name: "units" },
        Row { number: 120, name: "vendor-identifier" },
        Row { number: 121, name: "vendor-name" },
        Row { number: 139, name: "protocol-revision" },
        Row { number: 155, name: "database-revision" },
        Row { number: 167, name: "max-segments-accepted" },
    ]
}

/// Error classes (18, 21, Error).
#[rattlefmt::skip]
pub fn error_classes() -> &'static [Row]
    ensures { map spec.row_of result.now ≡ spec.error_classes }
{
    &[
        Row { number: 0, name: "device" },
        Row { number: 1, name: "object" },
        Row { number: 2, name: "property" },
        Row { number: 3, name: "resources" },
        Row { number: 4, name: "security" },
        Row { number: 5, name: "services" },
    ]
}

/// Error codes (18, 21, Error).
#[rattlefmt::skip]
pub fn error_codes() -> &'static [Row]
    ensures { map spec.row_of result.now ≡ spec.error_codes }
{
    &[
        Row { number: 9, name: "invalid-data-type" },
        Row { number: 20, name: "no-space-to-write-property" },
        Row { number: 31, name: "unknown-object" },
        Row { number: 32, name: "unknown-property" },
        Row { number: 37, name: "value-out-of-range" },
        Row { number: 40, name: "write-access-denied" },
        Row { number: 41, name: "character-set-not-supported" },
        Row { number: 42, name: "invalid-array-index" },
        Row { number: 50, name: "property-is-not-an-array" },
    ]
}

/// Reasons of a Reject (18.9, 21, BACnetRejectReason).
#[rattlefmt::skip]
pub fn reject_reasons() -> &'static [Row]
    ensures { map spec.row_of result.now ≡ spec.reject_reasons }
{
    &[
        Row { number: 3, name: "invalid-parameter-data-type" },
        Row { number: 4, name: "invalid-tag" },
        Row { number: 5, name: "missing-required-parameter" },
        Row { number: 6, name: "parameter-out-of-range" },
        Row { number: 7, name: "too-many-arguments" },
        Row { number: 9, name: "unrecognized-service" },
    ]
}

/// Reasons of an Abort (18.10, 21, BACnetAbortReason).
#[rattlefmt::skip]
pub fn abort_reasons() -> &'static [Row]
    ensures { map spec.row_of result.now ≡ spec.abort_reasons }
{
    &[
        Row { number: 1, name: "buffer-overflow" },
        Row { number: 4, name: "segmentation-not-supported" },
        Row { number: 9, name: "out-of-resources" },
    ]
}

/// The states of a binary value (21, BACnetBinaryPV).
#[rattlefmt::skip]
pub fn binary_values() -> &'static [Row]
    ensures { map spec.row_of result.now ≡ spec.binary_values }
{
    &[
        Row { number: 0, name: "inactive" },
        Row { number: 1, name: "active" },
    ]
}
