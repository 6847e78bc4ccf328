//! The numbers that headers and tags hold, and their names, written as the standard writes them (6, 15, 16, 20, 21,
//! J.2).

ghost use Rattle.std.specs.Prelude.{◌≡◌, map};
ghost use Rattle.names.specs.Headers as spec;
ghost use Rattle.names.specs.Tables.{row_of};

use crate::tables::Row;

/// Functions of the virtual link layer on BACnet/IP (J.2).
#[rattlefmt::skip]
pub fn bvll_functions() -> &'static [Row]
    ensures { map row_of result.now ≡ spec.bvll_functions }
{
    &[
        Row { number: 0, name: "BVLC-Result" },
        Row { number: 1, name: "Write-Broadcast-Distribution-Table" },
        Row { number: 2, name: "Read-Broadcast-Distribution-Table" },
        Row { number: 3, name: "Read-Broadcast-Distribution-Table-Ack" },
        Row { number: 4, name: "Forwarded-NPDU" },
        Row { number: 5, name: "Register-Foreign-Device" },
        Row { number: 6, name: "Read-Foreign-Device-Table" },
        Row { number: 7, name: "Read-Foreign-Device-Table-Ack" },
        Row { number: 8, name: "Delete-Foreign-Device-Table-Entry" },
        Row { number: 9, name: "Distribute-Broadcast-To-Network" },
        Row { number: 10, name: "Original-Unicast-NPDU" },
        Row { number: 11, name: "Original-Broadcast-NPDU" },
    ]
}

/// Codes of a BVLC-Result (J.2.1).
#[rattlefmt::skip]
pub fn bvll_results() -> &'static [Row]
    ensures { map row_of result.now ≡ spec.bvll_results }
{
    &[
        Row { number: 0, name: "Successful-completion" },
        Row { number: 16, name: "Write-Broadcast-Distribution-Table-NAK" },
        Row { number: 32, name: "Read-Broadcast-Distribution-Table-NAK" },
        Row { number: 48, name: "Register-Foreign-Device-NAK" },
        Row { number: 64, name: "Read-Foreign-Device-Table-NAK" },
        Row { number: 80, name: "Delete-Foreign-Device-Table-Entry-NAK" },
        Row { number: 96, name: "Distribute-Broadcast-To-Network-NAK" },
    ]
}

/// Network priorities (6.2.2).
#[rattlefmt::skip]
pub fn network_priorities() -> &'static [Row]
    ensures { map row_of result.now ≡ spec.network_priorities }
{
    &[
        Row { number: 0, name: "normal-message" },
        Row { number: 1, name: "urgent-message" },
        Row { number: 2, name: "critical-equipment-message" },
        Row { number: 3, name: "life-safety-message" },
    ]
}

/// Types of network layer messages (6.2.4).
#[rattlefmt::skip]
pub fn network_messages() -> &'static [Row]
    ensures { map row_of result.now ≡ spec.network_messages }
{
    &[
        Row { number: 0, name: "Who-Is-Router-To-Network" },
        Row { number: 1, name: "I-Am-Router-To-Network" },
        Row { number: 2, name: "I-Could-Be-Router-To-Network" },
        Row { number: 3, name: "Reject-Message-To-Network" },
        Row { number: 4, name: "Router-Busy-To-Network" },
        Row { number: 5, name: "Router-Available-To-Network" },
        Row { number: 6, name: "Initialize-Routing-Table" },
        Row { number: 7, name: "Initialize-Routing-Table-Ack" },
        Row { number: 8, name: "Establish-Connection-To-Network" },
        Row { number: 9, name: "Disconnect-Connection-To-Network" },
        Row { number: 10, name: "Challenge-Request" },
        Row { number: 11, name: "Security-Payload" },
        Row { number: 12, name: "Security-Response" },
        Row { number: 13, name: "Request-Key-Update" },
        Row { number: 14, name: "Update-Key-Set" },
        Row { number: 15, name: "Update-Distribution-Key" },
        Row { number: 16, name: "Request-Master-Key" },
        Row { number: 17, name: "Set-Master-Key" },
        Row { number: 18, name: "What-Is-Network-Number" },
        Row { number: 19, name: "Network-Number-Is" },
    ]
}

/// Types of APDUs (20.1).
#[rattlefmt::skip]
pub fn pdu_types() -> &'static [Row]
    ensures { map row_of result.now ≡ spec.pdu_types }
{
    &[
        Row { number: 0, name: "Confirmed-Request" },
        Row { number: 1, name: "Unconfirmed-Request" },
        Row { number: 2, name: "SimpleACK" },
        Row { number: 3, name: "ComplexACK" },
        Row { number: 4, name: "SegmentACK" },
        Row { number: 5, name: "Error" },
        Row { number: 6, name: "Reject" },
        Row { number: 7, name: "Abort" },
    ]
}

/// Confirmed services (21, BACnetConfirmedServiceChoice).
#[rattlefmt::skip]
pub fn confirmed_services() -> &'static [Row]
    ensures { map row_of result.now ≡ spec.confirmed_services }
{
    &[
        Row { number: 0, name: "AcknowledgeAlarm" },
        Row { number: 1, name: "ConfirmedCOVNotification" },
        Row { number: 2, name: "ConfirmedEventNotification" },
        Row { number: 3, name: "GetAlarmSummary" },
        Row { number: 4, name: "GetEnrollmentSummary" },
        Row { number: 5, name: "SubscribeCOV" },
        Row { number: 6, name: "AtomicReadFile" },
        Row { number: 7, name: "AtomicWriteFile" },
        Row { number: 8, name: "AddListElement" },
        Row { number: 9, name: "RemoveListElement" },
        Row { number: 10, name: "CreateObject" },
        Row { number: 11, name: "DeleteObject" },
        Row { number: 12, name: "ReadProperty" },
        Row { number: 13, name: "ReadPropertyConditional" },
        Row { number: 14, name: "ReadPropertyMultiple" },
        Row { number: 15, name: "WriteProperty" },
        Row { number: 16, name: "WritePropertyMultiple" },
        Row { number: 17, name: "DeviceCommunicationControl" },
        Row { number: 18, name: "ConfirmedPrivateTransfer" },
        Row { number: 19, name: "ConfirmedTextMessage" },
        Row { number: 20, name: "ReinitializeDevice" },
        Row { number: 21, name: "VT-Open" },
        Row { number: 22, name: "VT-Close" },
        Row { number: 23, name: "VT-Data" },
        Row { number: 24, name: "Authenticate" },
        Row { number: 25, name: "RequestKey" },
        Row { number: 26, name: "ReadRange" },
        Row { number: 27, name: "LifeSafetyOperation" },
        Row { number: 28, name: "SubscribeCOVProperty" },
        Row { number: 29, name: "GetEventInformation" },
        Row { number: 30, name: "SubscribeCOVPropertyMultiple" },
        Row { number: 31, name: "ConfirmedCOVNotificationMultiple" },
    ]
}

/// Unconfirmed services (21, BACnetUnconfirmedServiceChoice).
#[rattlefmt::skip]
pub fn unconfirmed_services() -> &'static [Row]
    ensures { map row_of result.now ≡ spec.unconfirmed_services }
{
    &[
        Row { number: 0, name: "I-Am" },
        Row { number: 1, name: "I-Have" },
        Row { number: 2, name: "UnconfirmedCOVNotification" },
        Row { number: 3, name: "UnconfirmedEventNotification" },
        Row { number: 4, name: "UnconfirmedPrivateTransfer" },
        Row { number: 5, name: "UnconfirmedTextMessage" },
        Row { number: 6, name: "TimeSynchronization" },
        Row { number: 7, name: "Who-Has" },
        Row { number: 8, name: "Who-Is" },
        Row { number: 9, name: "UTCTimeSynchronization" },
        Row { number: 10, name: "WriteGroup" },
        Row { number: 11, name: "UnconfirmedCOVNotificationMultiple" },
    ]
}

/// How many segments a requester takes (20.1.2.4).
#[rattlefmt::skip]
pub fn max_segments() -> &'static [Row]
    ensures { map row_of result.now ≡ spec.max_segments }
{
    &[
        Row { number: 0, name: "unspecified" },
        Row { number: 1, name: "2" },
        Row { number: 2, name: "4" },
        Row { number: 3, name: "8" },
        Row { number: 4, name: "16" },
        Row { number: 5, name: "32" },
        Row { number: 6, name: "64" },
        Row { number: 7, name: "more-than-64" },
    ]
}

/// How many octets an APDU to a requester has at most (20.1.2.5).
#[rattlefmt::skip]
pub fn max_apdus() -> &'static [Row]
    ensures { map row_of result.now ≡ spec.max_apdus }
{
    &[
        Row { number: 0, name: "50" },
        Row { number: 1, name: "128" },
        Row { number: 2, name: "206" },
        Row { number: 3, name: "480" },
        Row { number: 4, name: "1024" },
        Row { number: 5, name: "1476" },
    ]
}

/// What a device can segment (21, BACnetSegmentation).
#[rattlefmt::skip]
pub fn segmentations() -> &'static [Row]
    ensures { map row_of result.now ≡ spec.segmentations }
{
    &[
        Row { number: 0, name: "segmented-both" },
        Row { number: 1, name: "segmented-transmit" },
        Row { number: 2, name: "segmented-receive" },
        Row { number: 3, name: "no-segmentation" },
    ]
}

/// Types of application-tagged data (20.2.1.4).
#[rattlefmt::skip]
pub fn data_types() -> &'static [Row]
    ensures { map row_of result.now ≡ spec.data_types }
{
    &[
        Row { number: 0, name: "null" },
        Row { number: 1, name: "boolean" },
        Row { number: 2, name: "unsigned" },
        Row { number: 3, name: "signed" },
        Row { number: 4, name: "real" },
        Row { number: 5, name: "double" },
        Row { number: 6, name: "octet-string" },
        Row { number: 7, name: "character-string" },
        Row { number: 8, name: "bit-string" },
        Row { number: 9, name: "enumerated" },
        Row { number: 10, name: "date" },
        Row { number: 11, name: "time" },
        Row { number: 12, name: "object-identifier" },
    ]
}
