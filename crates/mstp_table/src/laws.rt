//! What holds of every step of a master node, whatever its state. A function without a body is a law: its contract.

ghost use Rattle.mstp_table.specs.Laws.{AnswersTheAsker, EachIsRound, HandsUpData, IdlesUntilDue, KeepsPlace};
ghost use Rattle.mstp_table.specs.Laws.{OthersAreQuiet, QueueCame, QueueIsKept, QueuedWaits};

use std::alloc::Allocator;

/// A call puts out nothing, one frame, or a data frame and one that passes the token or polls. A data frame goes out in
/// Use_Token or Answer_Data_Request alone, and is one that waited and is at most LIFE old, with its destination, octets
/// and stamp.
pub fn each_is_round<A: Allocator>()
    ensures { EachIsRound A }
{}

/// What waits in a node waits until it is put out or too old, and nothing waits that wasn't queued. A parcel is queued
/// as it is, behind the others.
pub fn queue_is_kept<A: Allocator>()
    ensures kept { QueueIsKept A }
    ensures came { QueueCame A }
    ensures queued { QueuedWaits A }
{}

/// A node keeps its address, and its moment is that of its last input.
pub fn keeps_place<A: Allocator>()
    ensures { KeepsPlace A }
{}

/// A frame that isn't for this station alone puts nothing out; in Answer_Data_Request a tick puts out to the asker
/// alone; only data that are for this station are handed up.
pub fn answers_who_asks<A: Allocator>()
    ensures quiet { OthersAreQuiet A }
    ensures asker { AnswersTheAsker A }
    ensures up { HandsUpData A }
{}

/// Where nothing is due, a tick puts nothing out, and changes the moment alone.
pub fn idles_until_due<A: Allocator>()
    ensures { IdlesUntilDue A }
{}
