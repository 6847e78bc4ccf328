//! What holds of tables and requests (clauses 15 and 19.2). A function without a body
//! is a law: its contract, for the proofs of the layers above.

ghost use Rattle.objects.specs.Laws.{LeavesSound, RepliesSound, AnswersRequest, WriteLeavesShape, ShapeRefuses};
ghost use Rattle.objects.specs.Laws.{RepliesFirstFailure, WritesEndAtFailure, DoneIsWritten, ReadingChangesNothing};
ghost use Rattle.objects.specs.Laws.{RequestLeavesShape, RequestLeavesIdentifiers, RequestLeavesNames};
ghost use Rattle.objects.specs.Laws.{RequestLeavesTypes, RequestLeavesObjectList, WriteLeavesOtherObjects};
ghost use Rattle.objects.specs.Laws.{WriteLeavesOtherReads, WriteLeavesOtherProperties, CommandLeavesOtherLevels};
ghost use Rattle.objects.specs.Laws.{PresentIsInForce, CommandReadsBack, CommandShows, WriteReadsBack};

use std::alloc::Allocator;

/// What a sound request leaves of a sound table is sound (15.9.2, 15.10.2).
pub fn leaves_sound<A: Allocator>()
    ensures { LeavesSound A }
{}

/// The reply of a sound table to a sound request is sound: it has a spelling (15.5 to 15.10).
pub fn replies_sound<A: Allocator>()
    ensures { RepliesSound A }
{}

/// The reply is of a kind that the request's service gives (15.5.1, 15.7.3, 15.9.1, 15.10.1).
pub fn answers_request<A: Allocator>()
    ensures { AnswersRequest A }
{}

/// A write that is done leaves the shape of the table: each object's type, instance number and
/// number of slots (15.9.2).
pub fn write_leaves_shape<A: Allocator>()
    ensures { WriteLeavesShape A }
{}

/// Tables of one shape refuse the same writes, for the same reasons (15.9.1.3).
pub fn shape_refuses<A: Allocator>()
    ensures { ShapeRefuses A }
{}

/// The reply to several writes is the first failure among them, each looked for in the table as
/// it was before the first (15.10.2).
pub fn replies_first_failure<A: Allocator>()
    ensures { RepliesFirstFailure A }
{}

/// The first write that fails ends the request: those before it stay, and those behind it are not
/// done (15.10.2).
pub fn writes_end_at_failure<A: Allocator>()
    ensures { WritesEndAtFailure A }
{}

/// A WriteProperty whose reply is that all was written is a write that is done (15.9.2).
pub fn done_is_written<A: Allocator>()
    ensures { DoneIsWritten A }
{}

/// Reading changes nothing, and neither does a write that is refused (15.5.2, 15.7.2, 15.9.2).
pub fn reading_changes_nothing<A: Allocator>()
    ensures { ReadingChangesNothing A }
{}

/// No request changes an object's type, its instance number or how many slots it has (12.1.1).
pub fn request_leaves_shape<A: Allocator>()
    ensures { RequestLeavesShape A }
{}

/// No request changes the identifiers of the objects (12.1.1).
pub fn request_leaves_identifiers<A: Allocator>()
    ensures { RequestLeavesIdentifiers A }
{}

/// No request changes their names (12.11.2).
pub fn request_leaves_names<A: Allocator>()
    ensures { RequestLeavesNames A }
{}

/// No request changes their types (12.11.3).
pub fn request_leaves_types<A: Allocator>()
    ensures { RequestLeavesTypes A }
{}

/// No request changes the object list (12.11.16).
pub fn request_leaves_object_list<A: Allocator>()
    ensures { RequestLeavesObjectList A }
{}

/// A write leaves every other object as it was (15.9.2).
pub fn write_leaves_other_objects<A: Allocator>()
    ensures { WriteLeavesOtherObjects A }
{}

/// A write leaves all that is read of every other object (15.9.2).
pub fn write_leaves_other_reads<A: Allocator>()
    ensures { WriteLeavesOtherReads A }
{}

/// Of its own object, a write leaves what is read of all properties but those through which the
/// written one shows: Present_Value through itself and Priority_Array, Relinquish_Default through
/// itself and Present_Value, Out_Of_Service through itself and Status_Flags, Description through
/// itself (15.9.2).
pub fn write_leaves_other_properties<A: Allocator>()
    ensures { WriteLeavesOtherProperties A }
{}

/// A command leaves what is read of every slot of another level (19.2).
pub fn command_leaves_other_levels<A: Allocator>()
    ensures { CommandLeavesOtherLevels A }
{}

/// Present_Value of a value object reads the value in force and no other: that of the filled slot
/// of the least number, or the default where no slot is filled (15.5.2, 19.2).
pub fn present_is_in_force<A: Allocator>()
    ensures { PresentIsInForce A }
{}

/// The slot of its level reads back what was commanded; Null so empties that slot (19.2.1).
pub fn command_reads_back<A: Allocator>()
    ensures { CommandReadsBack A }
{}

/// Present_Value reads back a value that was commanded while the slots of all higher priorities
/// are empty (19.2).
pub fn command_shows<A: Allocator>()
    ensures { CommandShows A }
{}

/// Every other property reads back what was written: Relinquish_Default, Out_Of_Service and
/// Description (15.9.2).
pub fn write_reads_back<A: Allocator>()
    ensures { WriteReadsBack A }
{}
