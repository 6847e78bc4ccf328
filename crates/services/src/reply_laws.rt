//! What holds of every spelling of a reply (15, 20.1). A function without a body is a law: its
//! contract, for the proofs of the layers above.

ghost use Rattle.services.specs.Contents.{EqualContents, GoesInContents, MeaningReadsBack, OneMeaning, ReplyIsMeant};
ghost use Rattle.services.specs.Contents.{ReplyOfContents};
ghost use Rattle.services.specs.ReplyLaws.{OneReply, ReplyIsSpelled, ReplyReadsBack, ReplyIsShortest};

use std::alloc::Allocator;

/// An answer spells one reply to a request.
#[tactic(auto, using(crate::proofs::OneAnswer::one_reply))]
pub fn one_reply<A: Allocator>()
    ensures { OneReply A }
{}

/// The answer in which a sound reply goes, with its canonical octets, spells it.
#[tactic(auto, using(crate::proofs::CanonicalAnswer::reply_spelled))]
pub fn reply_is_spelled<A: Allocator>()
    ensures { ReplyIsSpelled A }
{}

/// What is written of a sound reply is read as that reply.
#[tactic(auto, using(crate::proofs::CanonicalAnswer::reply_reads_back))]
pub fn reply_reads_back<A: Allocator>()
    ensures { ReplyReadsBack A }
{}

/// No service data that spell a reply are fewer than its canonical ones.
#[tactic(auto, using(crate::proofs::ShortestAnswer::ack_shortest))]
pub fn reply_is_shortest<A: Allocator>()
    ensures { ReplyIsShortest A }
{}

/// An answer spells the replies that its contents mean, so answers with equal contents spell the same.
#[tactic(auto, using(crate::proofs::Contents::reply_of_contents, crate::proofs::Contents::equal_contents))]
pub fn reply_of_contents<A: Allocator>()
    ensures contents { ReplyOfContents A }
    ensures equal { EqualContents A }
{}

/// The contents of an answer mean one reply to a request.
#[tactic(auto, using(crate::proofs::Contents::one_meaning))]
pub fn one_meaning<A: Allocator>()
    ensures { OneMeaning A }
{}

/// The contents in which a sound reply goes mean it, and are read as that reply; the answer in which
/// it goes has them.
#[tactic(auto, using(crate::proofs::Contents::meaning_laws))]
pub fn meaning_reads_back<A: Allocator>()
    ensures meant { ReplyIsMeant A }
    ensures back { MeaningReadsBack A }
    ensures contents { GoesInContents A }
{}
