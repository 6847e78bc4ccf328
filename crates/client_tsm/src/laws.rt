//! What holds of any client, for the proofs of the layers above. A function without a body is a law: its contract.

ghost use Rattle.client_tsm.specs.Laws as spec;

use std::alloc::Allocator;

/// What is heard counts only from the station addressed, under an open invoke ID and with its service, before the end;
/// all else changes nothing. One outcome is told at most: that which was heard, where it counts, and that closes it.
pub fn told_is_open<A: Allocator>()
    ensures counts { spec.CountsOrNothing A }
    ensures told { spec.ToldIsOpen A }
{}

/// Where the open invoke IDs differ, an outcome of one for which what is heard counts is told, and nothing else: so
/// each answer that counts and means a reply is given, a whole one, and one whose last segment is taken.
pub fn counted_is_told<A: Allocator>()
    ensures { spec.CountedIsTold A }
{}

/// What is heard is planned in one way.
pub fn one_plan<A: Allocator>()
    ensures { spec.OnePlan A }
{}

/// A change that was planned keeps the invoke IDs of the open transactions apart.
pub fn planned_keep_apart<A: Allocator>()
    ensures { spec.PlannedKeepApart A }
{}

/// At a wake each transaction is told to have timed out, where it has its end, or left.
pub fn woken_are_ended<A: Allocator>()
    ensures ended { spec.WokenAreEnded A }
    ensures each { spec.ToldOrLeft A }
{}
