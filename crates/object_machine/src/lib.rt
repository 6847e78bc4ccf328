//! The object machine on two pages: the properties of each object as one list of rows, and what a device replies and
//! keeps by them (ANSI/ASHRAE 135, clauses 12, 15 and 19).
//!
//! Whoever wants to believe the promise reads these definitions. `object_model` and `objects` say the same property by
//! property, as their functions find it; that both are one is proved here. It has no code.
//!
//! - `specs/Rows`: the properties of the Device object and of value objects.
//! - `specs/Machine`: what is read, written, replied and left.
#![tactic(auto)]

ghost use Rattle.object_machine.specs.Laws.{IsByRows};

use std::alloc::Allocator;

/// What a request replies and leaves by rows is what it does by properties.
pub fn machine_is_by_rows<A: Allocator>()
    ensures { IsByRows A }
{}
