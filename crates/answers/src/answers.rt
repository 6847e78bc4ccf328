//! Whether a reply answers a request: it is of a kind that the service gives, and ReadPropertyMultiple
//! gives what was asked (clauses 15.5, 15.7, 15.9 and 15.10).

ghost use Rattle.std.specs.Prelude.{◌≡◌, ◌↔◌, IsTrue, map};
ghost use Rattle.std.specs.List.{AllByRecursion};
ghost use Rattle.objects.specs.primitives.Answers.{IsAnswerTo, IsOneProperty, AnswersRefs, AnswersAll, read_reference};

use objects::primitives::{
    ALL_PROPERTIES, OPTIONAL_PROPERTIES, ObjectRefs, ObjectResults, PropertyReference,
    PropertyResult, REQUIRED_PROPERTIES, Reply, Request,
};
use std::alloc::Allocator;

/// Whether each reference names one property (15.7.3.1.2).
fn names_single_properties(references: &[PropertyReference]) -> bool
    ensures { IsTrue result ↔ AllByRecursion IsOneProperty references.now }
{
    let mut left = references;
    while let [first, others @ ..] = left {
        let property = first.property;
        if property == ALL_PROPERTIES
            || property == OPTIONAL_PROPERTIES
            || property == REQUIRED_PROPERTIES
        {
            return false;
        }
        left = others;
    }
    true
}

/// Whether it is this property, or this element of it, that was read.
fn is_of<A: Allocator>(read: &PropertyResult<A>, asked: &PropertyReference) -> bool
    ensures { IsTrue result ↔ (read_reference read.now ≡ asked.now) }
{
    read.property == asked.property && read.index == asked.index
}

/// Whether these properties were read, in this order.
fn are_of<A: Allocator>(results: &[PropertyResult<A>], asked: &[PropertyReference]) -> bool
    ensures { IsTrue result ↔ (map read_reference results.now ≡ asked.now) }
{
    let mut results_left = results;
    let mut asked_left = asked;
    while let [read, results_behind @ ..] = results_left {
        let [reference, asked_behind @ ..] = asked_left else {
            return false;
        };
        if !is_of(read, reference) {
            return false;
        }
        results_left = results_behind;
        asked_left = asked_behind;
    }
    asked_left.is_empty()
}

/// Whether the object and the properties that were asked were read (15.7.3.2).
fn answers_refs<A: Allocator>(asked: &ObjectRefs<A>, read: &ObjectResults<A>) -> bool
    ensures { IsTrue result ↔ AnswersRefs asked.now read.now }
{
    if read.object != asked.object {
        return false;
    }
    if !names_single_properties(asked.refs.as_slice()) {
        return true;
    }
    are_of(read.results.as_slice(), asked.refs.as_slice())
}

/// Whether the objects that were asked were read, in their order (15.7.3.2).
fn answers_all<A: Allocator>(asked: &[ObjectRefs<A>], read: &[ObjectResults<A>]) -> bool
    ensures { IsTrue result ↔ AnswersAll asked.now read.now }
{
    let mut asked_left = asked;
    let mut read_left = read;
    while let [refs, asked_behind @ ..] = asked_left {
        let [results, read_behind @ ..] = read_left else {
            return false;
        };
        if !answers_refs(refs, results) {
            return false;
        }
        asked_left = asked_behind;
        read_left = read_behind;
    }
    read_left.is_empty()
}

/// Whether a reply is one to this request: of a kind that its service gives, and for ReadPropertyMultiple with the
/// objects asked in their order, and their properties too where each reference names one (15.5 to 15.10). It takes no
/// memory.
pub fn is_answer_to<A: Allocator>(request: &Request<A>, reply: &Reply<A>) -> bool
    ensures { IsTrue result ↔ IsAnswerTo request.now reply.now }
{
    match (request, reply) {
        (Request::Read { .. }, Reply::Values(_) | Reply::Error(..)) => true,
        (Request::ReadMany(asked), Reply::Many(read)) => {
            answers_all(asked.as_slice(), read.as_slice())
        }
        (Request::ReadMany(_), Reply::Error(..)) => true,
        (Request::Write { .. }, Reply::Done | Reply::Error(..)) => true,
        (Request::WriteMany(_), Reply::Done | Reply::ErrorAt { .. }) => true,
        _ => false,
    }
}
