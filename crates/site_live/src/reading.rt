//! The lines of a script for a live run.

ghost use Rattle.std.specs.Prelude.{◌≤◌, IfOk, IfSome, length, option_map};
ghost use Rattle.std.specs.List.{AllByRecursion};
ghost use Rattle.script.specs.Lines.{size_left};
ghost use Rattle.script.specs.Steps.{IsSoundStep};
ghost use Rattle.site_live.specs.Steps.{AreLive, SaysLive};

use crate::step::live_step;
use script::{BadScript, Event, Expectation, Step, script_of};
use std::alloc::{AllocError, Allocator};
use tags::Items;
use words::Unread;

/// What the lines of a script ask of a live run, in their order.
///
/// # Errors
/// `Memory`, or the first line that asks for no step that a live run takes: `deliver`, `hear` and `wake` are events
/// that it makes of itself.
pub fn live_steps_of<A: Allocator + Copy>(
    alloc: A,
    text: &[u8],
) -> Result<Items<Step<A>, A>, BadScript>
    ensures said { IfOk result (SaysLive text.now) }
    ensures sound { IfOk result (λ steps. AllByRecursion IsSoundStep steps) }
{
    match script_of(alloc, text) {
        Ok(said) => match all_live(alloc, said) {
            Ok(Some(steps)) => Ok(steps),
            Ok(None) => Err(first_fault(alloc, text)),
            Err(_) => Err(BadScript::Memory),
        },
        Err(BadScript::Memory) => Err(BadScript::Memory),
        Err(_) => Err(first_fault(alloc, text)),
    }
}

/// What steps ask of a live run, in their order: nothing where one is an event that the run makes of itself.
#[tactic(auto, using(crate::proofs::StepLaws::step_laws))]
fn all_live<A: Allocator + Copy>(
    alloc: A,
    said: Items<Step<A>, A>,
) -> Result<Option<Items<Step<A>, A>>, AllocError>
    requires sound { AllByRecursion IsSoundStep said }
    ensures live { IfOk result (λ o. IfSome o (AreLive said)) }
    ensures sound { IfOk result (λ o. IfSome o (λ steps. AllByRecursion IsSoundStep steps)) }
{
    let mut steps = Items::new(alloc);
    for step in said.into_vec() {
        let Some(step) = live_step(step) else {
            return Ok(None);
        };
        steps.push(step)?;
    }
    Ok(Some(steps))
}

/// The first line of a text that asks for no step that a live run takes, or want of memory.
fn first_fault<A: Allocator + Copy>(alloc: A, text: &[u8]) -> BadScript {
    let mut number = 0usize;
    let mut left = Some(text);
    while let Some(here) = left {
        let (line, rest) = cut_line(here);
        number = number.saturating_add(1);
        if let Some(fault) = fault_of(alloc, line, number) {
            return fault;
        }
        left = rest;
    }
    BadScript::Memory
}

/// A line, and the text behind its end, where there is another line.
fn cut_line(text: &[u8]) -> (&[u8], Option<&[u8]>)
    ensures less { size_left (option_map (λ r. r.now) result.1) ≤ length text.now }
{
    for (end, octet) in text.iter().enumerate() {
        if *octet == b'\n' {
            return (&text[..end], Some(&text[end + 1..]));
        }
    }
    (text, None)
}

/// Why the line of this number asks for no step that a live run takes, if it does not.
fn fault_of<A: Allocator + Copy>(alloc: A, line: &[u8], number: usize) -> Option<BadScript> {
    match script_of(alloc, line) {
        Ok(said) => match said.as_slice() {
            [
                Step::Happens(Event::Wake(_) | Event::Deliver(_) | Event::Hear { .. })
                | Step::Disturbs(_)
                | Step::Shows(_)
                | Step::Expects(Expectation::Reads { .. }),
            ] => Some(BadScript::Line {
                number,
                unread: Unread::Step,
            }),
            _ => None,
        },
        Err(BadScript::Memory) => Some(BadScript::Memory),
        Err(BadScript::Line { unread, .. }) => Some(BadScript::Line { number, unread }),
    }
}
