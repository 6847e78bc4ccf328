//! The lines of a script.

ghost use Rattle.std.specs.Prelude.{◌≡◌, ◌⊎◌, ◌≤◌, ◌∷◌, IfErr, IfOk, OnOk, length, option_map};
ghost use Rattle.std.specs.List.{AllByRecursion};
ghost use Rattle.script.specs.Lines.{IsBadLine, IsNoScript, PutsLine, SaysSteps, is_skipped, lines, lines_left};
ghost use Rattle.script.specs.Lines.{size_left, without_return};
ghost use Rattle.script.specs.Steps.{IsFitStep, IsSoundStep};

use crate::line::step_of;
use crate::step::Step;
use std::alloc::Allocator;
use tags::Items;
use words::Unread;

/// Why a text is no script.
#[derive(Clone, Copy, Debug, PartialEq, Eq)]
pub enum BadScript {
    /// Want of memory.
    Memory,
    /// The number of the first line that asks for nothing that a script may ask for, counted from 1, and what is
    /// missing of its words.
    Line { number: usize, unread: Unread },
}

/// The steps that the lines of a text ask for, in their order. A line ends with LF or CR LF; one that is empty or
/// begins with `#` is skipped.
///
/// # Errors
/// `Memory`, or the first line that asks for no step, with the cause that `step_of` tells; `Step` where it is not
/// UTF-8.
pub fn script_of<A: Allocator + Copy>(alloc: A, text: &[u8]) -> Result<Items<Step<A>, A>, BadScript>
    ensures read { IfOk result (SaysSteps text.now) }
    ensures fit { IfOk result (λ steps. AllByRecursion IsFitStep steps) }
    ensures sound { IfOk result (λ steps. AllByRecursion IsSoundStep steps) }
    ensures refused { IfErr result (IsNoScript A text.now) }
{
    let mut steps = Items::new(alloc);
    let mut number = 0usize;
    let mut left = Some(text);
    while let Some(here) = left {
        let (line, rest) = cut_line(here);
        number += 1;
        match put_line(alloc, &mut steps, line) {
            Ok(()) => {}
            Err(unread) => {
                if unread == Unread::Memory {
                    return Err(BadScript::Memory);
                }
                return Err(BadScript::Line { number, unread });
            }
        }
        left = rest;
    }
    Ok(steps)
}

/// Puts the step of a line behind others; a line that is skipped has none.
#[tactic(auto, using(crate::proofs::LineLaws::put_laws))]
fn put_line<A: Allocator + Copy>(
    alloc: A,
    steps: &mut Items<Step<A>, A>,
    line: &[u8],
) -> Result<(), Unread>
    ensures put { OnOk result (PutsLine line.now steps.old steps.new) }
    ensures refused { IfErr result (λ e. (e ≡ Unread.Memory) ⊎ IsBadLine A line.now) }
{
    if is_skipped(line) {
        return Ok(());
    }
    let Ok(words) = std::str::from_utf8(line) else {
        return Err(Unread::Step);
    };
    let step = step_of(alloc, words)?;
    steps.push(step)?;
    Ok(())
}

/// Whether a line is empty or a comment.
pub(crate) fn is_skipped(line: &[u8]) -> bool
    ensures { result ≡ is_skipped line.now }
{
    line.is_empty() || line[0] == b'#'
}

/// A line without its end, and the text behind it, where there is another line.
#[tactic(auto, using(crate::proofs::LineLaws::cut_laws))]
pub(crate) fn cut_line(text: &[u8]) -> (&[u8], Option<&[u8]>)
    ensures parts { lines text.now ≡ result.0.now ∷ lines_left (option_map (λ r. r.now) result.1) }
    ensures less { size_left (option_map (λ r. r.now) result.1) ≤ length text.now }
{
    for (end, octet) in text.iter().enumerate() {
        if *octet == b'\n' {
            return (without_return(&text[..end]), Some(&text[end + 1..]));
        }
    }
    (without_return(text), None)
}

/// A line without the carriage return that it may end with.
#[tactic(auto, using(crate::proofs::LineLaws::return_laws))]
fn without_return(line: &[u8]) -> &[u8]
    ensures { result.now ≡ without_return line.now }
{
    match line {
        [front @ .., last] => { if *last == b'\r' { front } else { line } }
        [] => line,
    }
}
