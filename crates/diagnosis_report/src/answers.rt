//! How long answers took, over a capture.

use crate::plot::Bar;
use crate::rates::width_of;
use diagnosis::Diagnosis;
use std::alloc::{AllocError, Allocator};

/// How long answers took, for each bar in which requests were answered: microseconds are thousandths of milliseconds.
#[derive(Drop)]
pub(crate) struct Answers<A: Allocator> {
    /// The longest time.
    pub(crate) longest: Vec<Bar, A>,
    /// The time within which half of them came.
    pub(crate) medians: Vec<Bar, A>,
}

/// How long the answers to the requests took that are listed.
pub(crate) fn answers_of<A: Allocator + Copy>(
    alloc: A,
    diagnosis: &Diagnosis<A>,
    began: u64,
) -> Result<Answers<A>, AllocError> {
    let times = times_of(alloc, diagnosis, began)?;
    let mut answers = Answers {
        longest: Vec::new(alloc),
        medians: Vec::new(alloc),
    };
    let mut first = 0usize;
    for (at, (place, longest)) in times.iter().enumerate() {
        let next = at.saturating_add(1);
        if !is_at(*place, times.get(next)) {
            let middle = first.saturating_add(at.saturating_sub(first) / 2);
            let median = times.get(middle).map_or(*longest, |time| time.1);
            answers.add(*place, *longest, median)?;
            first = next;
        }
    }
    Ok(answers)
}

/// Whether the next time is one of this bar too.
fn is_at(place: u64, next: Option<&(u64, u64)>) -> bool {
    match next {
        Some((other, _)) => *other == place,
        None => false,
    }
}

impl<A: Allocator> Answers<A> {
    /// Adds both times of a bar.
    fn add(&mut self, place: u64, longest: u64, median: u64) -> Result<(), AllocError> {
        self.longest.push(Bar {
            place,
            value: longest,
        })?;
        self.medians.push(Bar {
            place,
            value: median,
        })?;
        Ok(())
    }
}

/// The bar of each answer and how long it took, in this order.
fn times_of<A: Allocator + Copy>(
    alloc: A,
    diagnosis: &Diagnosis<A>,
    began: u64,
) -> Result<Vec<(u64, u64), A>, AllocError> {
    let width = width_of(diagnosis.duration()).max(1);
    let mut times = Vec::new(alloc);
    for (_, transaction) in diagnosis.transactions(alloc)?.as_slice() {
        if let Some(answer) = transaction.answer {
            let place = transaction.began.saturating_sub(began) / width;
            times.push((place, answer.microseconds))?;
        }
    }
    times.sort()?;
    Ok(times)
}
