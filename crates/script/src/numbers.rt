//! The numbers of the lines that ask for steps.

ghost use Rattle.std.specs.Prelude.{◌≡◌, drop, slice_get};
ghost use Rattle.script.specs.Numbers.{line_numbers};

use crate::script::{cut_line, is_skipped};
use std::marker::Model;

/// Gives the numbers of the lines of a script that ask for steps, one after another; the first line is 1. A contract
/// sees the numbers that are left.
#[derive(Drop)]
pub struct LineNumbers<'a> {
    left: Option<&'a [u8]>,
    number: u64,
}

impl<'a> Model for LineNumbers<'a> {
    ghost use Rattle.std.specs.Prelude.{◌≤◌, ◌+◌, ◌^◌, List, ℕ, option_map};
    ghost use Rattle.script.specs.Lines.{lines_left, size_left};
    ghost use Rattle.script.specs.Numbers.{numbers_from};

    ghost Value = { List ℕ };

    ghost view = { λ l. numbers_from l.number (lines_left (option_map (λ r. r.now) l.left)) };

    ghost invariant = { λ l. l.number + size_left (option_map (λ r. r.now) l.left) ≤ 2 ^ 63 + 2 };
}

impl<'a> LineNumbers<'a> {
    /// The numbers of the lines of this script.
    pub fn of(script: &'a [u8]) -> LineNumbers<'a>
        ensures { result ≡ line_numbers script.entry.now }
    {
        LineNumbers {
            left: Some(script),
            number: 1,
        }
    }

    /// The next number, if there is one.
    pub fn next(&mut self) -> Option<u64>
        ensures given { result ≡ slice_get self.old 0 }
        ensures left { self.new ≡ drop 1 self.old }
    {
        while let Some(here) = self.left {
            let (line, rest) = cut_line(here);
            let number = self.number;
            self.number += 1;
            self.left = rest;
            if !is_skipped(line) {
                return Some(number);
            }
        }
        None
    }
}
