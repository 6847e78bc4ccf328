//! Words as a choice.

use std::fmt;

/// Words that are printed as a choice: `a, b or c`.
#[derive(Clone, Copy)]
pub struct Choice<'a>(pub &'a [&'static str]);

impl fmt::Display for Choice<'_> {
    fn fmt<W: fmt::Write>(&self, f: &mut fmt::Formatter<W>) -> fmt::Result {
        let last = self.0.len().saturating_sub(1);
        for (index, word) in self.0.iter().enumerate() {
            if index > 0 {
                f.write_str(if index == last { " or " } else { ", " })?;
            }
            f.write_str(word)?;
        }
        Ok(())
    }
}
