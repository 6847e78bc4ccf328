//! Octets as pairs of hexadecimal digits.

ghost use Rattle.std.specs.Prelude.{Some, flat_map};
ghost use Rattle.std.specs.Fmt.{WritesOnOk};
ghost use Rattle.printing.specs.Printed.{octets_text, pair_of};

use std::fmt;

/// Octets that are printed as pairs of upper-case hexadecimal digits, `-` where there are none.
#[derive(Clone, Copy)]
pub struct Hex<'a>(pub &'a [u8]);

impl<'a> fmt::Display for Hex<'a> {
    ghost output = { λ h. Some (octets_text h.0.now) };

    #[tactic(auto, unfolding(crate::specs::Printed::octets_text))]
    fn fmt<W: fmt::Write>(&self, f: &mut fmt::Formatter<W>) -> fmt::Result {
        if self.0.is_empty() {
            return f.write_str("-");
        }
        fmt_pairs(self.0, f)
    }
}

/// Prints octets as two upper-case digits each.
fn fmt_pairs<W: fmt::Write>(octets: &[u8], f: &mut fmt::Formatter<W>) -> fmt::Result
    ensures { WritesOnOk W.write_str_gives f.old result (flat_map pair_of octets.now) f.new }
{
    for octet in octets {
        write!(f, "{octet:02X}")?;
    }
    Ok(())
}
