//! The end that a script lacks before a line behind it.

ghost use Rattle.std.specs.Prelude.{◌≡◌};
ghost use Rattle.site_storm.specs.Lines as spec;

/// The end that the last line of a script lacks, so that a line behind it is one of its own: none where it has one, or
/// where there is no line.
pub fn end_missing(script: &[u8]) -> &'static [u8]
    ensures { result.now ≡ spec.end_missing script.now }
{
    if script.is_empty() || script.ends_with(b"\n") {
        b""
    } else {
        b"\n"
    }
}
