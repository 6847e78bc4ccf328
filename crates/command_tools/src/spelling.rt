//! Whether the standard's numbers are printed, or its names.

ghost use Rattle.std.specs.Prelude.{◌≡◌};
ghost use Rattle.command_tools.specs.Words as spec;

use words::Spelling;

/// Names where they are asked for, and not in objects of JSON, which have numbers.
pub fn spelling_of(is_named: bool, is_json: bool) -> Spelling
    ensures { result ≡ spec.spelling_of is_named is_json }
{
    match (is_named, is_json) {
        (true, false) => Spelling::Names,
        (true, true) | (false, _) => Spelling::Numbers,
    }
}
