//! Class and code of an Error (18, 21).

ghost use Rattle.std.specs.Prelude.{◌≡◌, IfSome, IfNone};
ghost use Rattle.primitives.specs.Errors.{class_number, code_number, IsNamedClass, IsNamedCode};
ghost use Rattle.apdu_fields.specs.ClassAndCode.{TakesClassAndCode, OnlyClassAndCode, NoClassAndCode};

use crate::parameter::number_from;
use primitives::{ErrorClass, ErrorCode};
use tags::{Class, Reader};

/// The class and the code at the front, both Enumerated (21, Error). `None` where other octets stand
/// there; the reader is then as it was.
#[tactic(auto, using(crate::proofs::ClassesAndCodes::class_and_code_rules))]
pub fn class_and_code_from(reader: &mut Reader<'_>) -> Option<(ErrorClass, ErrorCode)>
    ensures read { IfSome result (λ e. TakesClassAndCode reader.old (class_number e.0) (code_number e.1) reader.new) }
    ensures only { IfSome result (λ e. OnlyClassAndCode reader.old (class_number e.0) (code_number e.1) reader.new) }
    ensures named { IfSome result (λ e. IsNamedClass e.0 × IsNamedCode e.1) }
    ensures refused { IfNone result (NoClassAndCode reader.old) }
    ensures unchanged { IfNone result (reader.new ≡ reader.old) }
{
    let mut ahead = Reader::new(reader.rest());
    let class = number_from(Class::Application, 9, &mut ahead)?;
    let code = number_from(Class::Application, 9, &mut ahead)?;
    *reader = ahead;
    Some((ErrorClass::from(class), ErrorCode::from(code)))
}
