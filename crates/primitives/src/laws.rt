//! What holds of the standard's numbers. A function without a body is a law: its contract, for the
//! proofs of the layers above.

ghost use Rattle.std.specs.Prelude.{◌≡◌};
ghost use Rattle.primitives.specs.Errors.{OneClass, OneCode};
ghost use Rattle.primitives.specs.Numbers as number;

use crate::property::{ALL_PROPERTIES, OPTIONAL_PROPERTIES, REQUIRED_PROPERTIES};

/// The numbers that stand for all, optional and required properties are those of their definitions (15.7.3.1.2).
pub fn special_numbers() -> (u32, u32, u32)
    ensures all { result.0 ≡ number.ALL_PROPERTIES }
    ensures optional { result.1 ≡ number.OPTIONAL_PROPERTIES }
    ensures required { result.2 ≡ number.REQUIRED_PROPERTIES }
{
    (ALL_PROPERTIES, OPTIONAL_PROPERTIES, REQUIRED_PROPERTIES)
}

/// An error class has one name (18.1 to 18.8).
#[tactic(auto, using(crate::proofs::ErrorNames::one_class))]
pub fn one_class()
    ensures { OneClass }
{}

/// An error code has one name (18.1 to 18.8).
#[tactic(auto, using(crate::proofs::ErrorNames::one_code))]
pub fn one_code()
    ensures { OneCode }
{}
