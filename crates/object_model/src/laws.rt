//! What holds of all objects. A function without a body is a law: its contract, for the proofs of the layers above.

ghost use Rattle.object_model.specs.Supported.{TypesAreSupported};

/// Protocol_Object_Types_Supported has its bits set exactly for the object types that there are (12.11.14).
#[tactic(auto, using(crate::proofs::SupportedLaws::types_are_supported))]
pub fn types_are_supported()
    ensures { TypesAreSupported }
{}
