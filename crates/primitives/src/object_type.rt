//! Object types (clause 12; 21, BACnetObjectType).

ghost use Rattle.std.specs.Prelude.{◌≡◌, MatchResult};
ghost use Rattle.primitives.specs.Numbers.{type_number, NoObjectType};
ghost use Rattle.tags.specs.declared.fault.Fault.TheVariants.{NoSuch};

use tags::Fault;

/// The object types that this product has (21, BACnetObjectType), with the standard's numbers.
#[derive(Clone, Copy, Debug, PartialEq, Eq)]
pub enum ObjectType {
    /// Binary Value (12.8).
    BinaryValue = 5,
    /// Device (12.11).
    Device = 8,
    /// Multi-state Value (12.20).
    MultiStateValue = 19,
    /// CharacterString Value (12.37).
    CharacterStringValue = 40,
    /// Integer Value (12.43).
    IntegerValue = 45,
}

impl From<ObjectType> for u16 {
    ghost from_gives = { λ object_type number. number ≡ type_number object_type };

    fn from(object_type: ObjectType) -> u16 {
        object_type as u16
    }
}

/// The object type of a number; one that this product does not have is refused as `NoSuch`.
impl TryFrom<u16> for ObjectType {
    type Error = Fault;

    ghost try_from_gives = { λ number result. MatchResult result (λ object_type. type_number object_type ≡ number)
        (λ fault. (fault ≡ NoSuch) × NoObjectType number) };

    fn try_from(number: u16) -> Result<ObjectType, Fault> {
        match number {
            5 => Ok(ObjectType::BinaryValue),
            8 => Ok(ObjectType::Device),
            19 => Ok(ObjectType::MultiStateValue),
            40 => Ok(ObjectType::CharacterStringValue),
            45 => Ok(ObjectType::IntegerValue),
            _ => Err(Fault::NoSuch),
        }
    }
}
