//! Object identifiers (20.2.14).

ghost use Rattle.std.specs.Prelude.{◌≡◌, ◌↔◌, IfOk, IfErr, IsTrue, length};
ghost use Rattle.tags.specs.Number.{SpellsObject, IsSoundObject, object_octets};

use crate::fault::Fault;
use byteorder::{BigEndian, ByteOrder};

/// The identifier of an object: its type in ten bits, and its instance in twenty-two (20.2.14).
#[derive(Clone, Copy, Debug, PartialEq, Eq, PartialOrd, Ord)]
pub struct ObjectId {
    /// The object type's number, 0 to 1023.
    pub object_type: u16,
    /// The instance number, 0 to 4194303.
    pub instance: u32,
}

impl ObjectId {
    /// Whether type and instance are within their ranges, so that octets spell the identifier.
    pub fn is_sound(self) -> bool
        ensures { IsTrue result ↔ IsSoundObject self.object_type self.instance }
    {
        self.object_type < 1024 && self.instance < 0x40_0000
    }

    /// The identifier that four contents octets spell (20.2.14).
    ///
    /// # Errors
    /// `BadLength` for any other number of octets.
    pub fn from_contents(octets: &[u8]) -> Result<ObjectId, Fault>
        ensures read { IfOk result (λ object. SpellsObject octets.now object.object_type object.instance) }
        ensures refused { IfErr result (λ fault. (fault ≡ Fault.BadLength) × (length octets.now ≡ 4 → ⊥)) }
    {
        if octets.len() != 4 {
            return Err(Fault::BadLength);
        }
        let number = BigEndian::read_u32(octets);
        Ok(ObjectId {
            object_type: (number >> 22) as u16,
            instance: number & 0x3F_FFFF,
        })
    }

    /// The four contents octets that spell the identifier (20.2.14).
    pub fn to_contents(self) -> [u8; 4]
        requires { IsSoundObject self.object_type self.instance }
        ensures { result ≡ object_octets self.object_type self.instance }
    {
        let number = (u32::from(self.object_type) << 22) | self.instance;
        number.to_be_bytes()
    }
}
