//! Why a device does not do what it was asked: error classes and codes (clause 18).

ghost use Rattle.std.specs.Prelude.{◌≡◌};
ghost use Rattle.primitives.specs.Errors.{class_number, IsClassOf, code_number, IsCodeOf};

/// The class of an error (18.1 to 18.8). Each has its number here and nowhere else.
#[derive(Clone, Copy, Debug, PartialEq, Eq)]
pub enum ErrorClass {
    /// An error of the device: 0.
    Device,
    /// An error of the object: 1.
    Object,
    /// An error of the property: 2.
    Property,
    /// Want of resources: 3.
    Resources,
    /// An error of security: 4.
    Security,
    /// An error of the service: 5.
    Services,
    /// A class of another maker or a later edition: any other number.
    Other(u32),
}

impl From<u32> for ErrorClass {
    ghost from_gives = { λ number class. IsClassOf number class };

    fn from(number: u32) -> ErrorClass {
        match number {
            0 => ErrorClass::Device,
            1 => ErrorClass::Object,
            2 => ErrorClass::Property,
            3 => ErrorClass::Resources,
            4 => ErrorClass::Security,
            5 => ErrorClass::Services,
            number => ErrorClass::Other(number),
        }
    }
}

impl From<ErrorClass> for u32 {
    ghost from_gives = { λ class number. number ≡ class_number class };

    fn from(class: ErrorClass) -> u32 {
        match class {
            ErrorClass::Device => 0,
            ErrorClass::Object => 1,
            ErrorClass::Property => 2,
            ErrorClass::Resources => 3,
            ErrorClass::Security => 4,
            ErrorClass::Services => 5,
            ErrorClass::Other(number) => number,
        }
    }
}

/// The code of an error (18.1 to 18.8): those that this product's devices answer, and all others.
#[derive(Clone, Copy, Debug, PartialEq, Eq)]
pub enum ErrorCode {
    /// The value has another type than the property: 9.
    InvalidDataType,
    /// The value is longer than the property holds: 20.
    NoSpaceToWriteProperty,
    /// The device has no such object: 31.
    UnknownObject,
    /// The object has no such property: 32.
    UnknownProperty,
    /// The value is out of the property's range: 37.
    ValueOutOfRange,
    /// The property is not written: 40.
    WriteAccessDenied,
    /// The text is of a character set that the device does not have: 41.
    CharacterSetNotSupported,
    /// The index is over the array's length: 42.
    InvalidArrayIndex,
    /// An index was given, and the property is no array: 50.
    PropertyIsNotAnArray,
    /// Any other number.
    Other(u32),
}

impl From<u32> for ErrorCode {
    ghost from_gives = { λ number code. IsCodeOf number code };

    fn from(number: u32) -> ErrorCode {
        match number {
            9 => ErrorCode::InvalidDataType,
            20 => ErrorCode::NoSpaceToWriteProperty,
            31 => ErrorCode::UnknownObject,
            32 => ErrorCode::UnknownProperty,
            37 => ErrorCode::ValueOutOfRange,
            40 => ErrorCode::WriteAccessDenied,
            41 => ErrorCode::CharacterSetNotSupported,
            42 => ErrorCode::InvalidArrayIndex,
            50 => ErrorCode::PropertyIsNotAnArray,
            number => ErrorCode::Other(number),
        }
    }
}

impl From<ErrorCode> for u32 {
    ghost from_gives = { λ code number. number ≡ code_number code };

    fn from(code: ErrorCode) -> u32 {
        match code {
            ErrorCode::InvalidDataType => 9,
            ErrorCode::NoSpaceToWriteProperty => 20,
            ErrorCode::UnknownObject => 31,
            ErrorCode::UnknownProperty => 32,
            ErrorCode::ValueOutOfRange => 37,
            ErrorCode::WriteAccessDenied => 40,
            ErrorCode::CharacterSetNotSupported => 41,
            ErrorCode::InvalidArrayIndex => 42,
            ErrorCode::PropertyIsNotAnArray => 50,
            ErrorCode::Other(number) => number,
        }
    }
}
