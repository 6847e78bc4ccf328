//! What a request is about: its first object and property.

use tags::{Class, Content, ObjectId, Reader, Tag, unsigned_from_contents};

/// The first object and property of a request, as far as its service names them.
#[derive(Clone, Copy)]
pub struct Subject {
    /// The object.
    pub object: Option<ObjectId>,
    /// The property's number.
    pub property: Option<u32>,
}

/// ReadProperty, WriteProperty and ReadRange (15.5, 15.9, 15.8), whose requests begin with an object and a property.
const OF_ONE: [u8; 3] = [12, 15, 26];

/// ReadPropertyMultiple and WritePropertyMultiple (15.7, 15.10), where a list is between both.
const OF_SEVERAL: [u8; 2] = [14, 16];

/// What the contents of a request of this service are about.
pub fn subject_of(service: u8, data: &[u8]) -> Subject {
    let none = Subject {
        object: None,
        property: None,
    };
    let is_of_several = OF_SEVERAL.contains(&service);
    if !is_of_several && !OF_ONE.contains(&service) {
        return none;
    }
    let mut reader = Reader::new(data);
    let Some(object) = object_from(&mut reader) else {
        return none;
    };
    let property = if is_of_several {
        property_in_list(&mut reader)
    } else {
        number_from(1, &mut reader)
    };
    Subject {
        object: Some(object),
        property,
    }
}

/// The object at the front.
fn object_from(reader: &mut Reader<'_>) -> Option<ObjectId> {
    ObjectId::from_contents(contents_from(0, reader)?).ok()
}

/// The first property of a list.
fn property_in_list(reader: &mut Reader<'_>) -> Option<u32> {
    match reader.next() {
        Ok(Some(tag)) if tag == Tag::opening(1) => number_from(0, reader),
        Ok(_) | Err(_) => None,
    }
}

/// The number with a context tag of this number.
fn number_from(number: u8, reader: &mut Reader<'_>) -> Option<u32> {
    unsigned_from_contents(contents_from(number, reader)?).ok()
}

/// The contents of the next tag, where that is a context tag of this number.
fn contents_from<'a>(number: u8, reader: &mut Reader<'a>) -> Option<&'a [u8]> {
    match reader.next() {
        Ok(
            Some(
                Tag {
                    class: Class::Context,
                    number: found,
                    content: Content::Octets(octets),
                },
            ),
        ) if found == number => Some(octets),
        Ok(_) | Err(_) => None,
    }
}
