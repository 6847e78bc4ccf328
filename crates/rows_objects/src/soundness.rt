//! Whether octets can spell a request or a reply: `write 5:1 85 null at 17 -> not sound`.

use crate::text::is_reply;
use primitives::{
    ErrorClass, ErrorCode, ObjectRefs, ObjectResults, ObjectWrites, PropertyResult, Reply, Request,
};
use sheets::{Counts, Part, Stop, run_text, two_words};
use std::alloc::{AllocError, Allocator, Global};
use tags::{Items, ObjectId};
use words::{
    Unread, parse_any_reply, parse_any_request, parse_number, parse_object, parse_request,
};

/// What stands behind a list that names no object, or no property of its only object.
const NOTHING: &str = " nothing";

/// What stands before the number of a class or code whose name is left out.
const UNNAMED: &str = "unnamed/";

/// Runs a row.
pub(crate) fn run(alloc: Global, asked: &str, wanted: &str) -> Result<Counts, Stop> {
    let found = if is_sound(alloc, asked)? {
        "sound"
    } else {
        "not sound"
    };
    run_text(String::from_str(alloc, found)?, wanted)
}

/// Whether that which the words of a row say has a spelling.
fn is_sound<A: Allocator + Copy>(alloc: A, asked: &str) -> Result<bool, Stop> {
    if let Some(words) = asked.strip_prefix("errors ") {
        return are_sound_errors(alloc, words);
    }
    if let Some(words) = asked.strip_suffix(NOTHING) {
        return is_sound_nothing(alloc, words);
    }
    if is_reply(asked) {
        return Ok(parse_any_reply(alloc, asked)?.is_sound());
    }
    let is_sound = parse_any_request(alloc, asked)?.is_sound();
    is_told(alloc, asked, is_sound)?;
    Ok(is_sound)
}

/// Whether a script's line is refused for its want of a spelling only where the request has none.
///
/// # Errors
/// `Unread` where it is not so, `Memory`.
fn is_told<A: Allocator + Copy>(alloc: A, asked: &str, is_sound: bool) -> Result<(), Stop> {
    match parse_request(alloc, asked) {
        Ok(_) if !is_sound => Err(Stop::Unread(Part::Words)),
        Err(Unread::Sound) if is_sound => Err(Stop::Unread(Part::Said(Unread::Sound))),
        Err(Unread::Memory) => Err(Stop::Memory),
        _ => Ok(()),
    }
}

/// Whether a list has a spelling that names no object, or no property of one: `many`, `batch 5:1`.
fn is_sound_nothing<A: Allocator + Copy>(alloc: A, words: &str) -> Result<bool, Stop> {
    let none: Option<Request<A>> = match words.split_once(' ') {
        None if words == "many" => Some(Request::ReadMany(Items::new(alloc))),
        None if words == "batch" => Some(Request::WriteMany(Items::new(alloc))),
        Some(("many", id)) => Some(read_nothing(alloc, parse_object(id)?)?),
        Some(("batch", id)) => Some(write_nothing(alloc, parse_object(id)?)?),
        _ => None,
    };
    match none {
        Some(request) => Ok(request.is_sound()),
        None => Err(Stop::Unread(Part::Asked)),
    }
}

/// A ReadPropertyMultiple of no property of an object.
fn read_nothing<A: Allocator + Copy>(alloc: A, object: ObjectId) -> Result<Request<A>, AllocError> {
    let refs = Items::new(alloc);
    let mut groups = Items::new(alloc);
    groups.push(ObjectRefs { object, refs })?;
    Ok(Request::ReadMany(groups))
}

/// A WritePropertyMultiple of no property of an object.
fn write_nothing<A: Allocator + Copy>(
    alloc: A,
    object: ObjectId,
) -> Result<Request<A>, AllocError> {
    let writes = Items::new(alloc);
    let mut groups = Items::new(alloc);
    groups.push(ObjectWrites { object, writes })?;
    Ok(Request::WriteMany(groups))
}

/// Whether a class and a code have a spelling, as a reply alone, where a write failed, and where a
/// property was read.
///
/// # Errors
/// `Unread` where one of these has and another has none, `Memory`.
fn are_sound_errors<A: Allocator + Copy>(alloc: A, words: &str) -> Result<bool, Stop> {
    let (class, code) = two_words(words);
    let class = class_of(class)?;
    let code = code_of(code)?;
    let is_sound = is_sound_error::<A>(class, code);
    if is_sound_failure::<A>(class, code) == is_sound
        && is_sound_result(alloc, class, code)? == is_sound
    {
        return Ok(is_sound);
    }
    Err(Stop::Unread(Part::Words))
}

/// The class of a number, without its name where that is to be left out.
fn class_of(word: &str) -> Result<ErrorClass, Stop> {
    Ok(match word.strip_prefix(UNNAMED) {
        Some(number) => ErrorClass::Other(parse_number(number)?),
        None => ErrorClass::from(parse_number::<u32>(word)?),
    })
}

/// The code of a number, without its name where that is to be left out.
fn code_of(word: &str) -> Result<ErrorCode, Stop> {
    Ok(match word.strip_prefix(UNNAMED) {
        Some(number) => ErrorCode::Other(parse_number(number)?),
        None => ErrorCode::from(parse_number::<u32>(word)?),
    })
}

/// Whether a reply of a class and a code alone has a spelling.
fn is_sound_error<A: Allocator>(class: ErrorClass, code: ErrorCode) -> bool {
    let reply: Reply<A> = Reply::Error(class, code);
    reply.is_sound()
}

/// The object that rows of errors name: Binary Value 1.
const OBJECT: ObjectId = ObjectId {
    object_type: 5,
    instance: 1,
};

/// Whether a reply of the write of Present_Value that failed has a spelling.
fn is_sound_failure<A: Allocator>(class: ErrorClass, code: ErrorCode) -> bool {
    let reply: Reply<A> = Reply::ErrorAt {
        class,
        code,
        object: OBJECT,
        property: 85,
        index: None,
    };
    reply.is_sound()
}

/// Whether a ReadPropertyMultiple's reply of an error that Present_Value gives has a spelling.
fn is_sound_result<A: Allocator + Copy>(
    alloc: A,
    class: ErrorClass,
    code: ErrorCode,
) -> Result<bool, AllocError> {
    let mut results = Items::new(alloc);
    results.push(PropertyResult {
        property: 85,
        index: None,
        result: Err((class, code)),
    })?;
    let mut all = Items::new(alloc);
    all.push(ObjectResults {
        object: OBJECT,
        results,
    })?;
    Ok(Reply::Many(all).is_sound())
}
