//! Answers to requests (15, 20.1): `read 5:1 85 | 0C0140000119553E91013F -> values enum 1`, the service data
//! of a ComplexACK; `| simple`; `| error 2 40 at 5:1 77`; `| apdu 20020F`, a whole APDU. A reply is written
//! again. With `bare` in front the answer is read while each allocation is refused.

use crate::said::{bare, reply_in_words};
use apdu::{Apdu, ObjectPropertyReference, ServiceError};
use primitives::{ErrorClass, ErrorCode, Reply, Request};
use services::{Answer, answer_of, decode_reply, encode_reply, is_answer_to};
use sheets::{
    Counts, Given, Part, Stop, Trial, buffer_in, differs, octets, push_written, request_in,
    run_text, run_trial, try_row, two_words, written_octets,
};
use std::alloc::Allocator;
use words::{parse_number, parse_object, parse_reference};

/// What the octets of an answer are.
#[derive(Clone, Copy)]
enum Form {
    /// Nothing: the answer is a SimpleACK.
    Simple,
    /// Nothing: the answer is this Error.
    Error(ServiceError),
    /// The service data of a ComplexACK.
    Data,
    /// A whole APDU.
    Whole,
}

/// An answer to a request.
#[derive(Clone, Copy)]
struct Answers<'w> {
    request: &'w str,
    form: Form,
}

impl<'w, 'a> Trial<'a> for Answers<'w> {
    fn answer(&self, given: Given<'a>, octets: &[u8]) -> Result<String, Stop> {
        match self.form.answer(octets) {
            Some(answer) => told(given, given.other, given.memory, self.request, &answer),
            None => Ok(String::from_str(given.alloc, "no answer")?),
        }
    }
}

/// The reply that an answer to a request is, both in words. The request lies in other memory.
fn told<A: Allocator + Copy>(
    given: Given<'_>,
    other: A,
    memory: A,
    request: &str,
    answer: &Answer<'_>,
) -> Result<String, Stop> {
    let request = request_in(other, request)?;
    told_to(given, memory, &request, answer)
}

/// The reply that an answer to a request is, in words. The memory that the request lies in is refused meanwhile.
fn told_to<A: Allocator + Copy>(
    given: Given<'_>,
    memory: A,
    request: &Request<A>,
    answer: &Answer<'_>,
) -> Result<String, Stop> {
    given.other.refuse_all();
    let found = decode_reply(memory, request, answer);
    given.other.refuse_only(0);
    match found? {
        Some(reply) => replied(given, memory, request, &reply, answer),
        None => Ok(String::from_str(given.alloc, "none")?),
    }
}

impl Form {
    /// The answer that octets of this form are.
    fn answer<'o>(self, octets: &'o [u8]) -> Option<Answer<'o>> {
        match self {
            Form::Simple => Some(Answer::Simple),
            Form::Error(error) => Some(Answer::Error(error)),
            Form::Data => Some(Answer::Complex(octets)),
            Form::Whole => answer_in(octets),
        }
    }
}

/// The answer that an APDU is.
fn answer_in(octets: &[u8]) -> Option<Answer<'_>> {
    match Apdu::read(octets) {
        Ok(Apdu::SimpleAck { .. }) => Some(Answer::Simple),
        Ok(Apdu::ComplexAck { data, .. }) => Some(Answer::Complex(data)),
        Ok(Apdu::Error { error, .. }) => Some(Answer::Error(error)),
        _ => None,
    }
}

/// The service data of an answer, which is nothing where it has none.
fn data_of<'o>(answer: &Answer<'o>) -> &'o [u8] {
    match answer {
        Answer::Complex(data) => data,
        Answer::Simple | Answer::Error(_) => &[],
    }
}

/// A reply in words, with what is written of it where that is not what was read.
fn replied<A: Allocator + Copy>(
    given: Given<'_>,
    memory: A,
    request: &Request<A>,
    reply: &Reply<A>,
    answer: &Answer<'_>,
) -> Result<String, Stop> {
    let data = data_of(answer);
    if answer_of(reply, data) != *answer {
        return Err(differs(given.alloc, "a reply that goes in another answer"));
    }
    let mut text = reply_in_words(given.alloc, reply)?;
    push_again(given, memory, (request, reply), data, &mut text)?;
    Ok(text)
}

/// Appends what is written of a reply to a request, where that is not what was read.
fn push_again<A: Allocator + Copy>(
    given: Given<'_>,
    memory: A,
    (request, reply): (&Request<A>, &Reply<A>),
    data: &[u8],
    text: &mut String,
) -> Result<(), Stop> {
    if !request.is_sound() || !reply.is_sound() || !is_answer_to(request, reply) {
        return Err(differs(given.alloc, "a reply without a spelling"));
    }
    let mut out = buffer_in(memory)?;
    let came = encode_reply(request, reply, &mut out);
    push_written(data, written_octets(given, came, out.as_slice())?, text)?;
    Ok(())
}

/// Runs a row.
pub(crate) fn run(given: Given<'_>, asked: &str, wanted: &str) -> Result<Counts, Stop> {
    let (asked, is_bare) = bare(asked);
    let Some((request, answer)) = asked.split_once(" | ") else {
        return Err(Stop::Unread(Part::Asked));
    };
    let (form, word) = form_of(answer)?;
    if is_bare {
        return run_bare(given, request, form, wanted);
    }
    run_answers(given, &Answers { request, form }, word, wanted)
}

/// Runs an answer on its octets, which are changed where there are any.
fn run_answers(
    given: Given<'_>,
    answers: &Answers<'_>,
    word: &str,
    wanted: &str,
) -> Result<Counts, Stop> {
    let octets = octets(given.alloc, word)?;
    if octets.is_empty() {
        return try_row(given, answers, &[], wanted);
    }
    run_trial(given, answers, octets.as_slice(), wanted)
}

/// The form of an answer, and its octets in words.
fn form_of(answer: &str) -> Result<(Form, &str), Stop> {
    match two_words(answer) {
        ("simple", "") => Ok((Form::Simple, "-")),
        ("error", words) => Ok((Form::Error(error(words)?), "-")),
        ("apdu", word) => Ok((Form::Whole, word)),
        (word, "") => Ok((Form::Data, word)),
        _ => Err(Stop::Unread(Part::Asked)),
    }
}

/// Why a service failed, as `2 40` or `2 40 at 5:1 77`.
fn error(words: &str) -> Result<ServiceError, Stop> {
    let (numbers, first_failed) = match words.split_once(" at ") {
        Some((numbers, place)) => (numbers, Some(failed_at(place)?)),
        None => (words, None),
    };
    let (class, code) = two_words(numbers);
    Ok(ServiceError {
        class: ErrorClass::from(parse_number::<u32>(class)?),
        code: ErrorCode::from(parse_number::<u32>(code)?),
        first_failed,
    })
}

/// The first write that failed, as `5:1 77`.
fn failed_at(place: &str) -> Result<ObjectPropertyReference, Stop> {
    let (object, reference) = two_words(place);
    let reference = parse_reference(reference)?;
    Ok(ObjectPropertyReference {
        object: parse_object(object)?,
        property: reference.property,
        index: reference.index,
    })
}

/// The reply that an answer without service data is, in words.
fn told_bare<A: Allocator + Copy>(
    given: Given<'_>,
    other: A,
    memory: A,
    request: &str,
    answer: &Answer<'_>,
) -> Result<String, Stop> {
    let request = request_in(other, request)?;
    told_bare_to(given, memory, &request, answer)
}

/// The reply that an answer to a request is, in words, read while each allocation is refused.
fn told_bare_to<A: Allocator + Copy>(
    given: Given<'_>,
    memory: A,
    request: &Request<A>,
    answer: &Answer<'_>,
) -> Result<String, Stop> {
    given.memory.refuse_all();
    let found = decode_reply(memory, request, answer);
    given.memory.refuse_only(0);
    match found? {
        Some(reply) => reply_in_words(given.alloc, &reply),
        None => Ok(String::from_str(given.alloc, "none")?),
    }
}

/// Runs a row of an answer without service data.
fn run_bare(given: Given<'_>, request: &str, form: Form, wanted: &str) -> Result<Counts, Stop> {
    match form.answer(&[]) {
        Some(answer) => {
            let text = told_bare(given, given.other, given.memory, request, &answer)?;
            run_text(text, wanted)
        }
        None => Err(Stop::Unread(Part::Asked)),
    }
}
