//! Which packets of a capture a command line asks for.

ghost use Rattle.std.specs.Prelude.{◌≤◌, IfErr};

use crate::diagnosing::{number_of, say_failure};
use command_files::{Files, beginning, is_standard, say_faulty_word};
use command_order::Diagnosing;
use console::say_refused;
use diagnosis_names::Names;
use packet_choice::{Choice, Failure, Place, party_in, places_of};
use std::alloc::{AllocError, Global};
use std::io::Write;
use tags::Fault;
use words::parse_u32;

/// What a station is.
const STATION: &str =
    "an address as 10.0.0.9:47808, bus1/5 or 2:05@10.0.0.1:47808, or a name of --site";

/// What the instance of a device is.
const INSTANCE: &str = "the instance of a device, 0 to 4194302";

/// The instance that no device has (12.11.1).
const NO_INSTANCE: u32 = 4_194_303;

/// Which packets are asked for.
///
/// # Errors
/// The exit status where a word is none of its kind, or the capture can't be read, which is told.
pub(crate) fn choice_of<F: Files, E: Write>(
    alloc: Global,
    diagnosing: &Diagnosing,
    names: Option<&Names<Global>>,
    files: &F,
    in_colour: bool,
    err: &mut E,
) -> Result<Choice<Global>, u8>
    ensures { IfErr result (λ status. status ≤ 2) }
{
    let excerpt = &diagnosing.excerpt;
    let from = number_of("--from", excerpt.from.as_deref(), 0, in_colour, err)?;
    let to = number_of("--to", excerpt.to.as_deref(), u64::MAX, in_colour, err)?;
    let between = match excerpt.between.as_slice() {
        [one, other] => Some([
            station_of(alloc, one.as_str(), names, in_colour, err)?,
            station_of(alloc, other.as_str(), names, in_colour, err)?,
        ]),
        _ => None,
    };
    let device = match excerpt.instance.as_deref() {
        Some(word) => {
            let instance = instance_of(word, in_colour, err)?;
            Some(device_of(
                alloc,
                instance,
                diagnosing.capture.as_str(),
                files,
                in_colour,
                err,
            )?)
        }
        None => None,
    };
    Ok(Choice {
        from: from.saturating_mul(1000),
        to: to.saturating_mul(1000),
        between,
        device,
    })
}

/// Where the station is that a word names.
fn station_of<E: Write>(
    alloc: Global,
    word: &str,
    names: Option<&Names<Global>>,
    in_colour: bool,
    err: &mut E,
) -> Result<Vec<Place>, u8>
    ensures { IfErr result (λ status. status ≤ 2) }
{
    match places_named(alloc, word, names) {
        Ok(places) if places.is_empty() => {
            say_faulty_word("--between", STATION, word, in_colour, err);
            Err(2)
        }
        Ok(places) => Ok(places),
        Err(_) => Err(say_refused(Fault::Memory, err)),
    }
}

/// The places that a word names, as the station of this name or by an address; none where it is neither.
fn places_named(
    alloc: Global,
    word: &str,
    names: Option<&Names<Global>>,
) -> Result<Vec<Place>, AllocError> {
    let mut places = match names {
        Some(names) => names.places(alloc, word)?,
        None => Vec::new(alloc),
    };
    if let Some(party) = party_in(alloc, word)? {
        places.push(Place::At(party))?;
    }
    Ok(places)
}

/// The instance that a word says.
fn instance_of<E: Write>(word: &str, in_colour: bool, err: &mut E) -> Result<u32, u8>
    ensures { IfErr result (λ status. status ≤ 2) }
{
    match parse_u32(word) {
        Ok(instance) if instance < NO_INSTANCE => Ok(instance),
        Ok(_) | Err(_) => {
            say_faulty_word("--instance", INSTANCE, word, in_colour, err);
            Err(2)
        }
    }
}

/// Where the device of this instance is, as its I-Ams in the file of this name say.
fn device_of<F: Files, E: Write>(
    alloc: Global,
    instance: u32,
    name: &str,
    files: &F,
    in_colour: bool,
    err: &mut E,
) -> Result<Vec<Place>, u8>
    ensures { IfErr result (λ status. status ≤ 2) }
{
    if is_standard(Some(name)) {
        let beginning = beginning(in_colour);
        let _ = writeln!(
            err,
            "{beginning} --instance reads a file, and not standard input"
        );
        return Err(2);
    }
    let places = match files.open(name) {
        Ok(mut input) => places_of(alloc, instance, &mut input),
        Err(error) => Err(Failure::Reading(error)),
    };
    match places {
        Ok(places) => Ok(places),
        Err(failure) => Err(say_failure(name, &failure, in_colour, err)),
    }
}
