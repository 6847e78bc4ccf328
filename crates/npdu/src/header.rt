//! A whole header: read from octets, and written to them.

ghost use Rattle.std.specs.Prelude.{◌≡◌, ◌==◌, ◌/◌, ◌%◌, ◌++◌, ◌↔◌, IsTrue, IfOk, IfErr, OnOk, OnErr};
ghost use Rattle.npdu.specs.Fields.{SpellsFields, NoFields};
ghost use Rattle.npdu.specs.Header.{IsSound, Spells, OnlyHeader, NoHeader, header_of, control_of, canonical};
ghost use Rattle.npdu.specs.Priority.{priority_number};
ghost use Rattle.tags.specs.Canonical.{Extends};
ghost use Rattle.npdu.specs.Refusals.{Refuses, RefusesFields};

use crate::fields::{
    hops_from, message_from, place_from, put_hops, put_message, put_place, put_source, source_from,
};
use crate::priority::Priority;
use crate::view::View;
use std::alloc::{AllocError, Allocator};
use tags::{Fault, all_or_none};

/// The one version of the network layer's protocol (6.2.1).
const VERSION: u8 = 1;

/// What a control octet says (6.2.2); bits 6 and 4 are not looked at.
#[derive(Clone, Copy)]
struct Control {
    message: bool,
    destination: bool,
    source: bool,
    expects_reply: bool,
    priority: Priority,
}

fn control_in(octet: u8) -> Control
    ensures message { result.message ≡ (octet / 128 % 2 == 1) }
    ensures destination { result.destination ≡ (octet / 32 % 2 == 1) }
    ensures source { result.source ≡ (octet / 8 % 2 == 1) }
    ensures reply { result.expects_reply ≡ (octet / 4 % 2 == 1) }
    ensures priority { priority_number result.priority ≡ octet % 4 }
{
    Control {
        message: (octet >> 7) & 1 == 1,
        destination: (octet >> 5) & 1 == 1,
        source: (octet >> 3) & 1 == 1,
        expects_reply: (octet >> 2) & 1 == 1,
        priority: Priority::try_from(octet & 3).unwrap(),
    }
}

/// The control octet of a header, bits 6 and 4 clear.
fn control_of(view: &View<'_>) -> u8
    ensures { result ≡ control_of (header_of view.now) }
{
    128 * u8::from(view.message.is_some())
        + 32 * u8::from(view.destination.is_some())
        + 8 * u8::from(view.source.is_some())
        + 4 * u8::from(view.expects_reply)
        + u8::from(view.priority)
}

/// The header whose control octet this is, with these octets behind it, field by field.
#[inline(never)]
fn fields_from(control: u8, octets: &[u8]) -> Result<View<'_>, Fault>
    ensures read { IfOk result (λ view. SpellsFields control octets.now (header_of view)) }
    ensures refused { OnErr result (NoFields control octets.now) }
    ensures fault { IfErr result (λ fault. RefusesFields fault control octets.now) }
{
    let control = control_in(control);
    let (place, rest) = place_from(control.destination, octets)?;
    let (source, rest) = source_from(control.source, rest)?;
    let (destination, rest) = hops_from(place, rest)?;
    let (message, body) = message_from(control.message, rest)?;
    Ok(View {
        expects_reply: control.expects_reply,
        priority: control.priority,
        destination,
        source,
        message,
        body,
    })
}

/// The header whose control octet this is, with these octets behind it. Most announce no field, and are told at once.
fn view_from(control: u8, octets: &[u8]) -> Result<View<'_>, Fault>
    ensures read { IfOk result (λ view. SpellsFields control octets.now (header_of view)) }
    ensures refused { OnErr result (NoFields control octets.now) }
    ensures fault { IfErr result (λ fault. RefusesFields fault control octets.now) }
{
    let bits = control_in(control);
    if bits.message || bits.destination || bits.source {
        return fields_from(control, octets);
    }
    Ok(View {
        expects_reply: bits.expects_reply,
        priority: bits.priority,
        destination: None,
        source: None,
        message: None,
        body: octets,
    })
}

impl<'a> View<'a> {
    /// Whether every field is within its range, so that the header has a spelling.
    pub fn is_sound(&self) -> bool
        ensures { IsTrue result ↔ IsSound (header_of self.now) }
    {
        let destination = match self.destination {
            Some(destination) => destination.is_sound(),
            None => true,
        };
        let source = match self.source {
            Some(source) => source.is_sound(),
            None => true,
        };
        let message = match self.message {
            Some(message) => message.is_sound(),
            None => true,
        };
        destination && source && message
    }

    /// The header that the octets spell, and the octets behind it, all as slices of them (6.2).
    ///
    /// Refuses octets that spell none: `Short` where some octets behind would complete a header, `BadVersion`
    /// where the first octet is not 1, and `BadLength` where DNET is 0, SNET is 0 or FFFF, or SLEN is 0.
    pub fn read(octets: &'a [u8]) -> Result<View<'a>, Fault>
        ensures read { IfOk result (λ view. Spells octets.entry.now (header_of view)) }
        ensures only { IfOk result (λ view. OnlyHeader octets.entry.now (header_of view)) }
        ensures refused { OnErr result (NoHeader octets.entry.now) }
        ensures fault { IfErr result (λ fault. Refuses fault octets.entry.now) }
    {
        match octets {
            [VERSION, control, rest @ ..] => view_from(*control, rest),
            [] => Err(Fault::Short),
            [VERSION] => Err(Fault::Short),
            _ => Err(Fault::BadVersion),
        }
    }
}

fn put_header<B: Allocator>(view: &View<'_>, out: &mut Vec<u8, B>) -> Result<(), AllocError>
    requires { IsSound (header_of view.now) }
    ensures put { OnOk result (out.new.items ≡ out.old.items ++ canonical (header_of view.now)) }
    ensures err { OnErr result (Extends out.old.items out.new.items) }
{
    out.push(VERSION)?;
    out.push(control_of(view))?;
    put_place(&view.destination, out)?;
    put_source(&view.source, out)?;
    put_hops(&view.destination, out)?;
    put_message(&view.message, out)?;
    out.extend_from_slice(view.body)?;
    Ok(())
}

/// Appends the canonical octets of a header and its body, control bits 6 and 4 clear (6.2).
///
/// Requires a header that has a spelling, as `View::is_sound` tells. Refuses `Memory` alone, and then leaves
/// the octets as they were.
pub fn write<B: Allocator>(view: &View<'_>, out: &mut Vec<u8, B>) -> Result<(), Fault>
    requires sound { IsSound (header_of view.now) }
    ensures put { OnOk result (out.new.items ≡ out.old.items ++ canonical (header_of view.now)) }
    ensures memory { IfErr result (λ fault. fault ≡ Fault.Memory) }
    ensures err { OnErr result (out.new.items ≡ out.old.items) }
{
    let start = out.len();
    let put = put_header(view, out);
    all_or_none(put, start, out)
}
