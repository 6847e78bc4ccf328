//! The fields of a header behind its control octet, one after another.

ghost use Rattle.std.specs.Prelude.{◌≡◌, ◌∷◌, ◌++◌, ◌<◌, [], length, option_map, IfOk, IfErr, IfSome, OnOk, OnErr};
ghost use Rattle.std.specs.Prelude.{IsOkUnless};
ghost use Rattle.byteorder.specs.Endian.{big_bytes};
ghost use Rattle.npdu.specs.Message.{IsMessage, message_type, type_octets};
ghost use Rattle.npdu.specs.Header.{IsDestination, IsSource, dnet_octets, destination_of, source_of, snet_octets};
ghost use Rattle.npdu.specs.Header.{hop_octets, message_octets};
ghost use Rattle.npdu.specs.Fields.{Takes, Only, Lacks, Begins, IsNet, IsMac, IsAddress, address_octets, place_of};
ghost use Rattle.npdu.specs.Fields.{place_octets, IsPlaceIf, IsSourceIf, IsDestinationAt, IsMessageIf};
ghost use Rattle.tags.specs.Canonical.{Extends};
ghost use Rattle.npdu.specs.Refusals.{RefusesPlace, RefusesSource};

use crate::message::Message;
use crate::view::{Destination, Dnet, GLOBAL, Source};
use byteorder::{BigEndian, ByteOrder};
use std::alloc::{AllocError, Allocator};
use tags::Fault;

/// DNET and DADR.
#[derive(Clone, Copy)]
pub(crate) struct Place<'a> {
    pub net: Dnet,
    pub mac: &'a [u8],
}

/// Two octets as a number, most significant first.
fn number_from(octets: &[u8]) -> Result<(u16, &[u8]), Fault>
    ensures read { IfOk result (λ x. octets.now ≡ big_bytes 2 x.0 ++ x.1.now) }
    ensures short { OnErr result (length octets.now < 2) }
    ensures cut { OnErr result (Begins IsNet (big_bytes 2) octets.now) }
    ensures fault { IsOkUnless result Fault.Short }
{
    match octets {
        [high, low, rest @ ..] => Ok((BigEndian::read_u16(&[*high, *low]), rest)),
        _ => Err(Fault::Short),
    }
}

/// An octet of length, and an address of as many octets.
#[tactic(auto, using(crate::proofs::FieldLaws::mac_steps))]
fn mac_from(octets: &[u8]) -> Result<(&[u8], &[u8]), Fault>
    ensures read { IfOk result (λ x. Takes IsMac address_octets octets.now x.0.now x.1.now) }
    ensures refused { OnErr result (Lacks IsMac address_octets octets.now) }
    ensures cut { OnErr result (Begins IsAddress address_octets octets.now) }
    ensures fault { IsOkUnless result Fault.Short }
{
    match octets {
        [len, rest @ ..] => {
            let len = usize::from(*len);
            if rest.len() < len {
                return Err(Fault::Short);
            }
            Ok(rest.split_at(len))
        }
        [] => Err(Fault::Short),
    }
}

/// A number in two octets, a length and an address.
fn put_address<B: Allocator>(net: u16, mac: &[u8], out: &mut Vec<u8, B>) -> Result<(), AllocError>
    requires { length mac.now < 256 }
    ensures put { OnOk result (out.new.items ≡ out.old.items ++ (big_bytes 2 net ++ (length mac.now ∷ mac.now))) }
    ensures err { OnErr result (Extends out.old.items out.new.items) }
{
    let mut number = [0u8; 2];
    BigEndian::write_u16(&mut number, net);
    out.extend_from_slice(&number)?;
    out.push(mac.len() as u8)?;
    out.extend_from_slice(mac)?;
    Ok(())
}

/// DNET, DLEN and DADR.
#[tactic(auto, using(crate::proofs::FieldLaws::place_steps))]
pub(crate) fn place_from(present: bool, octets: &[u8]) -> Result<(Option<Place<'_>>, &[u8]), Fault>
    ensures read { IfOk result (λ x. Takes (IsPlaceIf present) place_octets octets.now
        (option_map place_of x.0) x.1.now) }
    ensures only { IfOk result (λ x. Only (IsPlaceIf present) place_octets octets.now
        (option_map place_of x.0) x.1.now) }
    ensures refused { OnErr result (Lacks (IsPlaceIf present) place_octets octets.now) }
    ensures fault { IfErr result (λ fault. RefusesPlace fault present octets.now) }
{
    if !present {
        return Ok((None, octets));
    }
    let (net, rest) = number_from(octets)?;
    if net == 0 {
        return Err(Fault::BadLength);
    }
    let net = Dnet::from(net);
    let (mac, rest) = mac_from(rest)?;
    Ok((Some(Place { net, mac }), rest))
}

pub(crate) fn put_place<B: Allocator>(
    destination: &Option<Destination<'_>>,
    out: &mut Vec<u8, B>,
) -> Result<(), AllocError>
    requires { IfSome (option_map destination_of destination.now) IsDestination }
    ensures put { OnOk result (out.new.items ≡ out.old.items ++
        dnet_octets (option_map destination_of destination.now)) }
    ensures err { OnErr result (Extends out.old.items out.new.items) }
{
    if let Some(destination) = destination {
        put_address(u16::from(destination.net), destination.mac, out)?;
    }
    Ok(())
}

/// SNET, SLEN and SADR.
#[tactic(auto, using(crate::proofs::FieldLaws::source_steps))]
pub(crate) fn source_from(
    present: bool,
    octets: &[u8],
) -> Result<(Option<Source<'_>>, &[u8]), Fault>
    ensures read { IfOk result (λ x. Takes (IsSourceIf present) snet_octets octets.now
        (option_map source_of x.0) x.1.now) }
    ensures only { IfOk result (λ x. Only (IsSourceIf present) snet_octets octets.now
        (option_map source_of x.0) x.1.now) }
    ensures refused { OnErr result (Lacks (IsSourceIf present) snet_octets octets.now) }
    ensures fault { IfErr result (λ fault. RefusesSource fault present octets.now) }
{
    if !present {
        return Ok((None, octets));
    }
    let (net, rest) = number_from(octets)?;
    if net == 0 || net == GLOBAL {
        return Err(Fault::BadLength);
    }
    let (mac, rest) = mac_from(rest)?;
    if mac.is_empty() {
        return Err(Fault::BadLength);
    }
    Ok((Some(Source { net, mac }), rest))
}

pub(crate) fn put_source<B: Allocator>(
    source: &Option<Source<'_>>,
    out: &mut Vec<u8, B>,
) -> Result<(), AllocError>
    requires { IfSome (option_map source_of source.now) IsSource }
    ensures put { OnOk result (out.new.items ≡ out.old.items ++ snet_octets (option_map source_of source.now)) }
    ensures err { OnErr result (Extends out.old.items out.new.items) }
{
    if let Some(source) = source {
        put_address(source.net, source.mac, out)?;
    }
    Ok(())
}

/// The hop count behind a destination's place.
pub(crate) fn hops_from<'a>(
    place: Option<Place<'a>>,
    octets: &'a [u8],
) -> Result<(Option<Destination<'a>>, &'a [u8]), Fault>
    ensures read { IfOk result (λ x. Takes (IsDestinationAt
        (option_map place_of place.entry)) hop_octets octets.entry.now (option_map destination_of x.0) x.1.now) }
    ensures only { IfOk result (λ x. Only (IsDestinationAt
        (option_map place_of place.entry)) hop_octets octets.entry.now (option_map destination_of x.0) x.1.now) }
    ensures refused { OnErr result (Lacks (IsDestinationAt
        (option_map place_of place.entry)) hop_octets octets.entry.now) }
    ensures cut { OnErr result (Begins (IsDestinationAt
        (option_map place_of place.entry)) hop_octets octets.entry.now) }
    ensures fault { IsOkUnless result Fault.Short }
{
    let Some(Place { net, mac }) = place else {
        return Ok((None, octets));
    };
    match octets {
        [hops, rest @ ..] => Ok((
            Some(Destination {
                net,
                mac,
                hops: *hops,
            }),
            rest,
        )),
        [] => Err(Fault::Short),
    }
}

pub(crate) fn put_hops<B: Allocator>(
    destination: &Option<Destination<'_>>,
    out: &mut Vec<u8, B>,
) -> Result<(), AllocError>
    ensures put { OnOk result (out.new.items ≡ out.old.items ++
        hop_octets (option_map destination_of destination.now)) }
    ensures err { OnErr result (Extends out.old.items out.new.items) }
{
    if let Some(destination) = destination {
        out.push(destination.hops)?;
    }
    Ok(())
}

/// A message type below 128.
fn standard_message(kind: u8) -> Message
    requires { kind < 128 }
    ensures sound { IsMessage result }
    ensures kind { message_type result ≡ kind }
    ensures alone { type_octets result ≡ kind ∷ [] }
{
    match kind {
        0 => Message::WhoIsRouterToNetwork,
        1 => Message::IAmRouterToNetwork,
        3 => Message::RejectMessageToNetwork,
        _ => Message::Other(kind),
    }
}

/// The message type, and the vendor's identifier where the type is a vendor's own.
pub(crate) fn message_from(present: bool, octets: &[u8]) -> Result<(Option<Message>, &[u8]), Fault>
    ensures read { IfOk result (λ x. Takes (IsMessageIf present) message_octets octets.now x.0 x.1.now) }
    ensures only { IfOk result (λ x. Only (IsMessageIf present) message_octets octets.now x.0 x.1.now) }
    ensures refused { OnErr result (Lacks (IsMessageIf present) message_octets octets.now) }
    ensures cut { OnErr result (Begins (IsMessageIf present) message_octets octets.now) }
    ensures fault { IsOkUnless result Fault.Short }
{
    if !present {
        return Ok((None, octets));
    }
    let [kind, rest @ ..] = octets else {
        return Err(Fault::Short);
    };
    if *kind < 128 {
        return Ok((Some(standard_message(*kind)), rest));
    }
    let (vendor, rest) = number_from(rest)?;
    Ok((
        Some(Message::Proprietary {
            kind: *kind,
            vendor,
        }),
        rest,
    ))
}

pub(crate) fn put_message<B: Allocator>(
    message: &Option<Message>,
    out: &mut Vec<u8, B>,
) -> Result<(), AllocError>
    ensures put { OnOk result (out.new.items ≡ out.old.items ++ message_octets message.now) }
    ensures err { OnErr result (Extends out.old.items out.new.items) }
{
    let Some(message) = message else {
        return Ok(());
    };
    out.push(u8::from(*message))?;
    if let Message::Proprietary { kind: _, vendor } = message {
        let mut number = [0u8; 2];
        BigEndian::write_u16(&mut number, *vendor);
        out.extend_from_slice(&number)?;
    }
    Ok(())
}
