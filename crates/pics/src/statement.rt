//! The statement.

ghost use Rattle.std.specs.Prelude.{◌≡◌, length};

use crate::building_blocks::{ASKING, Asking, BuildingBlock, Family, SMART_ACTUATOR, Side};
use crate::names::type_name;
use crate::page::Form;
use crate::samples::{VALUE_KINDS, device, value_object};
use crate::sections::{write_limits, write_links, write_networking, write_others, write_segments};
use crate::told::{Blocks, Held, Nearest, Properties};
use apdu::Segmentation;
use object_model::Object;
use object_model::reading::read;
use primitives::{ObjectType, Property, Values};
use std::alloc::{AllocError, Allocator};
use std::io;
use std::io::Write;
use tags::Value;

/// Writes the protocol implementation conformance statement of this product (Annex A), section by section, in this
/// form. What it takes of memory is `alloc`'s, and let go again.
///
/// # Errors
/// Those of writing, and want of memory.
pub fn write_statement<A: Allocator + Copy, W: Write>(
    alloc: A,
    form: Form,
    out: &mut W,
) -> io::Result<()> {
    let device = device(alloc);
    form.write_title("BACnet protocol implementation conformance statement", out)?;
    write_product(alloc, &device, form, out)?;
    write_profile(alloc, &device, form, out)?;
    write_services(alloc, &device, form, out)?;
    write_segmentation(alloc, &device, form, out)?;
    write_types(alloc, &device, form, out)?;
    write_rest(form, out)
}

/// Writes the sections that no object tells.
fn write_rest<W: Write>(form: Form, out: &mut W) -> io::Result<()> {
    write_links(form, out)?;
    write_networking(form, out)?;
    write_others(form, out)?;
    write_limits(form, out)
}

/// Writes what the product is.
fn write_product<A: Allocator + Copy, W: Write>(
    alloc: A,
    device: &Object<A>,
    form: Form,
    out: &mut W,
) -> io::Result<()> {
    form.write_section("Product", out)?;
    write_held(alloc, device, ("Vendor", Property::VendorName), form, out)?;
    write_held(alloc, device, ("Product", Property::ModelName), form, out)?;
    let description = "devices, clients, routers and broadcast managers of a site, in one program";
    form.write_row("Description", description, out)?;
    let software = Property::ApplicationSoftwareVersion;
    write_held(
        alloc,
        device,
        ("Application software version", software),
        form,
        out,
    )?;
    write_held(
        alloc,
        device,
        ("Firmware revision", Property::FirmwareRevision),
        form,
        out,
    )?;
    write_held(
        alloc,
        device,
        ("Protocol revision", Property::ProtocolRevision),
        form,
        out,
    )
}

/// What a property of the Device object holds.
fn held<A: Allocator + Copy>(
    alloc: A,
    device: &Object<A>,
    property: Property,
) -> Result<Values<A>, AllocError> {
    held_beside(alloc, &[], device, property)
}

/// What a property of an object holds that is alone with these.
fn held_beside<'o, A: Allocator + Copy>(
    alloc: A,
    others: &'o [Object<A>],
    object: &'o Object<A>,
    property: Property,
) -> Result<Values<A>, AllocError>
    requires { length others.now ≡ 0 }
{
    read(alloc, others, object, property, None)
}

/// Writes a row with what a property of the Device object holds.
fn write_held<A: Allocator + Copy, W: Write>(
    alloc: A,
    device: &Object<A>,
    (label, property): (&str, Property),
    form: Form,
    out: &mut W,
) -> io::Result<()> {
    let values = held(alloc, device, property)?;
    match values.as_slice() {
        [value] => form.write_shown(label, &Held(value), out),
        _ => Ok(()),
    }
}

/// Writes the device profile, and the building blocks of devices and clients (Annexes K and L).
fn write_profile<A: Allocator + Copy, W: Write>(
    alloc: A,
    device: &Object<A>,
    form: Form,
    out: &mut W,
) -> io::Result<()> {
    let devices = blocks_of(alloc, device, Side::B)?;
    let clients = blocks_of(alloc, device, Side::A)?;
    let lacking = lacking_of(alloc, devices.as_slice())?;
    let foreign = [BuildingBlock {
        family: Family::ForeignDeviceRegistration,
        side: Side::A,
    }];
    form.write_section("Device profile and building blocks", out)?;
    form.write_shown("Nearest device profile", &Nearest(lacking.as_slice()), out)?;
    form.write_shown(
        "Building blocks of a device",
        &Blocks(devices.as_slice()),
        out,
    )?;
    form.write_shown(
        "Building blocks of a client",
        &Blocks(clients.as_slice()),
        out,
    )?;
    form.write_shown(
        "Building blocks of a foreign device or client",
        &Blocks(foreign.as_slice()),
        out,
    )
}

/// The building blocks of the services that the Device object names, for the side of a device or of a client, which
/// asks for each of them.
fn blocks_of<A: Allocator + Copy>(
    alloc: A,
    device: &Object<A>,
    side: Side,
) -> Result<Vec<BuildingBlock, A>, AllocError> {
    let supported = held(alloc, device, Property::ProtocolServicesSupported)?;
    let mut blocks = Vec::new(alloc);
    for asking in ASKING {
        if is_supported(supported.as_slice(), asking.place()) {
            blocks.push(BuildingBlock {
                family: asking.family(),
                side,
            })?;
        }
    }
    Ok(blocks)
}

/// Whether the bit at a place is set in the one Bit String that these values are.
fn is_supported<A: Allocator>(values: &[Value<A>], place: u8) -> bool {
    match values {
        [Value::Bits { octets, .. }] => match octets.as_slice().get(usize::from(place / 8)) {
            Some(octet) => (*octet >> (7 - place % 8)) & 1 == 1,
            None => false,
        },
        _ => false,
    }
}

/// The building blocks of the nearest profile that aren't among these.
fn lacking_of<A: Allocator + Copy>(
    alloc: A,
    blocks: &[BuildingBlock],
) -> Result<Vec<BuildingBlock, A>, AllocError> {
    let mut lacking = Vec::new(alloc);
    for wanted in SMART_ACTUATOR {
        if !blocks.contains(&wanted) {
            lacking.push(wanted)?;
        }
    }
    Ok(lacking)
}

/// Writes which services are initiated and executed by whom (Annex A).
fn write_services<A: Allocator + Copy, W: Write>(
    alloc: A,
    device: &Object<A>,
    form: Form,
    out: &mut W,
) -> io::Result<()> {
    let supported = held(alloc, device, Property::ProtocolServicesSupported)?;
    form.write_section("Services", out)?;
    for asking in ASKING {
        write_service(asking, supported.as_slice(), form, out)?;
    }
    form.write_row("I-Am", "initiated by devices, executed by clients", out)?;
    form.write_row("Other services", "none", out)
}

/// Writes a row for a service, if the values of Protocol_Services_Supported name it.
fn write_service<A: Allocator, W: Write>(
    asking: Asking,
    supported: &[Value<A>],
    form: Form,
    out: &mut W,
) -> io::Result<()> {
    if !is_supported(supported, asking.place()) {
        return Ok(());
    }
    form.write_row(
        asking.name(),
        "initiated by clients, executed by devices",
        out,
    )
}

/// Writes whether and how messages are segmented (5.2).
fn write_segmentation<A: Allocator + Copy, W: Write>(
    alloc: A,
    device: &Object<A>,
    form: Form,
    out: &mut W,
) -> io::Result<()> {
    let values = held(alloc, device, Property::SegmentationSupported)?;
    form.write_section("Segmentation", out)?;
    if let [Value::Enum(number)] = values.as_slice() {
        if let Ok(segmentation) = Segmentation::try_from(*number) {
            form.write_row("Segmented messages", segmentation_name(segmentation), out)?;
        }
    }
    write_segments(form, out)
}

/// What is said of a segmentation (21, BACnetSegmentation).
fn segmentation_name(segmentation: Segmentation) -> &'static str {
    match segmentation {
        Segmentation::Both => "transmitted and received",
        Segmentation::Transmit => "transmitted",
        Segmentation::Receive => "received",
        Segmentation::NoSegmentation => "none",
    }
}

/// Writes the object types with their properties (clause 12).
fn write_types<A: Allocator + Copy, W: Write>(
    alloc: A,
    device: &Object<A>,
    form: Form,
    out: &mut W,
) -> io::Result<()> {
    form.write_section("Object types", out)?;
    for kind in VALUE_KINDS {
        let object = value_object(alloc, kind)?;
        write_type(&object, form, out)?;
    }
    write_type(device, form, out)?;
    form.write_row("Objects created or deleted by a service", "none", out)?;
    form.write_row("Proprietary properties", "none", out)
}

/// Writes the type of an object with its properties.
fn write_type<A: Allocator, W: Write>(
    object: &Object<A>,
    form: Form,
    out: &mut W,
) -> io::Result<()> {
    form.write_shown(type_name(object_type(object)), &Properties(object), out)
}

/// The type of an object.
fn object_type<A: Allocator>(object: &Object<A>) -> ObjectType {
    match object {
        Object::Device(_) => ObjectType::Device,
        Object::Value(value) => value.kind.object_type(),
    }
}
