//! The site file to begin with.

use std::alloc::{AllocError, Allocator};

/// What stands before the devices: a network and a client.
const HEAD: &str =
    r#"# A BACnet site: its networks, and the stations on them. docs/site-file.md has all keys.
#
#   bacsite check site.toml first.script          reports what is wrong with it
#   bacsite sim site.toml first.script --names    runs the script in simulated time
#   bacsite run site.toml first.script --names    runs it live, over UDP

# Networks have numbers, 1 to 65534. "ip" is BACnet/IP, "mstp" an MS/TP bus.
network = [{number = 1, kind = "ip"}]

# Clients send requests. Each station has an address of its own, here one of this machine, so that the site also runs
# live. 47808 is the port of BACnet/IP.
client = [{name = "panel", network = 1, subnet = 1, address = "127.0.0.1:47808"}]

# Devices answer requests. Each is known by its instance, 0 to 4194302.
# An object has a type (binary-value, multi-state-value, character-string-value, integer-value), an instance, a name,
# and a default: the value that it has until one is written. units = 62 is degrees Celsius.
"#;

/// The objects of a device.
const OBJECTS: &str = r#"object = [
  {type = "binary-value", instance = 1, name = "Fan", default = 0, description = "0 is inactive, 1 is active"},
  {type = "integer-value", instance = 1, name = "Setpoint", default = 20, units = 62},
]
"#;

/// Returns a site file of one BACnet/IP network with a client, `panel`, and so many devices, 1 to 250: `device1` with
/// the instance 1, and so on, each with a Binary Value 1 and an Integer Value 1. The client is at 127.0.0.1,
/// the devices are at 127.0.0.2 to 127.0.0.251, all with port 47808, which Wireshark takes for BACnet (J.1.2).
///
/// # Errors
/// Want of memory.
pub fn site_text<A: Allocator + Copy>(alloc: A, devices: u16) -> Result<Vec<u8, A>, AllocError> {
    let mut text = Vec::from_slice(alloc, HEAD.as_bytes())?;
    for device in 1..=devices {
        push_device(alloc, device, &mut text)?;
    }
    Ok(text)
}

/// Adds a device.
fn push_device<A: Allocator + Copy>(
    alloc: A,
    device: u16,
    text: &mut Vec<u8, A>,
) -> Result<(), AllocError> {
    let host = 1 + u32::from(device);
    let name = format!(in alloc; "\n[[device]]\nname = \"device{device}\"\ninstance = {device}\n")?;
    text.extend_from_slice(name.as_bytes())?;
    let place = format!(in alloc; "network = 1\nsubnet = 1\naddress = \"127.0.0.{host}:47808\"\n")?;
    text.extend_from_slice(place.as_bytes())?;
    text.extend_from_slice(OBJECTS.as_bytes())
}
