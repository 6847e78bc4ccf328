//! The script to begin with.

use std::alloc::{AllocError, Allocator};

/// What happens first: the client hears who is there.
const HEAD: &str = "# A script for site.toml, one step per line. docs/script.md describes all steps.

# Who is there? Each device answers with its instance. 1000 ms pass, in which everything that is sent arrives.
whois panel
flow 1000

# Read the setpoint of each device.
";

/// What happens after the reads.
const TAIL: &str = "flow 1000

# Write another setpoint to device 1.
issue panel 1 write integer-value,1 present-value signed 22
flow 1000

# Switch its fan on at priority 8 (Manual Operator), read it, and relinquish the command.
issue panel 1 write binary-value,1 present-value active at 8
flow 1000
issue panel 1 read binary-value,1 present-value
flow 1000
issue panel 1 write binary-value,1 present-value null at 8
flow 1000
";

/// Returns a script for the site file of so many devices, 1 to 250: the client asks who is there, reads from each
/// device, and writes to the first.
///
/// # Errors
/// Want of memory.
pub fn script_text<A: Allocator + Copy>(alloc: A, devices: u16) -> Result<Vec<u8, A>, AllocError> {
    let mut text = Vec::from_slice(alloc, HEAD.as_bytes())?;
    for device in 1..=devices {
        let line = format!(in alloc; "issue panel {device} read integer-value,1 present-value\n")?;
        text.extend_from_slice(line.as_bytes())?;
    }
    text.extend_from_slice(TAIL.as_bytes())?;
    Ok(text)
}
