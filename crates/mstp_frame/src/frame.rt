//! Frames, read and written.

ghost use Rattle.std.specs.Prelude.{◌≡◌, ◌≤◌, ◌++◌, ◌∷◌, length, OnOk, OnErr, IfErr};
ghost use Rattle.byteorder.specs.Endian.{big_bytes};
ghost use Rattle.profile.specs.Limits as limit;
ghost use Rattle.tags.specs.Canonical.{Extends};
ghost use Rattle.tags.specs.Number.{AreOctets};
ghost use Rattle.mstp_frame.specs.Frame.{canonical, checked, frame_of, header, IsSound, Spells};

use crate::check::{data_check, header_check};
use crate::frame_type::FrameType;
use crate::front::{frame_from, is_frame};
use std::alloc::{AllocError, Allocator};
use tags::{Fault, all_or_none};

/// The octets that each frame begins with (9.3).
pub const PREAMBLE: [u8; 2] = [0x55, 0xFF];

/// A frame (9.3). Its data are the named slice of the octets that it was read from.
#[derive(Clone, Copy, Debug)]
pub struct Frame<'a> {
    pub frame_type: FrameType,
    /// The MAC of the node that is to hear it; 255 is all.
    pub destination: u8,
    /// The MAC of the node that says it.
    pub source: u8,
    pub data: &'a [u8],
}

impl<'a> Frame<'a> {
    ghost use Rattle.std.specs.Prelude.{IfSome, IfNone};
    ghost use Rattle.mstp_frame.specs.Feeding.{HasNamedType};
    ghost use Rattle.mstp_frame.specs.Frame.{frame_of, Spells};
    ghost use Rattle.mstp_frame.specs.Heard.{NoFrame};

    /// The frame that octets spell, all of them (9.3), and none where they spell none. It takes no memory.
    #[tactic(auto, using(crate::proofs::Reading::eight_spelled))]
    pub fn read(octets: &'a [u8]) -> Option<Frame<'a>>
        ensures read { IfSome result (λ f. Spells octets.now (frame_of f)) }
        ensures named { HasNamedType result }
        ensures none { IfNone result (NoFrame octets.now) }
    {
        if is_frame(octets) {
            Some(frame_from(octets))
        } else {
            None
        }
    }
}

/// Appends the frame's one spelling (9.3). After an `Err` the buffer is as it was.
///
/// # Errors
///
/// `Memory` alone.
pub fn write_frame<B: Allocator>(frame: &Frame<'_>, out: &mut Vec<u8, B>) -> Result<(), Fault>
    requires { length (frame_of frame.now).contents ≤ limit.MAX_FRAME_DATA_OCTETS }
    ensures written { OnOk result (out.new.items ≡ out.old.items ++ canonical (frame_of frame.now)) }
    ensures spelled { OnOk result (Spells (canonical (frame_of frame.now)) (frame_of frame.now)) }
    ensures memory { IfErr result (λ e. e ≡ Fault.Memory) }
    ensures unchanged { OnErr result (out.new.items ≡ out.old.items) }
{
    let start = out.len();
    let put = put_frame(frame, out);
    all_or_none(put, start, out)
}

fn put_frame<B: Allocator>(frame: &Frame<'_>, out: &mut Vec<u8, B>) -> Result<(), AllocError>
    requires { length (frame_of frame.now).contents ≤ limit.MAX_FRAME_DATA_OCTETS }
    ensures put { OnOk result (out.new.items ≡ out.old.items ++ canonical (frame_of frame.now)) }
    ensures sound { OnOk result (IsSound (frame_of frame.now)) }
    ensures err { OnErr result (Extends out.old.items out.new.items) }
{
    let [high, low] = (frame.data.len() as u16).to_be_bytes();
    let header = [
        u8::from(frame.frame_type),
        frame.destination,
        frame.source,
        high,
        low,
    ];
    out.extend_from_slice(&PREAMBLE)?;
    out.extend_from_slice(&header)?;
    out.push(header_check(&header))?;
    put_data(frame.data, out)
}

/// Appends data and their check octets, and nothing where there are none.
fn put_data<B: Allocator>(data: &[u8], out: &mut Vec<u8, B>) -> Result<(), AllocError>
    ensures put { OnOk result (out.new.items ≡ out.old.items ++ checked «data».now) }
    ensures octets { OnOk result (AreOctets «data».now) }
    ensures err { OnErr result (Extends out.old.items out.new.items) }
{
    if data.is_empty() {
        return Ok(());
    }
    out.extend_from_slice(data)?;
    out.extend_from_slice(&data_check(data).to_le_bytes())
}
