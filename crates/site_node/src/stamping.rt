//! What a manager says, as datagrams that go out with a stamp.

ghost use Rattle.std.specs.Prelude.{◌≡◌, ◌++◌, OnOk, map};
ghost use Rattle.site_node.specs.Stamping as spec;
ghost use Rattle.site_node.specs.Stamping.{stamped};

use bbmd::Outgoing;
use bvll::Function;
use link::{PortSent, Sent};
use npdu::Mac;
use std::alloc::{AllocError, Allocator};
use tags::Items;

/// The number of the one place at which a manager is.
const ITS_PORT: usize = 0;

/// Whether octets are those of a Forwarded-NPDU (J.2.5).
fn carries_on(octets: &[u8]) -> bool
    ensures { result ≡ spec.carries_on octets.now }
{
    match octets {
        [_, function, ..] => *function == u8::from(Function::ForwardedNpdu),
        [_] | [] => false,
    }
}

/// A datagram with its stamp: that of what was heard where it carries an NPDU on, else the moment `now`.
fn stamped<A: Allocator>(said: Outgoing<A>, stamp: u64, now: u64) -> PortSent<A>
    ensures { result ≡ stamped stamp now said }
{
    let stamp = if carries_on(said.octets.as_slice()) {
        stamp
    } else {
        now
    };
    PortSent {
        port: ITS_PORT,
        sent: Sent {
            to: Mac::Six(said.to.to_octets()),
            octets: said.octets,
            stamp,
        },
    }
}

/// Appends what a manager says at the moment `now`, in milliseconds, of what was said at the moment `stamp`, as it goes
/// out.
///
/// # Errors
/// Want of memory.
pub(crate) fn put_out<A: Allocator + Copy>(
    said: Items<Outgoing<A>, A>,
    stamp: u64,
    now: u64,
    out: &mut Items<PortSent<A>, A>,
) -> Result<(), AllocError>
    ensures { OnOk result (out.new ≡ out.old ++ map (stamped stamp now) said) }
{
    for one in said.into_vec() {
        out.push(stamped(one, stamp, now))?;
    }
    Ok(())
}
