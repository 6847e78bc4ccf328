//! What the station of a name is at.

ghost use Rattle.std.specs.Prelude.{OnOk};
ghost use Rattle.site_states.specs.Shown.{PrintsShown, PrintsState};

use crate::clients::write_client;
use crate::devices::write_device;
use crate::managers::write_manager;
use crate::routers::write_router;
use crate::telling::{Head, Telling};
use site_history::{World, print_refusal};
use site_node::Part;
use std::alloc::{AllocError, Allocator};
use std::io;
use std::io::Write;
use tags::Fault;
use words::Spelling;

/// Prints what the station of a name is at, a thing on each line, with memory of `alloc`; or that it is refused: where
/// no station has this name, with `NoSuch`, and for want of memory. Answers how it was refused, if it was.
///
/// # Errors
/// Those of writing.
#[tactic(auto, using(crate::proofs::ShownLaws::shown_laws))]
pub fn print_state<A: Allocator + Copy, W: Write>(
    alloc: A,
    world: &World<A>,
    name: &[u8],
    spelling: Spelling,
    out: &mut W,
) -> io::Result<Option<Fault>>
    ensures { OnOk result (PrintsShown name.now world.now (W.contents out.old) (W.contents out.new)) }
{
    let moment = world.moment();
    let Some(node) = world.node(name) else {
        print_refusal(Fault::NoSuch, moment, out)?;
        return Ok(Some(Fault::NoSuch));
    };
    let head = Head { moment, name };
    let telling = Telling {
        moment,
        name,
        stations: world.site().stations(),
        spelling,
    };
    match rest_of(alloc, telling, node.part()) {
        Ok(rest) => {
            print_rest(head, rest.as_slice(), out)?;
            Ok(None)
        }
        Err(AllocError) => {
            print_refusal(Fault::Memory, moment, out)?;
            Ok(Some(Fault::Memory))
        }
    }
}

/// Prints the beginning of the first line, and the rest.
#[tactic(auto, using(crate::proofs::ShownLaws::rest_laws))]
fn print_rest<W: Write>(head: Head<'_>, rest: &[u8], out: &mut W) -> io::Result<()>
    ensures { OnOk result
        (PrintsState head.entry.moment head.entry.name.now (W.contents out.old) (W.contents out.new)) }
{
    write!(out, "{head}")?;
    out.write_all(rest)
}

/// What is told behind the beginning of the first line.
fn rest_of<A: Allocator + Copy>(
    alloc: A,
    telling: Telling<'_, A>,
    part: &Part<A>,
) -> Result<Vec<u8, A>, AllocError> {
    let mut rest = Vec::new(alloc);
    match write_part(alloc, telling, part, &mut rest) {
        Ok(()) => Ok(rest),
        Err(_) => Err(AllocError),
    }
}

/// Writes it.
fn write_part<A: Allocator + Copy, W: Write>(
    alloc: A,
    telling: Telling<'_, A>,
    part: &Part<A>,
    out: &mut W,
) -> io::Result<()> {
    match part {
        Part::Device(device) => write_device(alloc, telling, device, out),
        Part::Client(client) => write_client(telling, client, out),
        Part::Router(router) => write_router(telling, router, out),
        Part::Manager { net, manager } => write_manager(telling, *net, manager, out),
    }
}
