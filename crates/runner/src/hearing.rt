//! Which station of a bus hears a frame next.

ghost use Rattle.std.specs.Prelude.{◌≡◌, ◌<◌, ◌↔◌, ◌^◌, IsTrue, Some, IfOk, slice_get};
ghost use Rattle.simulator.specs.world.Step.{IsSoundIfAny};
ghost use Rattle.runner.specs.Hearing.{HearsThemIfAny, IsNextHear, begun, turn_after};

use bus_traffic::{NextTold, Telling};
use npdu::{Mac, Station};
use simulator::{Event, Internetwork};
use site_views::at_address;
use std::alloc::{AllocError, Allocator};
use tags::Fault;

/// How far the frames of all buses were heard, of those that were put out before some moment.
#[derive(Clone, Copy, Debug, PartialEq, Eq)]
pub struct Heard {
    /// Whose turn it is.
    turn: Telling,
    /// How many frames were put out before that moment.
    before: u64,
}

impl Heard {
    /// Nothing was heard, and nothing is to be.
    pub fn new() -> Self
        ensures { result ≡ begun }
    {
        Heard {
            turn: Telling { frames: 0, ear: 0 },
            before: 0,
        }
    }

    /// All that was put out so far is to be heard: so many frames were.
    pub fn go_on(&mut self, frames: u64)
        ensures { self.new ≡ record self.old { before = frames } }
    {
        self.before = frames;
    }

    /// Whether nothing was put out since all that was is to be heard, where so many frames were put out so far.
    pub fn is_up_to(&self, frames: u64) -> bool
        ensures { IsTrue result ↔ (self.now.before ≡ frames) }
    {
        self.before == frames
    }
}

/// The station at an ear hears a frame, if the site has one there.
fn hear_event<A: Allocator + Copy>(
    world: &Internetwork<A>,
    next: &NextTold<'_, A>,
) -> Result<Option<Event<A>>, AllocError>
    ensures hears { IfOk result (HearsThemIfAny world.now next.now.bus.now.net next.now.ear.now.address
        next.now.recent.now.sending.octets) }
    ensures sound { IfOk result IsSoundIfAny }
{
    let net = next.bus.net;
    let mac = Mac::One(next.ear.address);
    let Some(station) = at_address(Station { net, mac }, world.site().stations()) else {
        return Ok(None);
    };
    Ok(Some(Event::Hear {
        network: net,
        station: station.name.copy(world.alloc())?,
        octets: next.recent.sending.octets.copy(world.alloc())?,
    }))
}

/// Whose turn it is once a frame was heard at an ear.
fn turn_behind<A: Allocator>(next: &NextTold<'_, A>) -> Telling
    requires there { slice_get next.now.bus.now.ears.items next.now.ear_place ≡ Some next.now.ear.now }
    ensures turn { result ≡ turn_after next.now.recent.now next.now.ear_place }
    ensures fits { next.now.ear_place < 2 ^ 64 }
{
    Telling {
        frames: next.recent.sending.place.frames,
        ear: next.ear_place + 1,
    }
}

/// The next hearing of a frame, and whose turn it is then; or none where each frame was heard at each ear. A frame that
/// is too old to be heard is passed.
///
/// # Errors
/// `Memory`, and then it is the same turn; or `NoSuch` where the site has no station at an ear, which is passed.
#[tactic(auto, using(crate::proofs::HearingLaws::hear_rules))]
pub fn next_hear<A: Allocator + Copy>(
    world: &Internetwork<A>,
    heard: &mut Heard,
) -> Result<Option<Event<A>>, Fault>
    ensures next { IsNextHear world.now heard.old heard.new result }
    ensures sound { IfOk result IsSoundIfAny }
{
    let now = world.moment();
    let Some(next) = world.buses().next_hear(heard.turn, heard.before, now) else {
        return Ok(None);
    };
    let event = hear_event(world, &next)?;
    heard.turn = turn_behind(&next);
    match event {
        Some(event) => Ok(Some(event)),
        None => Err(Fault::NoSuch),
    }
}
