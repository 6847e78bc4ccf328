//! What is done with a datagram that nobody of the site sent.

ghost use Rattle.std.specs.Prelude.{◌≡◌, ◌<◌, IfErr, OnErr, OnOk, Some, length, slice_get};
ghost use Rattle.simulator.specs.world.Straying.{StrayIsRefused};
ghost use Rattle.runner.specs.Strays.{IsRefusedStray, RefusesAt, TakesStray, stray_on};
ghost use Rattle.wire.specs.Datagrams.{datagram_of};

use npdu::Station;
use simulator::Internetwork;
use site_parts::Network;
use std::alloc::Allocator;
use tags::Fault;
use wire::Got;

/// The station at a datagram's address on one network hears it.
fn take_on<A: Allocator + Copy>(
    world: &mut Internetwork<A>,
    net: u16,
    got: &Got<'_>,
) -> Result<(), Fault>
    ensures takes { OnOk result (TakesStray (datagram_of got.now) world.old world.new) }
    ensures cause { IfErr result (λ fault.
        StrayIsRefused (stray_on net (datagram_of got.now) world.old.moment) world.old fault) }
    ensures unchanged { OnErr result (world.new ≡ world.old) }
{
    world.stray(got.from, Station { net, mac: got.to }, got.octets)
}

/// The network at this place of a site.
fn network_at<A: Allocator + Copy>(world: &Internetwork<A>, place: usize) -> Network
    requires { place < length world.now.site.networks }
    ensures { slice_get world.now.site.networks place ≡ Some result }
{
    world.site().networks()[place]
}

/// The station at a datagram's address on the network at this place of the site hears it.
fn take_at<A: Allocator + Copy>(
    world: &mut Internetwork<A>,
    place: usize,
    got: &Got<'_>,
) -> Result<(), Fault>
    requires { place < length world.old.site.networks }
    ensures takes { OnOk result (TakesStray (datagram_of got.now) world.old world.new) }
    ensures cause { IfErr result (RefusesAt (datagram_of got.now) world.old place) }
    ensures unchanged { OnErr result (world.new ≡ world.old) }
{
    let network = network_at(world, place);
    take_on(world, network.number, got)
}

/// The station at a datagram's address hears it, whichever of the site's networks it is on.
///
/// # Errors
/// `NoSuch` where no station has that address; what the station refuses; or `Memory`. All is then as it was.
#[tactic(auto, using(crate::proofs::StrayLaws::stray_rules))]
pub(crate) fn take_stray<A: Allocator + Copy>(
    world: &mut Internetwork<A>,
    got: &Got<'_>,
) -> Result<(), Fault>
    ensures takes { OnOk result (TakesStray (datagram_of got.now) world.old world.new) }
    ensures cause { IfErr result (λ fault. IsRefusedStray (datagram_of got.now) world.old fault) }
    ensures unchanged { OnErr result (world.new ≡ world.old) }
{
    let count = world.site().networks().len();
    for place in 0..count {
        match take_at(world, place, got) {
            Err(Fault::NoSuch) => {}
            result => return result,
        }
    }
    Err(Fault::NoSuch)
}
