//! What a line of a script asks for.

use expectations::Expectation;
use network_faults::NetworkFault;
use site_events::Event;
use std::alloc::Allocator;
use tags::Octets;

/// A step of a run. A name need not be that of a station.
#[derive(Drop)]
#[derive_where(PartialEq, Eq, Debug)]
pub enum Step<A: Allocator> {
    /// This event happens.
    Happens(Event<A>),
    /// So many milliseconds pass, in which all that is put out is delivered, but for what faults do to it.
    Flow(u64),
    /// From here on this happens on the network, where a flow delivers.
    Disturbs(NetworkFault<A>),
    /// This is expected of the run so far.
    Expects(Expectation<A>),
    /// What the station of this name is at is printed.
    Shows(Octets<A>),
}
