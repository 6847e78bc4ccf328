//! The nodes that a site makes, which a world begins with, and how a node is found by its name or its address
//! (ANSI/ASHRAE 135, clauses 5.4, 6.1, 6.6, 12 and J).
//!
//! To the layer above it promises: a site opens with one node for each of its stations, in its order, under its name
//! and at its addresses; ports reach the other members of the subnet or the manager of a foreign device, or their node
//! on a bus is as it is made; on each bus each of its stations hears; the devices are a site of the promise, and these
//! nodes are all that a fresh world asks of its clients and devices; and a device restarts with the objects that it
//! opened with. What is found by a name or an address is what is found by a look at one node after another, as long as
//! no node moves; and none is found where none is.
//!
//! - `buses`: buses, as they open.
//! - `ports`: the ports of nodes, as they open.
//! - `nodes`: nodes, as they open: `stations`, devices and clients; `relays`, routers and broadcast managers.
//! - `opening`: the objects that a device opens with, at its start and at each restart.
//! - `directory`: the names and addresses of nodes: `places`, at which place of a list each key stands first;
//!   `node_places`, which node is first at each address.
//! - `listening`: with which of its ports a node hears on a bus.
//! - `laws`: what holds of these nodes, for the proofs of the layers above.
#![tactic(auto)]

mod buses;
mod directory;
mod laws;
mod listening;
mod node_places;
mod nodes;
mod opening;
mod places;
mod ports;
mod relays;
mod stations;

pub use buses::buses_of;
pub use directory::{Directory, NamedNode, NodeFound, NodeId, node_in};
pub use laws::{
    devices_are_site, devices_open, directory_stays, nodes_agree, nodes_are_fresh, nodes_stand,
};
pub use listening::{EarPort, ear_port};
pub use nodes::nodes_of;
pub use opening::opening_of;
pub use site::Site;
pub use site_views::at_address;
