//! Which parts of an internetwork are a site: networks, broadcast managers, routers, devices and clients that fit
//! together (ANSI/ASHRAE 135, clauses 3.2, 6, 9, 12 and J).
//!
//! To the layers above it promises: a `Site` is sound, and parts that are refused with `BadSite` are not. Each fact of
//! a sound site has a definition with a name, and a function that tells it.
//!
//! - `networks`: how many, and their numbers.
//! - `named`: names of stations.
//! - `roles`: what stations have to be, and their order.
//! - `links`: each place fits its network.
//! - `devices`: how many, and their objects.
//! - `marks`: what may occur once, and that nothing occurs twice.
//! - `managers`: a manager on each subnet of a network that has several.
//! - `foreigns`: foreign devices register at managers of the site.
//! - `site`: a site without a fault.
#![tactic(auto)]

mod devices;
mod foreigns;
mod links;
mod managers;
mod marks;
mod named;
mod networks;
mod roles;
mod site;

pub use devices::{are_devices, are_few_devices};
pub use foreigns::{are_few_beyond, are_registered};
pub use links::are_linked;
pub use managers::{SubnetId, has_few_managers, is_covered_by_managers};
pub use marks::{Mark, has_marks_apart};
pub use named::{have_names, have_names_apart};
pub use networks::{are_few_networks, have_numbers};
pub use roles::{are_in_order, are_roles, have_ports_apart};
pub use site::{Site, is_sound};
