//! The names that a site has for the addresses of a capture.
//!
//! To the layer above it promises that it returns. Which name an address has is shown by rows, and isn't proved.
//!
//! - `addresses`: the stations of a site, and where each is seen. `naming`: what is printed with names for addresses.
#![tactic(auto)]

mod addresses;
mod naming;

pub use addresses::{Names, names_of};
pub use naming::NamedOut;
