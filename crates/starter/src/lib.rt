//! A site and a script to begin with: the texts that an engineer changes into those of a plant.
//!
//! To the layer above it promises the numbers of devices that it takes, and that each text is made; that both are read
//! as a site and a script, and what comes of them, is shown by rows.
//!
//! - `devices`: how many devices a first site has.
//! - `site`: its site file. `script`: its script.
#![tactic(auto)]

mod devices;
mod script;
mod site;

pub use devices::{MOST_DEVICES, devices_in};
pub use script::script_text;
pub use site::site_text;
