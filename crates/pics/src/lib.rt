//! The protocol implementation conformance statement of this product (ANSI/ASHRAE 135, Annex A): device profile,
//! building blocks, services, object types with their properties, data links, segments, character sets and limits.
//!
//! To the layer above it promises [`write_statement`], which writes it as text or as Markdown, and takes what can
//! differ from the tables and constants that the product itself works with: what its Device object says and which
//! services that names, the properties of each type and how they are written, counts, sizes and times. That it says
//! what the product does is shown by rows, and isn't proved.
//!
//! - `names`: the standard's names. `building_blocks`: services by who uses them, and the device profile.
//! - `samples`: an object of each type. `told`: values, properties and building blocks as they are printed.
//! - `page`: text and Markdown. `sections`, `statement`: what is written, section by section.
#![tactic(auto)]

mod building_blocks;
mod names;
mod page;
mod samples;
mod sections;
mod statement;
mod told;

pub use page::Form;
pub use statement::write_statement;
