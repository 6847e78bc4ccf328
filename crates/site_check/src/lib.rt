//! What is wrong with a site file, and with a script for it, told so that it can be mended (ANSI/ASHRAE 135, clauses
//! 3.2, 6, 9, 12 and J, read from a text): `bacsite check` without its command line.
//!
//! To the layer above it promises: a site and a script are judged sound only where the one text is a TOML document
//! whose parts are a sound site, and each line of the other asks for a step; and faulty only where the text is no
//! document, has a key that says no part, or has parts with a fault, or where the script has a bad line. Which lines
//! tell of what, rows show.
//!
//! - `told`: what is told, with its texts.
//! - `lines`: a script, and the stations and networks that it names.
//! - `checking`: both texts.
#![tactic(auto)]

mod checking;
mod lines;
mod told;

pub use checking::check;
