//! Who hears a broadcast at a site with broadcast managers and foreign devices (ANSI/ASHRAE 135, clauses J.4.3, J.4.5
//! and J.5.2). It has no code: it shows what holds of whatever came about from a site's opening by events alone.
//!
//! It promises: a manager has the tables that the site gives it, and nobody is registered there but foreign devices of
//! the site, each at its own manager. So once all of a network are registered, and while their registrations live, the
//! tables of that network are full: a broadcast of a station there reaches each other station of it once, and no
//! manager.
//!
//! - `laws`: these laws.
#![tactic(auto)]

mod laws;

pub use laws::{broadcasts_reach, tables_are_full, tables_stand, tables_stay};
