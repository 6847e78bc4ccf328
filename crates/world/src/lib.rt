//! The nodes of a site, what is on its way between them, and what each event does (ANSI/ASHRAE 135, clauses 5.4, 6, 9,
//! 12, 16.10 and J).
//!
//! To the layer above it promises: an event is the step of the node that it is for, as that node's contract says it,
//! and nothing else changes; each refusal has its cause, and then nothing has changed. It says so of every state,
//! however that came about; what is true of whatever came about by events alone is the layer above's to say.
//!
//! - `internetwork`: the nodes of a site, what is on its way between them, and what happened.
//! - `finding`: which node an event is for.
//! - `acting`: it does so, and all grows by what comes of it.
//! - `stepping`, `hearing`: what each event does; `happening`: all of them, by places and by names.
//! - `straying`: what a datagram from outside does.
//! - `macs`: that nodes are at link addresses, for the proofs.
//! - `copying`: copies of it.
#![tactic(auto)]

mod acting;
mod copying;
mod finding;
mod happening;
mod hearing;
mod internetwork;
mod listener;
mod macs;
mod stepping;
mod straying;

pub use happening::Happening;
pub use internetwork::{Internetwork, LATEST_ITEMS};
pub use listener::Listener;
pub use site_events::Event;
pub use world_log::{SaidMessage, SiteNode, WorldEntry};
pub use world_sites::{NodeId, Site, at_address};
