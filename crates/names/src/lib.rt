//! The standard's names of its numbers: object types, properties, error classes and codes, the reasons of Reject and
//! Abort, and the states of a binary value (ANSI/ASHRAE 135, clauses 18 and 21), those that this profile knows, in
//! lower case with hyphens; and functions, messages, types and services that headers number, all that there are.
//!
//! To the layers above it promises: a number's name and a name's number are those of one table; a number that the table
//! lacks has no name, and a name that it lacks no number.
//!
//! - `tables`: the standard's numbers and names.
//! - `headers`: those of headers and tags.
//! - `finding`: a name by its number, a number by its name.
//! - `laws`: what holds of the tables.
#![tactic(auto)]

mod finding;
mod headers;
mod laws;
mod tables;

pub use finding::{name_in, number_in};
pub use headers::{
    bvll_functions, bvll_results, confirmed_services, data_types, max_apdus, max_segments,
    network_messages, network_priorities, pdu_types, segmentations, unconfirmed_services,
};
pub use laws::{header_names_lead_back, names_lead_back};
pub use tables::{
    Row, abort_reasons, binary_values, error_classes, error_codes, object_types, properties,
    reject_reasons,
};
