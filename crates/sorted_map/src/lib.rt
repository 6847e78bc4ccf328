//! A map of few entries in one list, in the order of their keys and searched by halves: a copy of it is one of memory
//! that lies in one piece.
//!
//! To its callers it promises: a contract sees a map as the list of its entries, which is in order, so that each key
//! stands once. Only `insert` and `copy_with_room` take memory; where there is none, the map stays as it was, and a
//! key that is there already takes none.
//!
//! - `map`: the map and its calls.
#![tactic(auto)]

mod map;

pub use map::SortedMap;
