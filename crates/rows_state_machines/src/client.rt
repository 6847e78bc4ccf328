//! What a client says of its requests, and what is told of them.
//!
//! - `asked`: whom a row's client asks, and long words.
//! - `scene`: a client, and the steps of a row.
//! - `told`: what is said and told, in words.

mod asked;
mod scene;
mod told;

pub(crate) use scene::run;
