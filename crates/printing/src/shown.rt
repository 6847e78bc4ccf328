//! What is printed in words.

use crate::spelling::Spelling;

/// What `write!` prints in words, with numbers: an object, a reference, a value, values, a request or a reply.
#[derive(Clone, Copy)]
pub struct Words<'a, T>(pub &'a T);

/// The same with numbers or names.
#[derive(Clone, Copy)]
pub struct Spelled<'a, T> {
    pub spelling: Spelling,
    pub what: &'a T,
}
