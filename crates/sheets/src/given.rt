//! The memory that rows run in.

use refusing::Refusing;
use std::alloc::Global;

/// Memory that can be refused.
pub type Memory<'a> = &'a Refusing<Global>;

/// What rows run in.
#[derive(Clone, Copy)]
pub struct Given<'a> {
    /// Memory that is always there: for words.
    pub alloc: Global,
    /// Memory that is refused in turn: for the call that a row asks for.
    pub memory: Memory<'a>,
    /// Memory for what the call is given, which a row may refuse during the call.
    pub other: Memory<'a>,
}
