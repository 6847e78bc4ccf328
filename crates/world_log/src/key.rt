//! Who issued, and under which invoke ID.

use npdu::Station;
use std::marker::Model;

/// Who issued a request, and under which invoke ID (5.4.1).
#[derive(Clone, Copy, Debug, PartialEq, Eq)]
pub struct Key {
    pub client: Station,
    pub invoke_id: u8,
}

/// An issue, and how many before it are forgotten, behind the last one that isn't.
#[derive(Clone, Copy, Debug, PartialEq, Eq)]
pub struct Run {
    pub key: Key,
    pub before: usize,
}
