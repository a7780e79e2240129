//! The queue of waiting places: an indexed binary heap, for any key with a total order and a least key.
#![tactic(auto)]

pub mod indexed_heap;
pub mod key;
mod place;
pub mod refusal;
mod sift;
mod table;

/// How many places there can be: they are numbered from 0.
pub const PLACES: usize = 4096;
