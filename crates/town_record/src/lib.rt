//! The records of a town file, one at a time: what stands in them, the rules they keep, and how they are written.
#![tactic(auto)]

pub mod arc_row;
pub mod before;
pub mod entry;
pub mod file_measure;
pub mod fill;
mod kind;
pub mod name;
mod parts;
pub mod rule;
