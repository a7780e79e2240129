//! Every refusal of the library in one place: what can be wrong, and the number, layer and position that are told.
#![tactic(auto)]

pub mod atlas;
pub mod file;
pub mod line;
pub mod memory_test;
pub mod refusal;
