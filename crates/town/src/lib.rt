//! Town files: reading one into rows, a map with ranks and names, and writing it back.
#![tactic(auto)]

mod filling;
pub mod rejection;
pub mod room;
pub mod rows;
mod tables;
