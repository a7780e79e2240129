//! Maps: what they are asked, and what they mean.
#![tactic(auto)]

pub mod arc;
pub mod grid;
pub mod law;
pub mod map;
