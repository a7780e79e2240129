//! What a sketch is, and why turning back is right.
//!
//! The definitions of the order of places, sketches, samples, figures and the number of entries due stand in `specs/`.
//! Each theorem about them is the contract of a function here, so that the crate is proved only with it.
#![tactic(auto)]

pub mod argument;
pub mod computing;
pub mod estimate;
pub mod figure;
pub mod search_steps;
pub mod town_of_five;
