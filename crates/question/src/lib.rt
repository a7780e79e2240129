//! Question lines: reading them, writing them, and telling refusals.
#![tactic(auto)]

pub mod form;
pub mod places;
mod reader;
pub mod told;
