//! The five tests of an atlas's memory, made in their order on any memory at all.
//!
//! They take a number of steps that is linear in the rows and cells. A walk that follows the links checks each cell's link back
//! against the cell that it comes from, and its owner: so it comes to no cell twice, and no cell is on two walks. Once the
//! test of links has passed, the later walks follow the same cells.
#![tactic(auto)]

mod counts;
mod links;
pub mod memory;
mod order;
mod places;
mod positions;
