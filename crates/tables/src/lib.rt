//! The memory that an atlas works in: the rows of its three lent tables, and what those tables mean.
#![tactic(auto)]

pub mod links;
pub mod rows;
