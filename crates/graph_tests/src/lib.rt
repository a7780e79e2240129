//! Worked cases and tests of maps and least lengths.
#![tactic(auto)]

#[cfg(test)]
mod grid_tests;
mod small_town;
#[cfg(test)]
mod table_tests;
pub mod worked;
