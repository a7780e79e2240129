//! Tests of the memory of an atlas: damaged tables with the test that each fails, sound ones, work on sketches, and samples.
#![tactic(auto)]

#[cfg(test)]
mod damaged;
#[cfg(test)]
mod long_tables;
#[cfg(test)]
mod memory;
#[cfg(test)]
mod sampled;
#[cfg(test)]
mod worked;
