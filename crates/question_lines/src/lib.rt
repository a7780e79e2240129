//! Question lines: which are allowed, how far any line agrees with one, and the words of a line.
#![tactic(auto)]

mod number;
pub mod word;
