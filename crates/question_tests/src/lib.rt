//! Lines with the question or the refusal that each is due.
#![tactic(auto)]

#[cfg(test)]
mod lines;
#[cfg(test)]
mod sources;
