//! Sketches as linked cells: reading, counting, appending and removing entries, on any memory at all.
//!
//! Each function is safe whatever the tables hold. Its contract says what it does to sound tables, and what it leaves alone in any.
#![tactic(auto)]

pub mod appending;
pub mod cells;
pub mod counting;
pub mod free;
pub mod reader;
pub mod removing;
pub mod view;
