//! How a fare stands in a table: its two numbers, plain.

/// The row of a fare.
#[derive(Clone, Copy, PartialEq, Eq, Debug)]
pub struct FaresRow {
    pub zones: u16,
    pub seconds: u32,
}
