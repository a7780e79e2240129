//! What a record is judged by besides its own bytes.

/// What stands in a file before a record.
#[derive(Clone, Copy, PartialEq, Eq, Debug)]
pub struct Before {
    /// How many places.
    pub places: usize,
    /// How many arcs.
    pub arcs: usize,
    /// The to-place of the last arc, 0 where there is none.
    pub last_to: u16,
}

/// How many places and arcs a file may have.
///
/// Not one struct with `Before`: the limits stand for a whole file, and what stands before changes with each record.
#[derive(Clone, Copy, PartialEq, Eq, Debug)]
pub struct Limits {
    pub places: usize,
    pub arcs: usize,
}
