//! The five tests of an atlas's memory.

pub mod tell;

/// A test of the tables that an atlas works in, in the order in which the tests are made.
#[derive(Clone, Copy, PartialEq, Eq, Debug)]
pub enum MemoryTest {
    /// Order and home positions point back at each other, and the order rises by rank, then place, with no rank 0.
    Order,
    /// Each sketch walked forward matches its walk back, its ends, its owner and its number of entries.
    Links,
    /// Positions along a sketch rise and are below the number swept.
    Positions,
    /// The entries total the cells used, and as many cells name a noting place below the number of places.
    Counts,
    /// A map given has as many places as the atlas.
    Places,
}
