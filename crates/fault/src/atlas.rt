//! What can be wrong with a call on an atlas or a map.
use crate::memory_test::MemoryTest;

pub mod tell;

/// Why a call on an atlas or a map is refused. A number that callers pass has 32 bits, a table's length 64.
#[derive(Clone, Copy, PartialEq, Eq, Debug)]
pub enum AtlasFault {
    /// The place, the lowest such, has rank 0.
    RankZero(u32),
    /// The number k of places that a sketch keeps within any limit is not 2 to 64.
    KOutOfBounds(u32),
    /// A side of a grid is not 1 to 64.
    SideOutOfBounds(u32),
    /// The number of starts is not 1 to 16.
    StartsOutOfBounds(usize),
    /// The number of cells is not 1 to 65,536.
    CellsOutOfBounds(usize),
    /// A table or buffer is shorter than this length.
    TooShort(usize),
    /// The memory fails this test, and no earlier one.
    TestFailed(MemoryTest),
    /// There is no place of this number.
    NoSuchPlace(u32),
    /// With so many places swept there is nothing to sweep, or nothing to take back.
    NothingLeft(u32),
    /// The cells run out at the sweep of this place.
    CellsRunOut(u32),
}
