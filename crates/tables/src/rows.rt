//! The rows of the three lent tables, all of plain numbers.
ghost use Rattle.std.specs.Prelude.{◌≡◌};
ghost use Rattle.tables.specs.Rows.{empty_row};
ghost use Rattle.tables.specs.Walks.{noted};

/// How a missing cell is written. Only the cells before this number exist, however long the table is.
// Numbers, not Option: the lent tables hold plain numbers in a fixed format, where a missing cell is written 65,536, and a free
// cell names n.
pub const MISSING: u32 = 65_536;

/// One position of the order: the place that stands there, and its rank. Rows compare by rank, then place.
#[derive(Clone, Copy, PartialEq, Eq, PartialOrd, Ord, Debug)]
pub struct OrderRow {
    pub rank: u32,
    pub place: u16,
}

/// One place: its position in the order, the first and last cell of its sketch, and its number of entries.
#[derive(Clone, Copy, PartialEq, Eq, Debug)]
pub struct HomeRow {
    pub position: u16,
    pub first: u32,
    pub last: u32,
    pub entries: u32,
}

impl HomeRow {
    /// The row of a place with an empty sketch.
    pub fn empty(position: u16) -> HomeRow
        ensures { result ≡ empty_row position }
    {
        HomeRow {
            position,
            first: MISSING,
            last: MISSING,
            entries: 0,
        }
    }
}

/// One entry of the sketch of the noting place `owner`; or a free cell, whose owner is no place.
// Cells name each other by number, not by Box: they lie in a table that the caller lends, whose fixed format
// is of plain numbers.
#[derive(Clone, Copy, PartialEq, Eq, Debug)]
pub struct Cell<R> {
    pub owner: u16,
    /// The position of the noted place in the order.
    pub position: u16,
    /// The row of the length of the noted place.
    pub length: R,
    /// The cells before and after in the same sketch.
    pub before: u32,
    pub after: u32,
}

/// One entry of a sketch as it stands in the table: the position of the noted place, and the row of its length.
#[derive(Clone, Copy, PartialEq, Eq, Debug)]
pub struct Entry<R> {
    pub position: u16,
    pub length: R,
}

/// What a cell notes.
impl<R: Copy> From<Cell<R>> for Entry<R> {
    ghost from_gives = { λ cell entry. entry ≡ noted cell };

    fn from(cell: Cell<R>) -> Entry<R> {
        Entry {
            position: cell.position,
            length: cell.length,
        }
    }
}
