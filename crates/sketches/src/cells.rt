//! One row or one cell read or written, with every index tested.
//!
//! Each function that writes cells says that nothing past the last cell changes: that is what it leaves, which no type can say.
ghost use Rattle.std.specs.Prelude.{◌≡◌, ℕ, ◌<◌, ◌≤◌, drop, Some, slice_set};
ghost use Rattle.tables.specs.Changes.{with_after};
ghost use Rattle.tables.specs.Rows.{missing, home_at, cell_at, cells_there};
ghost use Rattle.tables.specs.declared.rows.Cell.{Cell as CellRow};

use tables::rows::{Cell, HomeRow, MISSING};

/// The row of a place; past the table's end, one with an empty sketch.
// No Option: what is read of a missing place is what `home_at` says of it, and each caller means just that.
pub fn row_of(home: &[HomeRow], v: u16) -> HomeRow
    ensures { result ≡ home_at home.now v }
{
    home.get(v as usize).copied().unwrap_or(HomeRow::empty(0))
}

/// Writes the row of a place; past the table's end, nothing.
pub(crate) fn put_row(home: &mut [HomeRow], v: u16, row: HomeRow)
    ensures { home.new ≡ slice_set home.old v row }
{
    // A tested index, not `get_mut`: after a write through a slice's `get_mut` a proof knows the slice's length and no element.
    let v = v as usize;
    if v < home.len() {
        home[v] = row;
    }
}

/// How many cells there are.
pub fn cells_there<R>(cells: &[Cell<R>]) -> u32
    ensures { result ≡ cells_there cells.now }
{
    cells.len().min(MISSING as usize) as u32
}

/// The cell of this number, if there is one.
pub fn cell_at<R: Copy>(cells: &[Cell<R>], at: u32) -> Option<Cell<R>>
    ensures { result ≡ cell_at cells.now at }
{
    if at >= MISSING {
        return None;
    }
    cells.get(at as usize).copied()
}

/// Writes the cell of this number; where there is none, nothing.
pub(crate) fn put_cell<R: Copy>(cells: &mut [Cell<R>], at: u32, cell: Cell<R>)
    ensures there { at < missing → cells.new ≡ slice_set cells.old at cell }
    ensures none { missing ≤ at → cells.new ≡ cells.old }
    ensures surplus { drop missing cells.new ≡ drop missing cells.old }
{
    // A tested index, for the reason given in `put_row`.
    let here = at as usize;
    if at < MISSING && here < cells.len() {
        cells[here] = cell;
    }
}

/// Has the cell of this number name another as the one after it; where there is none, nothing.
pub(crate) fn set_after<R: Copy>(cells: &mut [Cell<R>], at: u32, after: u32)
    ensures there { (c : CellRow R) → cell_at cells.old at ≡ Some c →
        cells.new ≡ slice_set cells.old at (with_after c after) }
    ensures surplus { drop missing cells.new ≡ drop missing cells.old }
{
    if let Some(cell) = cell_at(cells, at) {
        put_cell(cells, at, Cell { after, ..cell });
    }
}
