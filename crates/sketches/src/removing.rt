//! The last entry of a sketch: read, and unlinked.
ghost use Rattle.std.specs.Prelude.{◌≡◌, ℕ, ◌-◌, ◌<◌, List, [], ◌∷◌, ◌++◌, if◌then◌else◌, ◌==◌, drop, Some, None, slice_set, MatchOption};
ghost use Rattle.tables.specs.Changes.{CanRemove, Removed, OnlySketch, with_after, with_owner};
ghost use Rattle.tables.specs.Rows.{missing, home_at, cell_at};
ghost use Rattle.tables.specs.Walks.{Linked, plain_sketch};
ghost use Rattle.tables.specs.declared.rows.Cell.{Cell as CellRow};
ghost use Rattle.tables.specs.declared.rows.Entry.{Entry as EntryRow};

use crate::cells::{cell_at, put_cell, put_row, row_of, set_after};
use crate::view::Sketches;
use tables::rows::{Cell, Entry, HomeRow, MISSING};

impl<R: Copy> Sketches<'_, '_, R> {
    /// The last cell of the sketch of a place, if it has any.
    fn last_cell(&self, v: u16) -> Option<Cell<R>>
        ensures none { (home_at self.now.home.now v).entries ≡ 0 → result ≡ None }
        ensures some { 0 < (home_at self.now.home.now v).entries →
            result ≡ cell_at self.now.cells.now (home_at self.now.home.now v).last }
    {
        let row = row_of(self.home, v);
        if row.entries == 0 {
            return None;
        }
        cell_at(self.cells, row.last)
    }

    /// The last entry of the sketch of a place, if it has any.
    pub fn last_entry(&self, v: u16) -> Option<Entry<R>>
        ensures { Linked self.now.home.now self.now.cells.now v →
            let entries = plain_sketch self.now.home.now self.now.cells.now v in
            MatchOption result (entries ≡ []) (λ e. (front : List (EntryRow R)) × (entries ≡ front ++ (e ∷ []))) }
    {
        self.last_cell(v).map(Entry::from)
    }
}

/// The row of a sketch without its last entry, before which the cell `before` stands.
fn shorter(row: HomeRow, before: u32) -> HomeRow
    ensures position { result.position ≡ row.position }
    ensures first { result.first ≡ (if row.entries - 1 == 0 then missing else row.first) }
    ensures last { result.last ≡ before }
    ensures entries { result.entries ≡ row.entries - 1 }
{
    let entries = row.entries.saturating_sub(1);
    HomeRow {
        first: if entries == 0 { MISSING } else { row.first },
        last: before,
        entries,
        ..row
    }
}

/// Frees the cell of number `gone`: it names n as its owner. The last cell of the sketch that is left, whose row is given,
/// names none after it.
fn unlink_cell<R: Copy>(cells: &mut [Cell<R>], left: HomeRow, n: u16, gone: u32, cell: Cell<R>)
    ensures only { left.entries ≡ 0 → gone < missing →
        cells.new ≡ slice_set cells.old gone (with_owner cell n) }
    ensures more { (b : CellRow R) → 0 < left.entries → gone < missing → cell_at cells.old left.last ≡ Some b →
        cells.new ≡ slice_set (slice_set cells.old left.last (with_after b missing)) gone (with_owner cell n) }
    ensures surplus { drop missing cells.new ≡ drop missing cells.old }
{
    if left.entries > 0 {
        set_after(cells, left.last, MISSING);
    }
    put_cell(cells, gone, Cell { owner: n, ..cell });
}

/// Unlinks the last entry of the sketch of a place, and frees its cell: it names n, the number of places, as its owner.
// Two `&mut` slices, for the reason given beside `append`.
pub fn remove_last<R: Copy>(n: u16, home: &mut [HomeRow], cells: &mut [Cell<R>], v: u16)
    ensures removed { (swept used : ℕ) → CanRemove n swept used home.old cells.old v →
        Removed n swept used home.old cells.old v home.new cells.new }
    ensures only { OnlySketch v home.old cells.old home.new cells.new }
{
    let row = row_of(home, v);
    if let Some(cell) = cell_at(cells, row.last) {
        let left = shorter(row, cell.before);
        unlink_cell(cells, left, n, row.last, cell);
        put_row(home, v, left);
    }
}
