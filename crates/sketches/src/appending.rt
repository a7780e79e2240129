//! An entry linked at the end of a sketch.
ghost use Rattle.std.specs.Prelude.{◌≡◌, ℕ, ◌+◌, ◌<◌, min, if◌then◌else◌, ◌==◌, drop, Some, slice_set};
ghost use Rattle.tables.specs.Changes.{CanAppend, Appended, OnlySketch, with_after};
ghost use Rattle.tables.specs.Rows.{missing, cell_at};
ghost use Rattle.tables.specs.declared.rows.Cell.{Cell as CellRow};
ghost use Rattle.sketches.specs.Links.{new_cell};

use crate::cells::{put_cell, put_row, row_of, set_after};
use tables::rows::{Cell, Entry, HomeRow, MISSING};

/// The row of a sketch with one entry more, in the cell `free`.
fn longer(row: HomeRow, free: u32) -> HomeRow
    ensures position { result.position ≡ row.position }
    ensures first { result.first ≡ (if row.entries == 0 then free else row.first) }
    ensures last { result.last ≡ free }
    ensures entries { result.entries ≡ min (row.entries + 1) u32.MAX }
{
    HomeRow {
        first: if row.entries == 0 { free } else { row.first },
        last: free,
        entries: row.entries.saturating_add(1),
        ..row
    }
}

/// Writes an entry of v in the cell `free`, linked behind the last cell of the sketch whose row is given.
fn link_cell<R: Copy>(cells: &mut [Cell<R>], row: HomeRow, v: u16, free: u32, entry: Entry<R>)
    ensures first { row.entries ≡ 0 → free < missing →
        cells.new ≡ slice_set cells.old free (new_cell v row.last entry) }
    ensures more { (c : CellRow R) → 0 < row.entries → free < missing → cell_at cells.old row.last ≡ Some c →
        cells.new ≡ slice_set (slice_set cells.old row.last (with_after c free)) free (new_cell v row.last entry) }
    ensures surplus { drop missing cells.new ≡ drop missing cells.old }
{
    if row.entries > 0 {
        set_after(cells, row.last, free);
    }
    put_cell(
        cells,
        free,
        Cell {
            owner: v,
            position: entry.position,
            length: entry.length,
            before: row.last,
            after: MISSING,
        },
    );
}

/// Links an entry at the end of the sketch of a place, in the cell `free`.
// Two `&mut` slices, not a struct of them: each contract would have to say that the struct still holds the same two.
pub fn append<R: Copy>(
    home: &mut [HomeRow],
    cells: &mut [Cell<R>],
    v: u16,
    free: u32,
    entry: Entry<R>,
)
    ensures appended { (n swept used : ℕ) → CanAppend n swept used home.old cells.old v free entry →
        Appended n swept used home.old cells.old v free entry home.new cells.new }
    ensures only { OnlySketch v home.old cells.old home.new cells.new }
{
    let row = row_of(home, v);
    link_cell(cells, row, v, free, entry);
    put_row(home, v, longer(row, free));
}
