//! A grid: a map of cells in rows and columns, one byte each.
ghost use Rattle.std.specs.Prelude.{◌≡◌, ◌≤◌, length};

pub mod answer;
mod make;
mod sources;

/// A grid of 1 to 64 rows and 1 to 64 columns, in seconds. Cell (row, column) is place row × columns + column.
///
/// A cell's byte is the length of each arc that enters it. Byte 0 bars the cell: no arc enters or leaves it, yet it is a place.
#[derive(Drop)]
pub struct Grid {
    rows: usize,
    columns: usize,
    // An array of its own: a `Vec` can run out of memory, and borrowed bytes would have to outlive the grid.
    bytes: [u8; 4096],
    ghost some_rows: { 1 ≤ rows },
    ghost few_rows: { rows ≤ 64 },
    ghost some_columns: { 1 ≤ columns },
    ghost few_columns: { columns ≤ 64 },
    ghost whole: { length bytes ≡ 4096 },
}
