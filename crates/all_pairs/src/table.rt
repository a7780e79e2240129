//! A table with a row for each pair of places.
ghost use Rattle.std.specs.Prelude.{◌*◌, ◌≤◌, length};

use measure::Measure;

mod rows;

/// A table of rows: that of places `v` and `w` stands at `v * places + w`.
// What changes the table says that it still holds the same rows and as many places: of a struct that holds a `&mut`, a caller knows that from nowhere else.
#[derive(Drop)]
pub(crate) struct Table<'a, L: Measure> {
    pub(crate) rows: &'a mut [Option<L::Row>],
    pub(crate) places: usize,
    ghost whole: { places * places ≤ length rows.now },
}
