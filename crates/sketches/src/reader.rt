//! Reads a sketch, entry by entry.
ghost use Rattle.std.specs.Prelude.{◌≡◌, ◌^◌, ◌<◌, length};
ghost use Rattle.std.specs.Iterator.{YieldsFirst, item_count};
ghost use Rattle.sketches.specs.Reader.{entries_left};
ghost use Rattle.tables.specs.Walks.{plain_sketch};

use crate::cells::{cell_at, row_of};
use crate::view::Sketches;
use tables::rows::{Cell, Entry};

/// What is left to read of a sketch: from the cell `at` on, `left` entries at most.
#[derive(Drop)]
pub struct SketchReader<'a, R> {
    cells: &'a [Cell<R>],
    at: u32,
    left: u32,
}

impl<'a, R: Copy> Sketches<'_, 'a, R> {
    /// A reader of the sketch of a place, at its start.
    #[tactic(auto, using(tables::proofs::Chains::forward_few))]
    pub fn entries(&self, v: u16) -> SketchReader<'a, R>
        ensures whole { entries_left result ≡ plain_sketch self.now.home.now self.now.cells.now v }
        ensures few { length (entries_left result) < 2 ^ 32 }
    {
        let row = row_of(self.home, v);
        SketchReader {
            cells: self.cells,
            at: row.first,
            left: row.entries,
        }
    }
}

impl<R: Copy> Iterator for SketchReader<'_, R> {
    type Item = Entry<R>;

    ghost next_gives = { YieldsFirst entries_left };

    ghost remaining = { item_count entries_left };

    /// The next entry, which is then read; none once all are.
    #[tactic(auto, using(tables::proofs::Chains::forward_none, tables::proofs::Chains::forward_next))]
    fn next(&mut self) -> Option<Entry<R>> {
        if self.left == 0 {
            return None;
        }
        let cell = cell_at(self.cells, self.at)?;
        self.at = cell.after;
        self.left -= 1;
        Some(Entry::from(cell))
    }
}
