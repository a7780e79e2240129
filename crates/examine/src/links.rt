//! The test of links: there are the cells used, and each sketch walked forward matches its walk back, its ends, its owner and
//! its number of entries.
ghost use Rattle.std.specs.Prelude.{◌≡◌, ◌↔◌, IsTrue};
ghost use Rattle.tables.specs.Tests.{LinksTest};
ghost use Rattle.tables.specs.Walks.{Linked};

use crate::memory::Memory;
use sketches::cells::{cell_at, cells_there, row_of};
use tables::rows::{Cell, MISSING};

/// Whether a cell is one of v, and names the number `before` as the cell before it.
fn follows<R: Copy>(cell: Cell<R>, v: u16, before: u32) -> bool
    ensures { IsTrue result ↔ ((cell.owner ≡ v) × (cell.before ≡ before)) }
{
    cell.owner == v && cell.before == before
}

impl<R: Copy> Memory<'_, R> {
    /// Whether the sketch of a place is linked, from its row to its cells and back.
    fn is_linked(&self, v: u16) -> bool
        ensures { IsTrue result ↔ Linked self.now.sketches.home.now self.now.sketches.cells.now v }
    {
        let row = row_of(self.sketches.home, v);
        let mut before = MISSING;
        let mut at = row.first;
        // No reader of entries: the cells' numbers, owners and links are tested, which a reader does not hand out.
        for _ in 0..row.entries {
            let Some(cell) = cell_at(self.sketches.cells, at) else {
                return false;
            };
            if !follows(cell, v, before) {
                return false;
            }
            before = at;
            at = cell.after;
        }
        at == MISSING && row.last == before
    }

    /// Whether the cells used are there, and the sketch of each place is linked.
    pub(crate) fn links_hold(&self) -> bool
        ensures { IsTrue result ↔ LinksTest self.now.n self.now.used self.now.sketches.home.now self.now.sketches.cells.now }
    {
        cells_there(self.sketches.cells) >= self.used && (0..self.n).all(|v| self.is_linked(v))
    }
}
