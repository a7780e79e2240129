//! Cells that hold no entry.
ghost use Rattle.std.specs.Prelude.{◌≡◌, ℕ, ◌<◌, ◌≤◌, false, nat_le, MatchOption};
ghost use Rattle.tables.specs.Changes.{Free};
ghost use Rattle.tables.specs.Rows.{cell_at};

use crate::cells::{cell_at, cells_there};
use tables::rows::Cell;

/// Whether there is a cell of this number, and its owner is not below n.
fn is_free<R: Copy>(n: u16, cells: &[Cell<R>], at: u32) -> bool
    ensures { MatchOption (cell_at cells.now at) (result ≡ false) (λ c. result ≡ nat_le n c.owner) }
{
    cell_at(cells, at).is_some_and(|cell| cell.owner >= n)
}

/// The first free cell from the cell `from` on, if there is one. A cell is free where its owner is not below n.
pub fn free_cell<R: Copy>(n: u16, cells: &[Cell<R>], from: u32) -> Option<u32>
    ensures { MatchOption result
        ((j : ℕ) → from ≤ j → Free n cells.now j → ⊥)
        (λ j. Free n cells.now j × (from ≤ j) × ((i : ℕ) → from ≤ i → i < j → Free n cells.now i → ⊥)) }
{
    (from..cells_there(cells)).find(|at| is_free(n, cells, *at))
}
