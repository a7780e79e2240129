//! Making a grid from the bytes of its cells.
ghost use Rattle.std.specs.Prelude.{◌≡◌, ◌*◌, ◌≤◌, length, take, MatchResult};
ghost use Rattle.fault.specs.Causes.{Clear, Refused};
ghost use Rattle.fault.specs.Refusals.{atlas_refusal};
ghost use Rattle.graph.specs.Grids.{GridMeaning, Side, grid_causes};
ghost use Rattle.graph.specs.GridGraphs.{grid_graph};

use super::Grid;
use fault::atlas::AtlasFault;

/// The most rows and the most columns that a grid has.
const MOST: u32 = 64;

impl Grid {
    /// The grid of so many rows and columns, with the bytes of its cells row by row; bytes beyond the cells are not read.
    ///
    /// Refused if a side is not 1 to 64, rows before columns, and then if there are fewer bytes than cells.
    pub fn new(rows: u32, columns: u32, bytes: &[u8]) -> Result<Grid, AtlasFault>
        ensures { MatchResult result (λ grid. Clear (grid_causes rows columns (length bytes.now)) × GridMeaning rows columns bytes.now (grid_graph grid)) (λ f. Refused (grid_causes rows columns (length bytes.now)) (atlas_refusal f)) }
    {
        let (rows, columns) = (side(rows)?, side(columns)?);
        let needed = rows * columns;
        let cells = bytes.get(..needed).ok_or(AtlasFault::TooShort(needed))?;
        Ok(Grid::of(rows, columns, cells))
    }

    /// The grid of so many rows and columns with the bytes of these cells, and zeros after them.
    fn of(rows: usize, columns: usize, cells: &[u8]) -> Grid
        requires rows { Side rows }
        requires columns { Side columns }
        requires cells { length cells.now ≤ 4096 }
        ensures rows { result.rows ≡ rows }
        ensures columns { result.columns ≡ columns }
        ensures bytes { take (length cells.now) result.bytes ≡ cells.now }
    {
        let mut bytes = [0; 4096];
        bytes[..cells.len()].copy_from_slice(cells);
        Grid {
            rows,
            columns,
            bytes,
        }
    }
}

/// A side, if it is 1 to 64.
fn side(count: u32) -> Result<usize, AtlasFault>
    ensures { MatchResult result (λ side. (side ≡ count) × Side count) (λ fault. (fault ≡ AtlasFault.SideOutOfBounds count) × (Side count → ⊥)) }
{
    if (1..=MOST).contains(&count) {
        Ok(count as usize)
    } else {
        Err(AtlasFault::SideOutOfBounds(count))
    }
}
