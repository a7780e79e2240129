//! The test of counts: the entries total the cells used, and as many cells name a noting place below n.
ghost use Rattle.std.specs.Prelude.{◌≡◌, ◌↔◌, IsTrue};
ghost use Rattle.tables.specs.Tests.{CountsTest, entries_total, cells_taken};

use crate::memory::Memory;
use tables::rows::MISSING;

impl<R: Copy> Memory<'_, R> {
    /// How many entries the sketches of n places have together, as their rows say.
    fn total(&self) -> u64
        ensures { result ≡ entries_total self.now.n self.now.sketches.home.now }
    {
        let rows = self.sketches.home.iter().take(self.n as usize);
        rows.map(|row| row.entries as u64).sum()
    }

    /// How many cells name a noting place below n.
    fn taken(&self) -> usize
        ensures { result ≡ cells_taken self.now.n self.now.sketches.cells.now }
    {
        let cells = self.sketches.cells.iter().take(MISSING as usize);
        cells.filter(|cell| cell.owner < self.n).count()
    }

    /// Whether the sketches have `used` entries together, and as many cells name a noting place below n.
    pub(crate) fn counts_hold(&self) -> bool
        ensures { IsTrue result ↔ CountsTest self.now.n self.now.used self.now.sketches.home.now self.now.sketches.cells.now }
    {
        self.total() == self.used as u64 && self.taken() == self.used as usize
    }
}
