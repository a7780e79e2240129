//! The test of positions: along each sketch they rise, and are below the number swept.
ghost use Rattle.std.specs.Prelude.{◌<◌, ◌↔◌, IsTrue, IfSome};
ghost use Rattle.tables.specs.Tests.{PositionsTest, RisingBelow};
ghost use Rattle.tables.specs.Walks.{plain_sketch, positions};

use crate::memory::Memory;

/// Whether a position comes after the one before it, if there is one, and is below the number swept.
fn comes_next(before: Option<u16>, position: u16, swept: u16) -> bool
    ensures { IsTrue result ↔ (IfSome before (λ p. p < position) × (position < swept)) }
{
    before.is_none_or(|p| p < position) && position < swept
}

impl<R: Copy> Memory<'_, R> {
    /// Whether positions along the sketch of a place rise, and are below the number swept.
    fn rises(&self, v: u16) -> bool
        ensures { let entries = plain_sketch self.now.sketches.home.now self.now.sketches.cells.now v in
            IsTrue result ↔ RisingBelow self.now.swept (positions entries) }
    {
        let mut before = None;
        for entry in self.sketches.entries(v) {
            if !comes_next(before, entry.position, self.swept) {
                return false;
            }
            before = Some(entry.position);
        }
        true
    }

    /// Whether the positions along the sketch of each place rise, and are below the number swept.
    pub(crate) fn positions_hold(&self) -> bool
        ensures { IsTrue result ↔ PositionsTest self.now.n self.now.swept self.now.sketches.home.now self.now.sketches.cells.now }
    {
        (0..self.n).all(|v| self.rises(v))
    }
}
