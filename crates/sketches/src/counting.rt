//! How many entries of a sketch lie within a limit.
ghost use Rattle.std.specs.Prelude.{◌≡◌, length};
ghost use Rattle.bottom_k.specs.Sketches.{entries_within};
ghost use Rattle.tables.specs.Walks.{sketch};

use crate::view::Sketches;
use measure::Measure;

/// Whether an entry of this length is at most `limit` long.
pub fn is_within<M: Measure>(length: M::Row, limit: M) -> bool
    ensures { result ≡ M.Measure.laws.at_most (M.Measure.encoding.reads length) limit }
{
    M::read(length).at_most(limit)
}

impl<R: Copy> Sketches<'_, '_, R> {
    /// The number of entries of the sketch of a place that are at most `limit` long.
    pub fn count_within<M: Measure<Row = R>>(&self, v: u16, limit: M) -> u32
        ensures { let entries = sketch M.Measure.encoding self.now.home.now self.now.cells.now v in
            result ≡ length (entries_within M.Measure.laws limit entries) }
    {
        self.entries(v)
            .filter(|entry| is_within(entry.length, limit))
            .count() as u32
    }
}
