//! Reading and writing the lengths that a table holds.
ghost use Rattle.std.specs.Prelude.{◌≡◌, ◌+◌, ◌*◌, ◌<◌, None, Some, slice_index_or, slice_set};
ghost use Rattle.std.specs.Option.{option_map};

use super::Table;
use measure::Measure;

// That `v` and `w` are below `places` stands in each `requires`: a number is a place of this very table, and a type of numbers could not say of which table.
impl<L: Measure> Table<'_, L> {
    /// The length that stands for `v` and `w`, if there is one.
    #[tactic(auto, using(crate::proofs::Steps::inside_table))]
    pub(crate) fn at(&self, v: usize, w: usize) -> Option<L>
        requires v_inside { v < self.now.places }
        requires w_inside { w < self.now.places }
        ensures { result ≡ option_map L.Measure.encoding.reads (slice_index_or self.now.rows.now (v * self.now.places + w) None) }
    {
        // A closure, here and in `fill`: passed by their names, `read` and `write` get no proof yet.
        self.rows[v * self.places + w].map(|row| L::read(row))
    }

    /// Writes a length for `v` and `w`.
    pub(crate) fn put(&mut self, v: usize, w: usize, least: L)
        requires v_inside { v < self.old.places }
        requires w_inside { w < self.old.places }
        ensures same_reference { self.new.rows.ghost_name ≡ self.old.rows.ghost_name }
        ensures same_places { self.new.places ≡ self.old.places }
        ensures written { self.new.rows.now ≡ slice_set self.old.rows.now (v * self.old.places + w) (Some (L.Measure.encoding.writes least)) }
    {
        self.rows[v * self.places + w] = Some(least.write());
    }
}
