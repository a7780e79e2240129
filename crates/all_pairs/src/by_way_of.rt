//! The ways that also lead by way of one place more.
//!
//! The loops run over the numbers of places: a table is asked by number, and one step reads the lengths of three pairs.
ghost use Rattle.std.specs.Prelude.{◌≡◌, ◌*◌, ◌<◌};
ghost use Rattle.all_pairs.specs.Tables.{SameFrom, Shortened, ShortenedFrom};

use crate::length::{joined, shorter};
use crate::table::Table;
use measure::Measure;

impl<L: Measure> Table<'_, L> {
    /// Shortens the lengths from `v` by the ways by way of `x`.
    fn shorten_from(&mut self, x: usize, v: usize)
        requires x_inside { x < self.old.places }
        requires v_inside { v < self.old.places }
        ensures same_reference { self.new.rows.ghost_name ≡ self.old.rows.ghost_name }
        ensures same_places { self.new.places ≡ self.old.places }
        ensures right { ShortenedFrom L.Measure.laws L.Measure.encoding self.old.places x v self.old.rows.now self.new.rows.now }
        ensures rest { SameFrom (self.old.places * self.old.places) self.old.rows.now self.new.rows.now }
    {
        for w in 0..self.places {
            if let Some(by) = joined(self.at(v, x), self.at(x, w)) {
                let least = shorter(self.at(v, w), by);
                self.put(v, w, least);
            }
        }
    }

    /// Shortens the lengths by the ways by way of `x`.
    pub(crate) fn shorten(&mut self, x: usize)
        requires { x < self.old.places }
        ensures same_reference { self.new.rows.ghost_name ≡ self.old.rows.ghost_name }
        ensures same_places { self.new.places ≡ self.old.places }
        ensures right { Shortened L.Measure.laws L.Measure.encoding self.old.places x self.old.rows.now self.new.rows.now }
        ensures rest { SameFrom (self.old.places * self.old.places) self.old.rows.now self.new.rows.now }
    {
        for v in 0..self.places {
            self.shorten_from(x, v);
        }
    }
}
