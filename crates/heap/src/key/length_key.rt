//! A length of any measure as a key.
ghost use Rattle.heap.specs.Keys.{length_order};

use crate::key::Key;
use measure::Measure;

/// A length: shorter ones come first.
#[derive(Clone, Copy, PartialEq, Eq, Debug)]
pub struct LengthKey<L> {
    pub length: L,
}

impl<L: Measure> Key for LengthKey<L> {
    ghost order = { length_order L.Measure.laws };

    fn least() -> LengthKey<L> {
        LengthKey { length: L::zero() }
    }

    fn at_most(self, other: LengthKey<L>) -> bool {
        self.length.at_most(other.length)
    }
}
