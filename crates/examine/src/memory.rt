//! The memory of an atlas, and the first test that it fails.
ghost use Rattle.std.specs.Prelude.{MatchResult};

use crate::places::places_hold;
use fault::memory_test::MemoryTest;
use sketches::view::Sketches;
use tables::rows::OrderRow;

/// The lent tables of an atlas with the numbers that go with them: n places, so many of them swept, and so many cells used.
// n stands beside the tables, which are not cut to it: that they have n rows is tested, and a surplus row may hold anything.
#[derive(Clone, Copy)]
pub struct Memory<'a, R> {
    pub n: u16,
    pub swept: u16,
    pub used: u32,
    pub order: &'a [OrderRow],
    pub sketches: Sketches<'a, 'a, R>,
}

impl<R: Copy> Memory<'_, R> {
    ghost use Rattle.examine.specs.Memories.{IsSound, FailsFirst};

    /// Makes the tests. The first that fails is told. `given` is the number of places of the map, if one is given.
    #[tactic(auto, using(tables::proofs::Verdicts::verdicts))]
    pub fn examine(&self, given: Option<usize>) -> Result<(), MemoryTest>
        ensures { MatchResult result (λ _. IsSound self.now given) (FailsFirst self.now given) }
    {
        if !self.order_holds() {
            return Err(MemoryTest::Order);
        }
        if !self.links_hold() {
            return Err(MemoryTest::Links);
        }
        if !self.positions_hold() {
            return Err(MemoryTest::Positions);
        }
        if !self.counts_hold() {
            return Err(MemoryTest::Counts);
        }
        if !places_hold(self.n, given) {
            return Err(MemoryTest::Places);
        }
        Ok(())
    }
}
