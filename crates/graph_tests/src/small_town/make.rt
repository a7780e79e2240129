//! Making a small town.
ghost use Rattle.std.specs.Prelude.{◌≡◌, ◌≤◌, MatchOption};

use super::SmallTown;
use graph::arc::Arc;

impl<'a, L> SmallTown<'a, L> {
    /// The town of so many places, 1 to 4,096, with these arcs.
    pub fn new(places: usize, arcs: &'a [(usize, Arc<L>)]) -> Option<SmallTown<'a, L>>
        ensures { MatchOption result ((1 ≤ places) × (places ≤ 4096) → ⊥) (λ t. (t.places ≡ places) × (t.arcs.now ≡ arcs.now)) }
    {
        // An `if`: `then_some` would make the town before the test, and the closure of `then` would have to state the test once more.
        if !(1..=4096).contains(&places) {
            return None;
        }
        Some(SmallTown { places, arcs })
    }
}
