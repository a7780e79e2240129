//! Taking until none is left: it hands out exactly what was held, keys never falling.
ghost use Rattle.std.specs.Prelude.{◌≡◌, ℕ, ◌+◌, ◌≤◌, min, length, slice_index};
ghost use Rattle.heap.specs.Content.{Ordered, content, size};
ghost use Rattle.heap.specs.Drained.{Drained, HandsOutAll, Rising};

use super::IndexedHeap;
use crate::key::Key;

impl<K: Key> IndexedHeap<K> {
    /// Takes places out until none waits or the slice is full, and writes them in the order of their keys.
    ///
    /// Gives how many it wrote; the rest of the slice is unchanged.
    #[tactic(auto, using(crate::proofs::Contents::size_from_none))]
    pub fn drain(&mut self, places: &mut [u16]) -> usize
        ensures count { result ≡ min (length places.old) (size self.old) }
        ensures left { size self.new + result ≡ size self.old }
        ensures drained { Drained (content self.old) places.new result (content self.new) }
        ensures rising { Ordered K.Key.order self.old → Rising K.Key.order (content self.old) places.new result (content self.new) }
        ensures all { size self.old ≤ length places.old → HandsOutAll (content self.old) places.new result }
        ensures rest { (i : ℕ) → result ≤ i → slice_index places.new i ≡ slice_index places.old i }
        ensures ordered { Ordered K.Key.order self.old → Ordered K.Key.order self.new }
    {
        for (count, slot) in places.iter_mut().enumerate() {
            let Some((place, _)) = self.take_least() else {
                return count;
            };
            *slot = place;
        }
        places.len()
    }
}
