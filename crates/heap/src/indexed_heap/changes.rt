//! What changes a heap: a place comes in, its key is lowered, the least is taken out.
//!
//! An ill-timed call is answered exactly, and leaves the heap as it was.
ghost use Rattle.heap.specs.Changes.{Lowered, Pushed, Taken};
ghost use Rattle.heap.specs.Content.{Ordered};

use super::IndexedHeap;
use crate::key::Key;
use crate::place::Place;
use crate::refusal::HeapRefusal;

impl<K: Key> IndexedHeap<K> {
    /// Lets a place wait that does not wait yet.
    pub fn push(&mut self, place: u16, key: K) -> Result<(), HeapRefusal>
        ensures pushed { Pushed self.old place key result self.new }
        ensures ordered { Ordered K.Key.order self.old → Ordered K.Key.order self.new }
    {
        let known = Place::new(place).ok_or(HeapRefusal::NoSuchPlace)?;
        if self.contains(place) {
            return Err(HeapRefusal::Waiting);
        }
        self.insert(known, key);
        Ok(())
    }

    /// Lowers the key of a place that waits. An equal key is fine.
    pub fn lower(&mut self, place: u16, key: K) -> Result<(), HeapRefusal>
        ensures lowered { Lowered K.Key.order self.old place key result self.new }
        ensures ordered { Ordered K.Key.order self.old → Ordered K.Key.order self.new }
    {
        let known = Place::new(place).ok_or(HeapRefusal::NoSuchPlace)?;
        let old = self.key_of(place).ok_or(HeapRefusal::NotWaiting)?;
        if !key.at_most(old) {
            return Err(HeapRefusal::HigherKey);
        }
        self.reduce(known, key);
        Ok(())
    }

    /// Takes out a place with the least key: none exactly if no place waits.
    #[tactic(auto, using(crate::proofs::Contents::none_from_size, crate::proofs::Contents::size_is_len))]
    pub fn take_least(&mut self) -> Option<(u16, K)>
        ensures taken { Taken K.Key.order self.old result self.new }
        ensures ordered { Ordered K.Key.order self.old → Ordered K.Key.order self.new }
    {
        if self.is_empty() {
            return None;
        }
        Some(self.take_first())
    }
}
