//! The empty heap, and what a heap answers about the places that wait.
ghost use Rattle.std.specs.Prelude.{◌≡◌, ℕ, is_some, None, ◌==◌};
ghost use Rattle.heap.specs.Content.{Ordered, content, size};

use super::IndexedHeap;
use crate::PLACES;
use crate::key::Key;
use crate::place::Place;
use crate::table::Table;

impl<K: Key> IndexedHeap<K> {
    /// The heap in which no place waits.
    #[tactic(auto, unfolding(crate::specs::Content::Ordered, crate::specs::Content::content))]
    pub fn new() -> IndexedHeap<K>
        ensures empty { (p : ℕ) → content result p ≡ None }
        ensures ordered { Ordered K.Key.order result }
    {
        let least = K::least();
        IndexedHeap {
            table: Table::empty(),
            keys: [least; PLACES],
        }
    }

    /// How many places wait.
    #[tactic(auto, using(crate::proofs::Contents::size_is_len))]
    pub fn len(&self) -> usize
        ensures { result ≡ size self.now }
    {
        self.table.len()
    }

    /// Whether no place waits.
    pub fn is_empty(&self) -> bool
        ensures { result ≡ (size self.now == 0) }
    {
        self.len() == 0
    }

    /// The key that a place waits with: none exactly if it does not wait.
    #[tactic(auto, unfolding(crate::specs::Content::content))]
    pub fn key_of(&self, place: u16) -> Option<K>
        ensures { result ≡ content self.now place }
    {
        let place = Place::new(place)?;
        // Not `then`: its closure was tried, and asks for clauses of its own, on the place's number and the key
        // that it gives: what a closure gives in generic code is not read off its body.
        if self.table.contains(place) {
            Some(self.keys[place.number as usize])
        } else {
            None
        }
    }

    /// Whether a place waits.
    pub fn contains(&self, place: u16) -> bool
        ensures { result ≡ is_some (content self.now place) }
    {
        self.key_of(place).is_some()
    }
}
