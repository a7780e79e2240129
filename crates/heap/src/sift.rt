//! How a place moves through the slots until the order of the heap holds again.
//!
//! The keys come beside the table and not in one struct with it: a struct of both would be the heap again,
//! out of which the table was taken, and each clause would say of the keys that they stay.
//!
//! Five functions, three of them here, ask that a slot is below the length. That is so in this very table,
//! and a type of slots could not say in which table.
ghost use Rattle.std.specs.Prelude.{◌≡◌, ℕ, ◌+◌, ◌<◌, ◌≤◌, T};
ghost use Rattle.heap.specs.Heaped.{Heaped, HeapedButAbove, HeapedButBelow, key_in};
ghost use Rattle.heap.specs.Moves.{SameWaiting};

use crate::PLACES;
use crate::key::Key;
use crate::table::Table;

impl Table {
    /// Moves the place in a slot towards the first slot, as far as its key goes.
    pub(crate) fn sift_up<K: Key>(&mut self, keys: &[K; PLACES], from: usize)
        requires { from < self.old.len }
        ensures same { SameWaiting self.old self.new }
        ensures heaped { HeapedButAbove K.Key.order (key_in K.Key.order keys.now self.old.slots) self.old.len from → Heaped K.Key.order (key_in K.Key.order keys.now self.new.slots) self.old.len }
    {
        let key = self.key(keys, from);
        let mut at = from;
        // A loop and not an iterator: it goes from a slot to the one above it, and does not count.
        while at > 0 {
            let above = (at - 1) / 2;
            if self.key(keys, above).at_most(key) {
                return;
            }
            self.swap(above, at);
            at = above;
        }
    }

    /// Moves the place in the first slot away from it, as far as its key goes.
    pub(crate) fn sift_down<K: Key>(&mut self, keys: &[K; PLACES])
        ensures same { SameWaiting self.old self.new }
        ensures heaped { HeapedButBelow K.Key.order (key_in K.Key.order keys.now self.old.slots) self.old.len 0 → Heaped K.Key.order (key_in K.Key.order keys.now self.new.slots) self.old.len }
    {
        let len = self.len();
        if len == 0 {
            return;
        }
        let key = self.key(keys, 0);
        let mut at = 0;
        // A loop here too: it goes from a slot to one of the two below it.
        while 2 * at + 1 < len {
            let child = self.least_below(keys, 2 * at + 1);
            if key.at_most(self.key(keys, child)) {
                return;
            }
            self.swap(at, child);
            at = child;
        }
    }

    /// Of the one or two slots below a slot, of which `left` is the first, the one with the least key.
    fn least_below<K: Key>(&self, keys: &[K; PLACES], left: usize) -> usize
        requires { left < self.now.len }
        ensures slot { (left ≤ result) × (result ≤ left + 1) × (result < self.now.len) }
        ensures least { (i : ℕ) → left ≤ i → i ≤ left + 1 → i < self.now.len → T (K.Key.order.at_most (key_in K.Key.order keys.now self.now.slots result) (key_in K.Key.order keys.now self.now.slots i)) }
    {
        let right = left + 1;
        if right >= self.len() {
            return left;
        }
        if self.key(keys, left).at_most(self.key(keys, right)) {
            left
        } else {
            right
        }
    }

    /// The key of the place in a slot.
    fn key<K: Key>(&self, keys: &[K; PLACES], slot: usize) -> K
        requires { slot < self.now.len }
        ensures { result ≡ key_in K.Key.order keys.now self.now.slots slot }
    {
        keys[self.place(slot) as usize]
    }
}
