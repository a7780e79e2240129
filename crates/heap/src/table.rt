//! The plain table of the heap: which place stands in each slot, and in which slot each place stands.
ghost use Rattle.std.specs.Prelude.{◌≡◌, ℕ, ◌+◌, ◌-◌, ◌<◌, ◌≤◌, true, false, length, if◌then◌else◌, nat_eq, slice_index, slice_set};
ghost use Rattle.heap.specs.Pairing.{Filled, Placed, mark, waits};

use crate::PLACES;
use crate::place::Place;

mod swap;

/// The mark of a place that stands in no slot.
// A number and not `None`: with marks of `Option<u16>` the table is 24 KiB in place of 16, and each change
// copies it out and back. With a table of that size heap_trial took 1.13 s in place of 0.31.
const ABSENT: u16 = 4096;

/// Slots and positions that point back at each other, in every table that exists.
#[derive(Clone, Copy)]
pub struct Table {
    // Two arrays and a length, not `Vec` or a map: a heap has fixed memory and allocates nothing.
    slots: [u16; PLACES],
    positions: [u16; PLACES],
    len: usize,
    // Never read: with it a table is 64 bytes longer than a multiple of 4,096, and not 8. Two tables side
    // by side would else differ by 8 in the low twelve bits of their addresses, and a copy from one to
    // the other was measured to take fifteen times as long.
    spare: [u64; 7],
    ghost sized: { (length slots ≡ 4096) × (length positions ≡ 4096) },
    ghost room: { len ≤ 4096 },
    ghost filled: { Filled slots positions len },
    ghost placed: { Placed slots positions len },
}

impl Table {
    /// The table with every place absent.
    pub(crate) fn empty() -> Table
        ensures len { result.len ≡ 0 }
        ensures waiting { (p : ℕ) → waits result.positions p ≡ false }
    {
        Table {
            slots: [0; PLACES],
            positions: [ABSENT; PLACES],
            len: 0,
            spare: [0; 7],
        }
    }

    /// How many slots hold a place.
    pub(crate) fn len(&self) -> usize
        ensures { result ≡ self.now.len }
    {
        self.len
    }

    /// The place in a slot.
    pub(crate) fn place(&self, slot: usize) -> u16
        requires { slot < self.now.len }
        ensures { result ≡ slice_index self.now.slots slot }
    {
        self.slots[slot]
    }

    /// Whether a place stands in some slot.
    #[tactic(auto, using(std::proofs::lemmas::List::get_or_default))]
    pub(crate) fn contains(&self, place: Place) -> bool
        ensures { result ≡ waits self.now.positions place.number }
    {
        self.positions[place.number as usize] != ABSENT
    }

    /// The slot of a place that stands in one.
    #[tactic(auto, using(std::proofs::lemmas::List::get_or_default))]
    pub(crate) fn slot(&self, place: Place) -> u16
        requires { waits self.now.positions place.number ≡ true }
        ensures { result ≡ mark self.now.positions place.number }
    {
        self.positions[place.number as usize]
    }

    /// Puts an absent place into the slot past the last.
    #[tactic(auto, using(crate::proofs::Pairs::slot_left))]
    pub(crate) fn append(&mut self, place: Place)
        requires { waits self.old.positions place.number ≡ false }
        ensures len { self.new.len ≡ self.old.len + 1 }
        ensures slots { self.new.slots ≡ slice_set self.old.slots self.old.len place.number }
        ensures waiting { (p : ℕ) → waits self.new.positions p ≡ (if nat_eq p place.number then true else waits self.old.positions p) }
    {
        self.slots[self.len] = place.number;
        self.positions[place.number as usize] = self.len as u16;
        self.len += 1;
    }

    /// Takes the place out of the last slot.
    pub(crate) fn remove_last(&mut self) -> u16
        requires { 0 < self.old.len }
        ensures place { result ≡ slice_index self.old.slots (self.old.len - 1) }
        ensures len { self.new.len ≡ self.old.len - 1 }
        ensures slots { self.new.slots ≡ self.old.slots }
        ensures waiting { (p : ℕ) → waits self.new.positions p ≡ (if nat_eq p result then false else waits self.old.positions p) }
    {
        let place = self.slots[self.len - 1];
        self.positions[place as usize] = ABSENT;
        self.len -= 1;
        place
    }
}
