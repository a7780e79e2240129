//! Exchanging the places in two slots: the step that `sift_up` and `sift_down` repeat.
//!
//! A file of its own: its contract names `SameWaiting`, which names the table, so table.rt cannot import it.
ghost use Rattle.std.specs.Prelude.{◌≡◌, ◌<◌};
ghost use Rattle.heap.specs.Moves.{SameWaiting};
ghost use Rattle.heap.specs.Pairing.{exchange};

use super::Table;

impl Table {
    /// Exchanges the places in two slots.
    pub(crate) fn swap(&mut self, i: usize, j: usize)
        requires { (i < self.old.len) × (j < self.old.len) }
        ensures slots { self.new.slots ≡ exchange self.old.slots i j }
        ensures same { SameWaiting self.old self.new }
    {
        let a = self.slots[i];
        let b = self.slots[j];
        self.slots.swap(i, j);
        self.positions[a as usize] = j as u16;
        self.positions[b as usize] = i as u16;
    }
}
