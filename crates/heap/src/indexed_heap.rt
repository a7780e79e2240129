//! The heap: a table of slots and positions, and the key of each place.
ghost use Rattle.std.specs.Prelude.{◌≡◌, length};

use crate::PLACES;
use crate::table::Table;

pub mod changes;
pub mod draining;
pub mod questions;
mod well_timed;

/// Places that wait, each with a key.
///
/// A change takes the table out, changes it and writes it back whole, so that in every heap that exists
/// slots and positions point back at each other.
// That no slot's key is below that of the slot above stands in the contracts: an invariant would name the
// order of the key, and so ask the bound `K: Key` of the type and of whoever names a heap.
#[derive(Drop)]
pub struct IndexedHeap<K> {
    table: Table,
    // A key for each place, by its number, whether it waits or not: a heap has fixed memory.
    keys: [K; PLACES],
    ghost sized: { length keys ≡ 4096 },
}
