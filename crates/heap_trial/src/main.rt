//! Mixed operations on a heap of ranks and places, as many as one wants to time.
#![tactic(auto)]

ghost use Rattle.std.specs.Prelude.{◌≡◌, ◌+◌, ◌*◌, ◌%◌, ◌^◌, OnOk, OnErr, Some};
ghost use Rattle.heap.specs.Changes.{With};
ghost use Rattle.heap.specs.Content.{Ordered, content};
ghost use Rattle.heap.specs.Keys.{rank_place_order};

use heap::indexed_heap::IndexedHeap;
use heap::key::rank_place::RankPlace;
use heap::refusal::HeapRefusal;
use std::io;

#[cfg(test)]
mod tests;

/// How many operations the program makes.
const OPERATIONS: u32 = 1_000_000;

/// The next of a fixed sequence of numbers that look random.
fn next(seed: u32) -> u32
    ensures { result ≡ (seed * 1664525 + 1013904223) % 2 ^ 32 }
{
    seed.wrapping_mul(1664525).wrapping_add(1013904223)
}

/// Lets a place wait with a key, or lowers its key if it waits with a higher one.
fn offer(heap: &mut IndexedHeap<RankPlace>, place: u16, key: RankPlace) -> Result<(), HeapRefusal>
    ensures offered { OnOk result (With (content heap.old) place (Some key) (content heap.new)) }
    ensures refused { OnErr result (heap.new ≡ heap.old) }
    ensures ordered { Ordered rank_place_order heap.old → Ordered rank_place_order heap.new }
{
    match heap.push(place, key) {
        Err(HeapRefusal::Waiting) => heap.lower(place, key),
        answer => answer,
    }
}

/// Makes so many operations, of which six in sixteen take the least, and gives a sum over what was taken.
fn mixed(heap: &mut IndexedHeap<RankPlace>, operations: u32) -> u32
    ensures { Ordered rank_place_order heap.old → Ordered rank_place_order heap.new }
{
    let mut seed = 1;
    let mut sum: u32 = 0;
    for _ in 0..operations {
        seed = next(seed);
        if seed >> 28 < 6 {
            if let Some((place, key)) = heap.take_least() {
                sum = sum.wrapping_mul(31).wrapping_add(key.rank ^ place as u32);
            }
        } else {
            let place = (seed >> 12 & 4095) as u16;
            let rank = seed >> 4;
            let _ = offer(heap, place, RankPlace { rank, place });
        }
    }
    sum
}

fn main(rt: HostRuntime) -> io::Result<()> {
    let mut heap = IndexedHeap::new();
    let sum = mixed(&mut heap, OPERATIONS);
    let waiting = heap.len();
    println!(rt; "{sum} {waiting}")
}
