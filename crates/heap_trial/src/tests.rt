//! The heap on examples: the orders that keys can come in, and every answer to an ill-timed call.
use heap::PLACES;
use heap::indexed_heap::IndexedHeap;
use heap::key::length_key::LengthKey;
use heap::key::rank_place::RankPlace;
use heap::refusal::HeapRefusal;
use measure::rise::Rise;
use std::process::Abort;

/// Lets places 0, 1, .. wait with these ranks, and drains them.
fn drained(ranks: &[u32], places: &mut [u16]) -> usize {
    let mut heap = IndexedHeap::new();
    for (place, rank) in (0u16..).zip(ranks) {
        let _ = heap.push(place, RankPlace { rank: *rank, place });
    }
    heap.drain(places)
}

fn check_drained(rt: &impl Abort, ranks: &[u32], expected: &[u16]) {
    let mut places = [9; 5];
    let count = drained(ranks, &mut places);
    assert_eq!(rt; count, expected.len());
    assert!(rt; count <= 5);
    assert_eq!(rt; &places[0..count], expected);
}

#[test]
fn small_heaps(rt: HostRuntime) {
    check_drained(&rt, &[], &[]);
    check_drained(&rt, &[7], &[0]);
    check_drained(&rt, &[1, 2, 3, 4], &[0, 1, 2, 3]);
    check_drained(&rt, &[4, 3, 2, 1], &[3, 2, 1, 0]);
    check_drained(&rt, &[5, 5, 5, 5, 5], &[0, 1, 2, 3, 4]);
    check_drained(&rt, &[3, 1, 3, 2, 1], &[1, 4, 3, 0, 2]);
}

/// The rank of a place, each from 0 to 4,095 once, since 2,731 is odd.
fn rank_of(place: u16) -> u32 {
    (place as u32).wrapping_mul(2731) % 4096
}

#[test]
fn full_heap(rt: HostRuntime) {
    let mut heap = IndexedHeap::new();
    for place in 0..4096 {
        let rank = rank_of(place);
        assert_eq!(rt; heap.push(place, RankPlace { rank, place }), Ok(()));
    }
    assert_eq!(rt; heap.len(), 4096);
    let mut places = [0; PLACES];
    assert_eq!(rt; heap.drain(&mut places), 4096);
    assert!(rt; heap.is_empty());
    for (rank, place) in (0u32..).zip(places) {
        assert_eq!(rt; rank_of(place), rank);
    }
}

fn rise(millimetres: u16) -> LengthKey<Rise> {
    LengthKey {
        length: Rise::new(millimetres),
    }
}

#[test]
fn ill_timed_calls(rt: HostRuntime) {
    let mut heap = IndexedHeap::new();
    assert_eq!(rt; heap.take_least(), None);
    assert_eq!(rt; heap.lower(8, rise(1)), Err(HeapRefusal::NotWaiting));
    assert_eq!(rt; heap.push(4096, rise(1)), Err(HeapRefusal::NoSuchPlace));
    assert_eq!(rt; heap.lower(65535, rise(1)), Err(HeapRefusal::NoSuchPlace));
    assert_eq!(rt; heap.push(8, rise(30)), Ok(()));
    assert_eq!(rt; heap.push(4095, rise(20)), Ok(()));
    assert_eq!(rt; heap.push(8, rise(10)), Err(HeapRefusal::Waiting));
    assert_eq!(rt; heap.lower(8, rise(31)), Err(HeapRefusal::HigherKey));
    assert_eq!(rt; heap.len(), 2);
    assert_eq!(rt; heap.lower(8, rise(30)), Ok(()));
    assert_eq!(rt; heap.lower(8, rise(19)), Ok(()));
    assert!(rt; heap.contains(4095));
    assert_eq!(rt; heap.take_least(), Some((8, rise(19))));
    assert!(rt; !heap.contains(8));
    assert_eq!(rt; heap.take_least(), Some((4095, rise(20))));
    assert_eq!(rt; heap.take_least(), None);
}
