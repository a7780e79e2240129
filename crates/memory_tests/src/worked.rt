//! Work on the sketches of the town of five: counting, reading, removing and appending.
use crate::memory::{TestMemory, town};
use measure::seconds::Seconds;
use sketches::appending::append;
use sketches::free::free_cell;
use sketches::removing::remove_last;
use std::process::Abort;
use tables::rows::Entry;

/// The sketch of a place is this list of positions and lengths.
fn check_sketch(rt: &impl Abort, memory: &TestMemory, v: u16, due: &[(u16, u32)]) {
    let mut reader = memory.sketches().entries(v);
    for (position, length) in due.iter().copied() {
        assert_eq!(rt; reader.next(), Some(Entry { position, length }));
    }
    assert_eq!(rt; reader.next(), None);
    assert_eq!(rt; reader.next(), None);
}

#[test]
fn counted_and_read(rt: HostRuntime) {
    let memory = town();
    for (limit, due) in [(0, 1), (99, 1), (100, 2), (299, 2), (300, 3)] {
        let limit = Seconds::new(limit);
        assert_eq!(rt; memory.sketches().count_within(0, limit), due);
    }
    assert_eq!(rt; memory.sketches().count_within(9, Seconds::new(300)), 0);
    check_sketch(&rt, &memory, 0, &[(0, 100), (1, 300), (3, 0)]);
    check_sketch(&rt, &memory, 3, &[(1, 0), (2, 50)]);
    check_sketch(&rt, &memory, 4, &[(0, 110), (1, 310), (3, 10), (4, 0)]);
    check_sketch(&rt, &memory, 9, &[]);
}

#[test]
fn removed_and_appended(rt: HostRuntime) {
    let mut memory = town();
    let last = memory.sketches().last_entry(4);
    assert_eq!(rt; last.map(|entry| entry.position), Some(4));
    remove_last(5, &mut memory.home, &mut memory.cells, 4);
    memory.used = 13;
    memory.swept = 4;
    assert_eq!(rt; memory.first_failing(), Ok(()));
    assert_eq!(rt; memory.cells[13].owner, 5);
    check_sketch(&rt, &memory, 4, &[(0, 110), (1, 310), (3, 10)]);
    assert_eq!(rt; free_cell(5, &memory.cells, 0), Some(13));
    append(
        &mut memory.home,
        &mut memory.cells,
        0,
        13,
        Entry {
            position: 4,
            length: 7,
        },
    );
    memory.used = 14;
    memory.swept = 5;
    assert_eq!(rt; memory.first_failing(), Ok(()));
    check_sketch(&rt, &memory, 0, &[(0, 100), (1, 300), (3, 0), (4, 7)]);
    check_sketch(&rt, &memory, 4, &[(0, 110), (1, 310), (3, 10)]);
}

#[test]
fn emptied_and_filled(rt: HostRuntime) {
    let mut memory = town();
    remove_last(5, &mut memory.home, &mut memory.cells, 2);
    remove_last(5, &mut memory.home, &mut memory.cells, 2);
    memory.used = 12;
    assert_eq!(rt; memory.first_failing(), Ok(()));
    check_sketch(&rt, &memory, 2, &[]);
    assert!(rt; memory.sketches().last_entry(2).is_none());
    // nothing to remove: nothing changes
    remove_last(5, &mut memory.home, &mut memory.cells, 2);
    assert_eq!(rt; memory.first_failing(), Ok(()));
    append(
        &mut memory.home,
        &mut memory.cells,
        2,
        8,
        Entry {
            position: 0,
            length: 9,
        },
    );
    memory.used = 13;
    assert_eq!(rt; memory.first_failing(), Ok(()));
    check_sketch(&rt, &memory, 2, &[(0, 9)]);
}
