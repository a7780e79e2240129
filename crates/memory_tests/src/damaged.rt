//! Damaged memories, each with the first test that it fails, and sound ones beside them.
use crate::memory::{Change, TestMemory, founded, town};
use fault::memory_test::MemoryTest;
use std::process::Abort;
use tables::rows::MISSING;

/// Each of these changes alone has the memory fail this test first.
fn check_each(rt: &impl Abort, memory: TestMemory, changes: &[Change], due: MemoryTest) {
    for change in changes {
        assert_eq!(rt; memory.with(&[*change]).first_failing(), Err(due));
    }
}

/// Each of these lists of changes together has the town fail this test first.
fn check_together<const N: usize>(rt: &impl Abort, lists: &[[Change; N]], due: MemoryTest) {
    for changes in lists {
        assert_eq!(rt; town().with(changes).first_failing(), Err(due));
    }
}

#[test]
fn order_damaged(rt: HostRuntime) {
    check_each(
        &rt,
        town(),
        &[
            // ranks: none 0, and rising
            Change::Rank(0, 0),
            Change::Rank(0, 1_000_000_001),
            Change::Rank(1, 999_999_999),
            Change::Rank(2, 0),
            Change::Rank(2, 1_000_000_000),
            Change::Rank(4, 0),
            Change::Rank(4, 3_000_000_000 - 1),
            // places and positions
            Change::Place(0, 3),
            Change::Place(2, 5),
            Change::Place(4, 65_535),
            Change::Position(0, 4),
            Change::Position(2, 5),
            Change::Position(4, 65_535),
            // tables one row short
            Change::OrderRows(4),
            Change::HomeRows(4),
            Change::OrderRows(0),
            Change::HomeRows(0),
            // one place more than there are rows that point back
            Change::Places(6),
            Change::Places(7),
        ],
        MemoryTest::Order,
    );
    // two places of one rank in the wrong order, pointing back at each other; and one row twice
    check_together(
        &rt,
        &[
            [
                Change::Place(0, 3),
                Change::Place(1, 1),
                Change::Position(3, 0),
                Change::Position(1, 1),
            ],
            [
                Change::Place(1, 1),
                Change::Rank(1, 1_000_000_000),
                Change::Position(3, 0),
                Change::Used(14),
            ],
        ],
        MemoryTest::Order,
    );
}

#[test]
fn links_damaged(rt: HostRuntime) {
    check_each(
        &rt,
        town(),
        &[
            // the ends of a sketch
            Change::First(0, 3),
            Change::First(2, MISSING),
            Change::First(4, 16),
            Change::Last(0, 3),
            Change::Last(2, MISSING),
            Change::Last(4, 12),
            // the number of entries, one off and far off
            Change::Entries(0, 2),
            Change::Entries(2, 3),
            Change::Entries(4, 0),
            Change::Entries(0, 4_294_967_295),
            // the owner of a first, middle and last cell
            Change::Owner(0, 1),
            Change::Owner(3, 5),
            Change::Owner(13, 65_535),
            // the links of a first, middle and last cell: back, forward, in a loop, past the table, and one past the missing
            Change::Before(2, 13),
            Change::Before(7, MISSING),
            Change::Before(13, 7),
            Change::Before(3, 16),
            Change::After(2, 12),
            Change::After(7, 2),
            Change::After(7, 7),
            Change::After(13, 2),
            Change::After(13, 14),
            Change::After(12, 16),
            Change::After(13, MISSING + 1),
            Change::After(13, 4_294_967_295),
            // fewer cells than are used
            Change::Used(17),
            Change::CellRows(13),
            Change::CellRows(0),
        ],
        MemoryTest::Links,
    );
    // an empty sketch has both ends missing
    check_each(
        &rt,
        founded(),
        &[
            Change::First(0, 0),
            Change::First(2, 16),
            Change::First(4, MISSING - 1),
            Change::Last(0, 0),
            Change::Last(2, 16),
            Change::Last(4, MISSING + 1),
            Change::Entries(4, 1),
        ],
        MemoryTest::Links,
    );
    // one cell shared by two sketches; a sketch of another's cells; a sketch that ends in a loop
    check_together(
        &rt,
        &[
            [Change::After(5, 9), Change::Last(2, 9), Change::Owner(9, 2)],
            [
                Change::First(3, 5),
                Change::Last(3, 8),
                Change::Entries(3, 2),
            ],
            [
                Change::After(13, 2),
                Change::Before(2, 13),
                Change::Entries(4, 8),
            ],
        ],
        MemoryTest::Links,
    );
}

#[test]
fn positions_damaged(rt: HostRuntime) {
    check_each(
        &rt,
        town(),
        &[
            // not rising: at the first, a middle and the last entry
            Change::Noted(2, 1),
            Change::Noted(7, 0),
            Change::Noted(12, 1),
            Change::Noted(13, 3),
            Change::Noted(0, 1),
            Change::Noted(9, 1),
            // not below the number swept
            Change::Noted(13, 5),
            Change::Noted(10, 65_535),
            Change::Swept(4),
            Change::Swept(0),
        ],
        MemoryTest::Positions,
    );
}

#[test]
fn counts_damaged(rt: HostRuntime) {
    check_each(
        &rt,
        town(),
        &[
            Change::Used(13),
            Change::Used(15),
            Change::Used(0),
            // a free cell that names a place, first and last
            Change::Owner(14, 0),
            Change::Owner(15, 4),
        ],
        MemoryTest::Counts,
    );
    check_each(
        &rt,
        founded(),
        &[Change::Used(1), Change::Owner(0, 4), Change::Owner(15, 0)],
        MemoryTest::Counts,
    );
}

#[test]
fn places_damaged(rt: HostRuntime) {
    check_each(
        &rt,
        town(),
        &[
            Change::MapPlaces(4),
            Change::MapPlaces(6),
            Change::MapPlaces(0),
            Change::MapPlaces(65_541),
        ],
        MemoryTest::Places,
    );
}

#[test]
fn sound(rt: HostRuntime) {
    assert_eq!(rt; town().first_failing(), Ok(()));
    assert_eq!(rt; founded().first_failing(), Ok(()));
    for change in [
        // exactly the rows that are needed, and no map
        Change::OrderRows(5),
        Change::HomeRows(5),
        Change::CellRows(14),
        Change::MapPlaces(5),
        // surplus rows and free cells may hold anything
        Change::Rank(5, 7),
        Change::Place(5, 0),
        Change::Position(5, 0),
        Change::First(5, 0),
        Change::Entries(5, 100),
        Change::Owner(14, 65_535),
        Change::After(14, 14),
        Change::Before(15, 4_294_967_295),
        Change::Noted(15, 0),
        // more places may be swept than are noted
        Change::Swept(6),
        // equal ranks go by place
        Change::Rank(4, 3_000_000_000),
    ] {
        assert_eq!(rt; town().with(&[change]).first_failing(), Ok(()));
    }
    let mut alone = town();
    alone.map_places = None;
    assert_eq!(rt; alone.first_failing(), Ok(()));
    // no cells at all are enough where none is used
    assert_eq!(rt;
        founded().with(&[Change::CellRows(0)]).first_failing(),
        Ok(())
    );
}

#[test]
fn earlier_test_is_told(rt: HostRuntime) {
    // with every test broken, the first is told; with that one mended, the next
    let mut memory = town();
    for (change, due) in [
        (Change::MapPlaces(6), MemoryTest::Places),
        (Change::Used(13), MemoryTest::Counts),
        (Change::Noted(13, 5), MemoryTest::Positions),
        (Change::Last(0, 3), MemoryTest::Links),
        (Change::Rank(0, 0), MemoryTest::Order),
    ] {
        memory = memory.with(&[change]);
        assert_eq!(rt; memory.first_failing(), Err(due));
    }
}
