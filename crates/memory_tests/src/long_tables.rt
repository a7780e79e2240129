//! Tables of 65,536 cells and more: only the first 65,536 cells exist.
use examine::memory::Memory;
use fault::memory_test::MemoryTest;
use sketches::cells::cells_there;
use sketches::free::free_cell;
use sketches::view::Sketches;
use std::alloc::{AllocError, Global};
use std::test::Fail;
use tables::rows::{Cell, HomeRow, MISSING, OrderRow};

/// So many cells of one place, each linked to its neighbours, at positions that rise as far as they can.
fn chain(heap: Global, length: u32) -> Result<Vec<Cell<u32>>, AllocError> {
    (0..length)
        .map(|j| Cell {
            owner: 0,
            position: j.min(65_535) as u16,
            length: 0,
            before: if j > 0 { j - 1 } else { MISSING },
            after: if j < length - 1 { j + 1 } else { MISSING },
        })
        .collect(heap)
}

/// The first test that a map of one place with such a sketch fails, if any.
fn first_failing(used: u32, row: HomeRow, cells: &[Cell<u32>]) -> Result<(), MemoryTest> {
    let memory = Memory {
        n: 1,
        swept: 65_535,
        used,
        order: &[OrderRow { rank: 1, place: 0 }],
        sketches: Sketches {
            home: &[row],
            cells,
        },
    };
    memory.examine(Some(1))
}

/// The row of a place with so many entries, from the first cell to this one.
fn row(last: u32, entries: u32) -> HomeRow {
    HomeRow {
        position: 0,
        first: 0,
        last,
        entries,
    }
}

#[test]
fn longest_sketch(rt: HostRuntime) -> Result<(), Fail> {
    let cells = chain(rt.alloc(), 65_535)?;
    assert_eq!(rt; first_failing(65_535, row(65_534, 65_535), &cells), Ok(()));
    assert_eq!(rt;
        first_failing(65_534, row(65_534, 65_535), &cells),
        Err(MemoryTest::Counts)
    );
    assert_eq!(rt;
        first_failing(65_536, row(65_534, 65_535), &cells),
        Err(MemoryTest::Links)
    );
    Ok(())
}

#[test]
fn no_position_is_left(rt: HostRuntime) -> Result<(), Fail> {
    // 65,536 cells can be linked, and then the last position is not below the number swept
    let cells = chain(rt.alloc(), 65_536)?;
    assert_eq!(rt;
        first_failing(65_536, row(65_535, 65_536), &cells),
        Err(MemoryTest::Positions)
    );
    Ok(())
}

#[test]
fn cells_past_the_last(rt: HostRuntime) -> Result<(), Fail> {
    let heap = rt.alloc();
    let mut cells = chain(heap, 2)?;
    fill_up(&mut cells)?;
    assert_eq!(rt; cells.len(), 65_536);
    assert_eq!(rt; first_failing(2, row(1, 2), &cells), Ok(()));
    // a cell of number 65,536 that names the place is not counted, and none is free there
    cells.push(Cell {
        owner: 0,
        position: 2,
        length: 0,
        before: 1,
        after: MISSING,
    })?;
    cells.push(Cell {
        owner: 1,
        position: 2,
        length: 0,
        before: 1,
        after: MISSING,
    })?;
    assert_eq!(rt; cells_there(&cells), 65_536);
    assert_eq!(rt; first_failing(2, row(1, 2), &cells), Ok(()));
    assert_eq!(rt;
        first_failing(65_537, row(1, 2), &cells),
        Err(MemoryTest::Links)
    );
    assert_eq!(rt; free_cell(1, &cells, 0), Some(2));
    assert_eq!(rt; free_cell(1, &cells, 65_535), Some(65_535));
    assert_eq!(rt; free_cell(1, &cells, 65_536), None);
    assert_eq!(rt; free_cell(1, &cells, 65_537), None);
    Ok(())
}

/// Free cells up to the number of 65,536.
fn fill_up(cells: &mut Vec<Cell<u32>>) -> Result<(), AllocError> {
    let free = Cell {
        owner: 1,
        position: 0,
        length: 0,
        before: 0,
        after: 0,
    };
    cells.resize(65_536, free)
}
