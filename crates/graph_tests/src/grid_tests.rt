//! Grids: what they answer, and what is refused.
use fault::atlas::AtlasFault;
use graph::grid::Grid;
use graph::map::Map;
use std::array;
use std::process::Abort;
use std::test::Fail;

/// The arc of number `i` to a place: where it comes from and how many seconds it takes.
fn arc(grid: &Grid, place: usize, i: usize) -> Option<(u16, u32)> {
    grid.arrival(place, i)
        .map(|arc| (arc.from, arc.length.count()))
}

/// So many arcs arrive at each of these places, and no more.
fn check_counts(rt: &impl Abort, grid: &Grid, due: &[(usize, usize)]) -> Result<(), Fail> {
    for &(place, count) in due {
        assert_eq!(rt; grid.arrivals(place), count);
        assert_eq!(rt; arc(grid, place, count), None);
    }
    Ok(())
}

/// At a place, the arc of this number comes from there and takes so many seconds.
fn check_arcs(rt: &impl Abort, grid: &Grid, due: &[(usize, usize, u16, u32)]) -> Result<(), Fail> {
    for &(place, i, from, seconds) in due {
        assert_eq!(rt; arc(grid, place, i), Some((from, seconds)));
    }
    Ok(())
}

#[test]
fn small_grids(rt: HostRuntime) -> Result<(), Fail> {
    let one = Grid::new(1, 1, &[9])?;
    check_counts(&rt, &one, &[(0, 0), (1, 0)])?;
    // one row, and one column
    for (rows, columns) in [(1, 3), (3, 1)] {
        let grid = Grid::new(rows, columns, &[5, 6, 7])?;
        check_counts(&rt, &grid, &[(0, 1), (1, 2), (2, 1), (3, 0)])?;
        check_arcs(
            &rt,
            &grid,
            &[(0, 0, 1, 5), (1, 0, 0, 6), (1, 1, 2, 6), (2, 0, 1, 7)],
        )?;
    }
    Ok(())
}

#[test]
fn barred_corners(rt: HostRuntime) -> Result<(), Fail> {
    // 0 2 0
    // 4 5 6
    // 0 8 0, with a byte that is not read
    let grid = Grid::new(3, 3, &[0, 2, 0, 4, 5, 6, 0, 8, 0, 1])?;
    assert_eq!(rt; grid.places(), 9);
    check_counts(
        &rt,
        &grid,
        &[
            (0, 0),
            (1, 1),
            (2, 0),
            (3, 1),
            (4, 4),
            (5, 1),
            (6, 0),
            (7, 1),
            (8, 0),
            (9, 0),
        ],
    )?;
    check_arcs(
        &rt,
        &grid,
        &[
            (1, 0, 4, 2),
            (3, 0, 4, 4),
            (4, 0, 1, 5),
            (4, 1, 3, 5),
            (4, 2, 5, 5),
            (4, 3, 7, 5),
            (5, 0, 4, 6),
            (7, 0, 4, 8),
        ],
    )
}

#[test]
fn wall_in_the_largest(rt: HostRuntime) -> Result<(), Fail> {
    let bytes = array::from_fn::<u8, 4096, _>(|place| if place % 64 == 32 { 0 } else { 3 });
    let grid = Grid::new(64, 64, &bytes)?;
    assert_eq!(rt; grid.places(), 4096);
    check_counts(
        &rt,
        &grid,
        &[(0, 2), (671, 3), (672, 0), (673, 3), (4095, 2), (4096, 0)],
    )?;
    check_arcs(
        &rt,
        &grid,
        &[
            (0, 0, 1, 3),
            (0, 1, 64, 3),
            (671, 0, 607, 3),
            (671, 1, 670, 3),
            (671, 2, 735, 3),
        ],
    )?;
    check_arcs(
        &rt,
        &grid,
        &[
            (673, 0, 609, 3),
            (673, 1, 674, 3),
            (673, 2, 737, 3),
            (4095, 0, 4031, 3),
            (4095, 1, 4094, 3),
        ],
    )
}

#[test]
fn refused(rt: HostRuntime) {
    let bytes = [1; 4096];
    let cases = [
        (0, 65, 0, Some(AtlasFault::SideOutOfBounds(0))),
        (65, 0, 0, Some(AtlasFault::SideOutOfBounds(65))),
        (1, 0, 0, Some(AtlasFault::SideOutOfBounds(0))),
        (64, 65, 0, Some(AtlasFault::SideOutOfBounds(65))),
        (1, 1, 0, Some(AtlasFault::TooShort(1))),
        (2, 3, 5, Some(AtlasFault::TooShort(6))),
        (64, 64, 4095, Some(AtlasFault::TooShort(4096))),
        (64, 64, 4096, None),
    ];
    for (rows, columns, count, due) in cases {
        assert!(rt; count <= 4096);
        assert_eq!(rt; Grid::new(rows, columns, &bytes[..count]).err(), due);
    }
}
