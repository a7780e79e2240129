//! Tables of least lengths, against tables worked out by hand.
use crate::small_town::SmallTown;
use all_pairs::least_lengths;
use fault::atlas::AtlasFault;
use graph::arc::Arc;
use graph::grid::Grid;
use measure::fares::Fares;
use measure::fares_row::FaresRow;
use measure::rise::Rise;
use measure::seconds::Seconds;
use std::test::Fail;

/// An arc from a place, of some length.
fn arc<L>(from: u16, length: L) -> Arc<L> {
    Arc { from, length }
}

#[test]
fn five_in_seconds(rt: HostRuntime) -> Result<(), Fail> {
    // 1 to 0, 100; 4 to 0, 10; 0 to 1, 100; 3 to 2, 50; 0 to 2, 350; 1 to 3, 200; 2 to 3, 50
    let arcs = [
        (0, arc(1, Seconds::new(100))),
        (0, arc(4, Seconds::new(10))),
        (1, arc(0, Seconds::new(100))),
        (2, arc(3, Seconds::new(50))),
        (2, arc(0, Seconds::new(350))),
        (3, arc(1, Seconds::new(200))),
        (3, arc(2, Seconds::new(50))),
    ];
    let town = SmallTown::new(5, &arcs).ok_or("no town")?;
    let due = [
        [Some(0), Some(100), Some(350), Some(300), None],
        [Some(100), Some(0), Some(250), Some(200), None],
        [None, None, Some(0), Some(50), None],
        [None, None, Some(50), Some(0), None],
        [Some(10), Some(110), Some(360), Some(310), Some(0)],
    ];
    let mut table = [Some(7); 26];
    least_lengths(&town, &mut table)?;
    let (rows, rest) = table.split_at(25);
    assert_eq!(rt; rows, due.as_flattened());
    assert_eq!(rt; rest, [Some(7)].as_slice());
    let mut short = [Some(7); 24];
    assert_eq!(rt;
        least_lengths(&town, &mut short),
        Err(AtlasFault::TooShort(25))
    );
    assert_eq!(rt; short, [Some(7); 24]);
    Ok(())
}

#[test]
fn three_in_rise(rt: HostRuntime) -> Result<(), Fail> {
    // 2 to 0, 10; 0 to 1, 30; 1 to 2, 20; 0 to 2, 40
    let arcs = [
        (0, arc(2, Rise::new(10))),
        (1, arc(0, Rise::new(30))),
        (2, arc(1, Rise::new(20))),
        (2, arc(0, Rise::new(40))),
    ];
    let town = SmallTown::new(3, &arcs).ok_or("no town")?;
    let due = [0, 30, 30, 20, 0, 20, 10, 30, 0];
    let mut table = [None; 9];
    least_lengths(&town, &mut table)?;
    assert_eq!(rt; table, due.map(Some));
    Ok(())
}

#[test]
fn three_in_fares(rt: HostRuntime) -> Result<(), Fail> {
    // 1 to 0, (65,535; 5); 0 to 1, (1; 100); 2 to 1, (1; 7); 1 to 2, (1; 50); 0 to 2, (3; 10)
    let arcs = [
        (0, arc(1, Fares::new(65535, Seconds::new(5)))),
        (1, arc(0, Fares::new(1, Seconds::new(100)))),
        (1, arc(2, Fares::new(1, Seconds::new(7)))),
        (2, arc(1, Fares::new(1, Seconds::new(50)))),
        (2, arc(0, Fares::new(3, Seconds::new(10)))),
    ];
    let town = SmallTown::new(3, &arcs).ok_or("no town")?;
    let due = [
        (0, 0),
        (1, 100),
        (2, 150),
        (65535, 5),
        (0, 0),
        (1, 50),
        (65535, 4294967295),
        (1, 7),
        (0, 0),
    ];
    let mut table = [None; 9];
    least_lengths(&town, &mut table)?;
    assert_eq!(rt;
        table,
        due.map(|(zones, seconds)| Some(FaresRow { zones, seconds }))
    );
    Ok(())
}

#[test]
fn round_a_barred_cell(rt: HostRuntime) -> Result<(), Fail> {
    // 1 2 3
    // 4 0 5
    // 6 7 8
    let grid = Grid::new(3, 3, &[1, 2, 3, 4, 0, 5, 6, 7, 8])?;
    let mut table = [None; 81];
    least_lengths(&grid, &mut table)?;
    // from the first cell: right and down, or down and right
    let due = [
        Some(0),
        Some(2),
        Some(5),
        Some(4),
        None,
        Some(10),
        Some(10),
        Some(17),
        Some(18),
    ];
    assert_eq!(rt; &table[..9], due.as_slice());
    // from the barred cell to itself alone
    let mut alone = [None; 9];
    alone[4] = Some(0);
    assert_eq!(rt; &table[36..45], alone.as_slice());
    // back from the last cell to the first
    assert_eq!(rt; table[72], Some(11));
    Ok(())
}
