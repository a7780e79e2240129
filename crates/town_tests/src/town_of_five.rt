//! The town of five: its bytes, and what they are read as.
use fault::atlas::AtlasFault;
use graph::map::Map;
use measure::Measure;
use measure::seconds::Seconds;
use std::alloc::Global;
use std::test::Fail;
use town::room::Room;
use town::rows::Rows;

/// Places MILL, QUAY, PARK, FORD and FARM, and seven arcs, in seconds.
pub(crate) fn town() -> [u8; 192] {
    *b"P\0\0\0\xB2\xD0\x5E\x00MILL    \
P\0\0\0\x3B\x9A\xCA\x00QUAY    \
P\0\0\0\x80\x00\x00\x00PARK    \
P\0\0\0\x3B\x9A\xCA\x00FORD    \
P\0\0\0\xEE\x6B\x28\x00FARM    \
A\0\0\x01\0\x00\0\0\0\0\0\0\0\0\0\x64\
A\0\0\x04\0\x00\0\0\0\0\0\0\0\0\0\x0A\
A\0\0\x00\0\x01\0\0\0\0\0\0\0\0\0\x64\
A\0\0\x03\0\x02\0\0\0\0\0\0\0\0\0\x32\
A\0\0\x00\0\x02\0\0\0\0\0\0\0\0\x01\x5E\
A\0\0\x01\0\x03\0\0\0\0\0\0\0\0\0\xC8\
A\0\0\x02\0\x03\0\0\0\0\0\0\0\0\0\x32"
}

/// The rows of the town of five.
fn rows(heap: Global) -> Result<Rows<Seconds>, Fail> {
    Rows::read(&town(), Room::reserve(heap, 5, 7)?).map_err(|_| Fail::new("refused"))
}

#[test]
fn places_have_their_ranks_and_names(rt: HostRuntime) -> Result<(), Fail> {
    let rows = rows(rt.alloc())?;
    assert_eq!(rt; rows.places(), 5);
    assert_eq!(rt; rows.arcs(), 7);
    assert_eq!(rt;
        rows.ranks(),
        [
            3000000000u32,
            1000000000,
            2147483648,
            1000000000,
            4000000000
        ]
        .as_slice()
    );
    let names: [&[u8]; 5] = [b"MILL", b"QUAY", b"PARK", b"FORD", b"FARM"];
    for (name, due) in rows.names().iter().zip(&names) {
        assert_eq!(rt; name.trimmed(), *due);
    }
    Ok(())
}

#[test]
fn arcs_arrive_in_order(rt: HostRuntime) -> Result<(), Fail> {
    let rows = rows(rt.alloc())?;
    for (place, count) in [(0, 2), (1, 1), (2, 2), (3, 2), (4, 0), (5, 0), (4096, 0)] {
        assert_eq!(rt; rows.arrivals(place), count);
        assert!(rt; rows.arrival(place, count).is_none());
    }
    for (place, i, from, seconds) in [
        (0, 0, 1, 100),
        (0, 1, 4, 10),
        (1, 0, 0, 100),
        (2, 0, 3, 50),
        (2, 1, 0, 350),
        (3, 0, 1, 200),
        (3, 1, 2, 50),
    ] {
        let arc = rows.arrival(place, i).ok_or("no arc")?;
        assert_eq!(rt; (arc.from, arc.length.count()), (from, seconds));
    }
    Ok(())
}

#[test]
fn written_back_over_the_front(rt: HostRuntime) -> Result<(), Fail> {
    let rows = rows(rt.alloc())?;
    let file = town();
    let mut out = [7u8; 200];
    assert_eq!(rt; rows.write(&mut out)?, 192);
    assert_eq!(rt; &out[0..192], &file[0..192]);
    assert_eq!(rt; &out[192..200], [7u8; 8].as_slice());
    let mut short = [7u8; 191];
    assert_eq!(rt; rows.write(&mut short), Err(AtlasFault::TooShort(192)));
    assert_eq!(rt; &short[0..191], [7u8; 191].as_slice());
    Ok(())
}
