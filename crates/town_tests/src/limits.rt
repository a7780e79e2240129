//! How many places and arcs a file may have.
use crate::town_of_five::town;
use fault::file::FileFault;
use measure::Measure;
use measure::seconds::Seconds;
use std::alloc::Global;
use std::test::Fail;
use town::room::Room;
use town::rows::Rows;
use town_record::before::Limits;

/// A file of so many places, all alike, and arcs from the first to itself.
fn file(heap: Global, places: u32, arcs: u32) -> Result<Vec<u8>, Fail> {
    let town = town();
    let mut bytes = Vec::new(heap);
    for _ in 0..places {
        bytes.extend_from_slice(&town[0..16])?;
    }
    for _ in 0..arcs {
        bytes.extend_from_slice(b"A\0\0\0\0\0\0\0\0\0\0\0\0\0\0\x07")?;
    }
    Ok(bytes)
}

/// The fault of such a file in such room.
// Not the function of files.rt: that one asserts that the room given back is as large as was asked, and here more is asked than a file may have.
fn fault_of(heap: Global, places: u32, arcs: u32, room: Limits) -> Result<Option<FileFault>, Fail> {
    let bytes = file(heap, places, arcs)?;
    let room = Room::<Seconds>::reserve(heap, room.places, room.arcs)?;
    Ok(
        Rows::read(&bytes, room)
            .err()
            .map(|rejection| rejection.fault),
    )
}

#[test]
fn room_reached_and_passed(rt: HostRuntime) -> Result<(), Fail> {
    let heap = rt.alloc();
    let room = Limits { places: 5, arcs: 7 };
    for (places, arcs, due) in [
        (5, 7, None),
        (6, 7, Some(FileFault::OutOfRoom(5))),
        (5, 8, Some(FileFault::OutOfRoom(12))),
    ] {
        assert_eq!(rt; fault_of(heap, places, arcs, room)?, due);
    }
    let none = Limits { places: 0, arcs: 0 };
    assert_eq!(rt; fault_of(heap, 1, 0, none)?, Some(FileFault::OutOfRoom(0)));
    Ok(())
}

#[test]
fn limits_reached_and_passed(rt: HostRuntime) -> Result<(), Fail> {
    let heap = rt.alloc();
    // room above the limits does not lift them
    let room = Limits {
        places: 5000,
        arcs: 20000,
    };
    for (places, arcs, due) in [
        (4096, 0, None),
        (4097, 0, Some(FileFault::OutOfRoom(4096))),
        (1, 16384, None),
        (1, 16385, Some(FileFault::OutOfRoom(16385))),
    ] {
        assert_eq!(rt; fault_of(heap, places, arcs, room)?, due);
    }
    Ok(())
}
