//! Files with faults, each with the refusal due.
use crate::town_of_five::town;
use fault::file::FileFault;
use measure::Measure;
use measure::fares::Fares;
use measure::rise::Rise;
use measure::seconds::Seconds;
use std::alloc::Global;
use std::process::Abort;
use std::test::Fail;
use town::room::Room;
use town::rows::Rows;
use town_record::file_measure::FileMeasure;

/// The fault of a file, if it has one, with room for so many places and arcs.
fn fault_of<M: FileMeasure>(
    rt: &impl Abort,
    heap: Global,
    file: &[u8],
    places: usize,
    arcs: usize,
) -> Result<Option<FileFault>, Fail> {
    let room: Room<M> = Room::reserve(heap, places, arcs)?;
    match Rows::read(file, room) {
        Ok(_) => Ok(None),
        Err(rejection) => {
            assert_eq!(rt; rejection.room.places(), places);
            assert_eq!(rt; rejection.room.arcs(), arcs);
            Ok(Some(rejection.fault))
        }
    }
}

/// Each change of one byte of the town of five gives this fault, or none.
fn check_changes(
    rt: &impl Abort,
    heap: Global,
    changes: &[(usize, u8, Option<FileFault>)],
) -> Result<(), Fail> {
    for &(at, byte, due) in changes {
        let mut file = town();
        assert!(rt; at < 192);
        file[at] = byte;
        assert_eq!(rt; fault_of::<Seconds>(rt, heap, &file, 5, 7)?, due);
    }
    Ok(())
}

#[test]
fn bad_bytes(rt: HostRuntime) -> Result<(), Fail> {
    check_changes(
        &rt,
        rt.alloc(),
        &[
            (0, b'Q', Some(FileFault::BadByte(0))),
            (64, 0, Some(FileFault::BadByte(4))),
            (176, b'a', Some(FileFault::BadByte(11))),
            (1, 1, Some(FileFault::BadByte(0))),
            (34, 7, Some(FileFault::BadByte(2))),
            (67, 255, Some(FileFault::BadByte(4))),
            (8, 0x20, Some(FileFault::BadByte(0))),
            (15, 0x1f, Some(FileFault::BadByte(0))),
            (73, 0x7f, Some(FileFault::BadByte(4))),
            (81, 1, Some(FileFault::BadByte(5))),
            (134, 1, Some(FileFault::BadByte(8))),
            (183, 1, Some(FileFault::BadByte(11))),
            (88, 1, Some(FileFault::BadByte(5))),
            (187, 1, Some(FileFault::BadByte(11))),
        ],
    )
}

#[test]
fn bad_values_and_order(rt: HostRuntime) -> Result<(), Fail> {
    check_changes(
        &rt,
        rt.alloc(),
        &[
            // the rank of PARK becomes 0
            (36, 0, Some(FileFault::BadValue(2))),
            (83, 5, Some(FileFault::BadValue(5))),
            (181, 5, Some(FileFault::BadValue(11))),
            (180, 1, Some(FileFault::BadValue(11))),
            // the to-place falls
            (133, 0, Some(FileFault::OutOfOrder(8))),
            (181, 2, Some(FileFault::OutOfOrder(11))),
        ],
    )
}

#[test]
fn other_bytes_are_fine(rt: HostRuntime) -> Result<(), Fail> {
    check_changes(
        &rt,
        rt.alloc(),
        &[
            (10, 0x20, None),
            (15, 0x7e, None),
            (12, 0x21, None),
            (83, 4, None),
            (92, 255, None),
            (181, 4, None),
            (7, 1, None),
        ],
    )
}

#[test]
fn the_first_faulty_record_decides(rt: HostRuntime) -> Result<(), Fail> {
    let heap = rt.alloc();
    // two faults in one record: the lower number
    let mut file = town();
    file[36] = 0;
    file[33] = 1;
    assert_eq!(rt;
        fault_of::<Seconds>(&rt, heap, &file, 5, 7)?,
        Some(FileFault::BadByte(2))
    );
    // a fault before a short rest
    assert_eq!(rt;
        fault_of::<Seconds>(&rt, heap, &file[0..191], 5, 7)?,
        Some(FileFault::BadByte(2))
    );
    let town = town();
    for (length, due) in [
        (191, Some(FileFault::PartialRecord(11))),
        (177, Some(FileFault::PartialRecord(11))),
        (176, None),
        (80, None),
        (16, None),
        (15, Some(FileFault::PartialRecord(0))),
        (1, Some(FileFault::PartialRecord(0))),
        (0, Some(FileFault::OutOfRoom(0))),
    ] {
        assert_eq!(rt;
            fault_of::<Seconds>(&rt, heap, &town[0..length], 5, 7)?,
            due
        );
    }
    // arcs only: no place is listed yet
    assert_eq!(rt;
        fault_of::<Seconds>(&rt, heap, &town[80..192], 5, 7)?,
        Some(FileFault::BadValue(0))
    );
    Ok(())
}

/// The town of five with one more record.
fn longer(heap: Global, record: &[u8]) -> Result<Vec<u8>, Fail> {
    let mut file = Vec::new(heap);
    file.extend_from_slice(&town())?;
    file.extend_from_slice(record)?;
    Ok(file)
}

#[test]
fn places_after_arcs(rt: HostRuntime) -> Result<(), Fail> {
    let heap = rt.alloc();
    let file = longer(heap, b"P\0\0\0\0\0\0\x01LAST    ")?;
    assert_eq!(rt;
        fault_of::<Seconds>(&rt, heap, &file, 6, 7)?,
        Some(FileFault::OutOfOrder(12))
    );
    // order goes before room
    assert_eq!(rt;
        fault_of::<Seconds>(&rt, heap, &file, 5, 7)?,
        Some(FileFault::OutOfOrder(12))
    );
    // a rank 0 goes before order
    let file = longer(heap, b"P\0\0\0\0\0\0\0LAST    ")?;
    assert_eq!(rt;
        fault_of::<Seconds>(&rt, heap, &file, 6, 7)?,
        Some(FileFault::BadValue(12))
    );
    Ok(())
}

#[test]
fn lengths_of_other_measures(rt: HostRuntime) -> Result<(), Fail> {
    let heap = rt.alloc();
    let mut file = *b"P\0\0\0\0\0\0\x01A       A\0\0\0\0\0\0\0\0\0\xFF\xFF\0\0\0\x05";
    assert_eq!(rt; fault_of::<Fares>(&rt, heap, &file, 1, 1)?, None);
    assert_eq!(rt;
        fault_of::<Seconds>(&rt, heap, &file, 1, 1)?,
        Some(FileFault::BadByte(1))
    );
    // 65,536 zones
    file[25] = 1;
    file[26] = 0;
    file[27] = 0;
    assert_eq!(rt;
        fault_of::<Fares>(&rt, heap, &file, 1, 1)?,
        Some(FileFault::BadValue(1))
    );
    file[25] = 0;
    assert_eq!(rt; fault_of::<Seconds>(&rt, heap, &file, 1, 1)?, None);
    assert_eq!(rt; fault_of::<Rise>(&rt, heap, &file, 1, 1)?, None);
    file[29] = 1;
    assert_eq!(rt;
        fault_of::<Rise>(&rt, heap, &file, 1, 1)?,
        Some(FileFault::BadByte(1))
    );
    Ok(())
}

#[test]
fn refusals_are_printed(rt: HostRuntime) -> Result<(), Fail> {
    assert_eq!(rt;
        format!(in rt.alloc(); "{}", FileFault::OutOfOrder(12))?.as_str(),
        "4 file 12"
    );
    assert_eq!(rt;
        format!(in rt.alloc(); "{}", FileFault::PartialRecord(0))?.as_str(),
        "1 file 0"
    );
    Ok(())
}
