//! Question lines, read and refused.
use fault::atlas::AtlasFault;
use fault::file::FileFault;
use fault::line::LineFault;
use question::form::Question;
use question::form::read::read;
use question::places::Places;
use question::told::ToldRefusal;
use std::process::Abort;
use std::test::Fail;

/// Each of these lines is refused with so many bytes that it shares with an allowed line.
fn check_refused(rt: &impl Abort, table: &[(&[u8], usize)]) {
    for &(line, shared) in table {
        assert_eq!(rt; read(line), Err(LineFault::NoForm(shared)));
    }
}

#[test]
fn one_number_refused(rt: HostRuntime) {
    let table: [(&[u8], usize); 27] = [
        (b"", 0),
        (b"k 2", 0),
        (b" K 2", 0),
        (b"\xffK 2", 0),
        (b"\0", 0),
        (b"\r", 0),
        (b"K", 1),
        (b"K2", 1),
        (b"K\t2", 1),
        (b"K ", 2),
        (b"K  2", 2),
        (b"K -2", 2),
        (b"K +2", 2),
        (b"K \x80", 2),
        (b"K \0", 2),
        (b"K 02", 3),
        (b"K 00", 3),
        (b"K 2 ", 3),
        (b"K 2 3", 3),
        (b"K 2\r", 3),
        (b"K 2\t", 3),
        (b"K 2\0", 3),
        (b"K 2a", 3),
        (b"N 4294967296", 11),
        (b"N 42949672950", 12),
        (b"N 9999999999", 11),
        (b"B 1 1", 3),
    ];
    check_refused(&rt, &table);
}

#[test]
fn more_numbers_refused(rt: HostRuntime) {
    let table: [(&[u8], usize); 26] = [
        (b"S", 1),
        (b"S ", 2),
        (b"S  0 1", 2),
        (b"S 0", 3),
        (b"S 0 ", 4),
        (b"S 0  1", 4),
        (b"S 0 1 ", 5),
        (b"S 0 1 2", 5),
        (b"S 0 01", 5),
        (b"S 4294967296 1", 11),
        (b"U", 1),
        (b"U 5", 3),
        (b"U 5 ", 4),
        (b"U 5 x", 4),
        (b"U 5 1 ", 6),
        (b"U 5 1  2", 6),
        (b"U 50 2 3x", 8),
        (b"U 50 2 00", 8),
        (
            b"U 0 0 0 0 0 0 0 0 0 0 0 0 0 0 0 0 0 0 0 0 0 0 0 0 0 0 0 0 0 0 0 0 0 0 0 0 0 0 0 ",
            79,
        ),
        (
            b"U 4294967295 0 0 0 0 0 0 0 0 0 0 0 0 0 0 0 0 0 0 0 0 0 0 0 0 0 0 0 0 0 0 0 0 10 ",
            79,
        ),
        (
            b"U 10 0 0 0 0 0 0 0 0 0 0 0 0 0 0 0 0 0 0 0 0 0 0 0 0 0 0 0 0 0 0 0 0 0 0 0 0 0 ",
            79,
        ),
        (
            b"U 10 0 0 0 0 0 0 0 0 0 0 0 0 0 0 0 0 0 0 0 0 0 0 0 0 0 0 0 0 0 0 0 0 0 0 0 0 0 x",
            79,
        ),
        (
            b"U 10 0 0 0 0 0 0 0 0 0 0 0 0 0 0 0 0 0 0 0 0 0 0 0 0 0 0 0 0 0 0 0 0 0 0 0 0 0 00",
            80,
        ),
        (
            b"U 10 0 0 0 0 0 0 0 0 0 0 0 0 0 0 0 0 0 0 0 0 0 0 0 0 0 0 0 0 0 0 0 0 0 0 0 0 0 0 ",
            80,
        ),
        (
            b"K                                                                                ",
            80,
        ),
        (
            b"U 10 0 0 0 0 0 0 0 0 0 0 0 0 0 0 0 0 0 0 0 0 0 0 0 0 0 0 0 0 0 0 0 0 0 0 0 0 0 01",
            80,
        ),
    ];
    check_refused(&rt, &table);
}

#[test]
fn allowed_lines(rt: HostRuntime) {
    let table: [(&[u8], Question); 5] = [
        (b"K 0", Question::Found(0)),
        (b"K 4294967295", Question::Found(4_294_967_295)),
        (b"N 10", Question::Sweep(10)),
        (b"B 7", Question::TakeBack(7)),
        (
            b"S 3 350",
            Question::Sample {
                place: 3,
                limit: 350,
            },
        ),
    ];
    for (line, question) in table {
        assert_eq!(rt; read(line), Ok(question));
    }
}

/// The limit and the places of a line that asks for a joint sample.
fn joint(line: &[u8]) -> Option<(u32, Places)> {
    match read(line) {
        Ok(Question::JointSample { limit, places }) => Some((limit, places)),
        _ => None,
    }
}

#[test]
fn places_of_a_line(rt: HostRuntime) -> Result<(), Fail> {
    let (limit, places) = joint(b"U 50 2 3").ok_or("refused")?;
    assert_eq!(rt; limit, 50);
    assert_eq!(rt; places.as_slice(), [2, 3].as_slice());
    Ok(())
}

#[test]
fn most_places(rt: HostRuntime) -> Result<(), Fail> {
    let line = b"U 10 0 0 0 0 0 0 0 0 0 0 0 0 0 0 0 0 0 0 0 0 0 0 0 0 0 0 0 0 0 0 0 0 0 0 0 0 0 0";
    let (limit, places) = joint(line).ok_or("refused")?;
    assert_eq!(rt; limit, 10);
    assert_eq!(rt; places.as_slice().len(), 38);
    Ok(())
}

#[test]
fn written_back(rt: HostRuntime) -> Result<(), Fail> {
    let table: [&str; 4] = ["K 64", "S 0 4294967295", "U 0 0", "U 300 1 20 4095"];
    for line in table {
        let question = read(line.as_bytes())?;
        assert_eq!(rt; question.to_string(rt.alloc())?.as_str(), line);
    }
    Ok(())
}

#[test]
fn told(rt: HostRuntime) -> Result<(), Fail> {
    let of_atlas = ToldRefusal {
        refusal: LineFault::from(AtlasFault::KOutOfBounds(65)).into(),
        line: 7,
    };
    assert_eq!(rt;
        of_atlas.to_string(rt.alloc())?.as_str(),
        "! 6 atlas 65 at line 7"
    );
    let of_line = ToldRefusal {
        refusal: LineFault::NoForm(3).into(),
        line: 12,
    };
    assert_eq!(rt;
        of_line.to_string(rt.alloc())?.as_str(),
        "! 12 line 3 at line 12"
    );
    let of_file = ToldRefusal {
        refusal: FileFault::OutOfRoom(0).into(),
        line: 0,
    };
    assert_eq!(rt;
        of_file.to_string(rt.alloc())?.as_str(),
        "! 5 file 0 at line 0"
    );
    Ok(())
}
