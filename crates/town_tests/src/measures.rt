//! The edges of each measure.
use measure::Measure;
use measure::fares::Fares;
use measure::fares_row::FaresRow;
use measure::rise::Rise;
use measure::seconds::Seconds;

/// The fare of so many zones and seconds.
fn fare(zones: u16, seconds: u32) -> Fares {
    Fares::new(zones, Seconds::new(seconds))
}

#[test]
fn seconds_are_added_up_to_the_largest(rt: HostRuntime) {
    let most = 4294967295;
    for (a, b, sum) in [
        (0, 0, 0),
        (1, 2, 3),
        (most, 0, most),
        (most - 1, 1, most),
        (most, most, most),
    ] {
        assert_eq!(rt; Seconds::new(a).join(Seconds::new(b)).write(), sum);
    }
    assert_eq!(rt; <Seconds as Measure>::zero().write(), 0);
    assert!(rt; Seconds::new(7).at_most(Seconds::new(7)));
    assert!(rt; !Seconds::new(8).at_most(Seconds::new(7)));
}

#[test]
fn the_larger_rise_counts(rt: HostRuntime) {
    for (a, b, larger) in [(0, 0, 0), (3, 2, 3), (2, 3, 3), (65535, 65535, 65535)] {
        assert_eq!(rt; Rise::new(a).join(Rise::new(b)).write(), larger);
    }
    assert!(rt; Rise::new(0).at_most(Rise::new(65535)));
    assert!(rt; !Rise::new(1).at_most(Rise::new(0)));
}

#[test]
fn fares_go_by_zones_first(rt: HostRuntime) {
    let most = 4294967295;
    for (a, b, zones, seconds) in [
        (fare(1, 5), fare(2, 6), 3, 11),
        (fare(65535, 5), fare(0, 1), 65535, 6),
        (fare(65534, most), fare(1, 1), 65535, most),
        (fare(65535, 5), fare(1, 0), 65535, most),
    ] {
        assert_eq!(rt; a.join(b).write(), FaresRow { zones, seconds });
    }
    assert!(rt; fare(1, most).at_most(fare(2, 0)));
    assert!(rt; !fare(2, 0).at_most(fare(1, most)));
    assert!(rt; fare(2, 3).at_most(fare(2, 3)));
    assert!(rt; !fare(2, 4).at_most(fare(2, 3)));
    let row = FaresRow {
        zones: 9,
        seconds: 8,
    };
    assert_eq!(rt; Fares::read(row).write(), row);
}
