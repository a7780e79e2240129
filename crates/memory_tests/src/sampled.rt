//! Samples of the town of five: which places are written, how many they stand for, and every refusal.
use crate::memory::{Change, TestMemory, town};
use bottom_k::figure::Figure;
use fault::atlas::AtlasFault;
use fault::memory_test::MemoryTest;
use measure::seconds::Seconds;
use sample::sample;
use sample::told::Sample;
use std::process::Abort;

/// What a place that no call has written holds.
const UNWRITTEN: u16 = 777;

/// The sample of a place within a limit is these places, with this figure, and the rest of a longer buffer is unchanged.
fn check_sample(rt: &impl Abort, (k, start, limit): (u32, u32, u32), due: &[u16], figure: Figure) {
    let mut places = [UNWRITTEN; 8];
    let told = sample(town().memory(), k, start, Seconds::new(limit), &mut places);
    let count = due.len();
    assert_eq!(rt; told, Ok(Sample { count, figure }));
    for (i, place) in places.iter().enumerate() {
        let due_place = due.get(i).copied().unwrap_or(UNWRITTEN);
        assert_eq!(rt; *place, due_place);
    }
}

/// A sample of k places from a start into a buffer of this length is refused so, and nothing is written.
fn check_refusal(
    rt: &impl Abort,
    memory: &TestMemory,
    (k, start, room): (u32, u32, usize),
    due: AtlasFault,
) {
    let mut places = [UNWRITTEN; 8];
    let limit = Seconds::new(300);
    let told = sample(memory.memory(), k, start, limit, &mut places[..room.min(8)]);
    assert_eq!(rt; told, Err(due));
    for place in &places {
        assert_eq!(rt; *place, UNWRITTEN);
    }
}

#[test]
fn sampled(rt: HostRuntime) {
    // place 0 notes 1 at 100, 3 at 300 and itself at 0, by rank
    check_sample(&rt, (2, 0, 299), &[1, 0], Figure::Estimated(1));
    check_sample(&rt, (2, 0, 300), &[1, 3], Figure::Estimated(4));
    check_sample(&rt, (2, 0, 99), &[0], Figure::Exact(1));
    // it notes three places in all, fewer than 8: they are counted exactly
    check_sample(&rt, (8, 0, 300), &[1, 3, 0], Figure::Exact(3));
    // with k of 0 nothing is sampled, and no rank divides
    check_sample(&rt, (0, 0, 300), &[], Figure::Estimated(0));
}

#[test]
fn refused(rt: HostRuntime) {
    let town = town();
    for start in [5, 6, 65_536, 4_294_967_295] {
        check_refusal(&rt, &town, (2, start, 8), AtlasFault::NoSuchPlace(start));
    }
    check_refusal(&rt, &town, (2, 0, 1), AtlasFault::TooShort(2));
    check_refusal(&rt, &town, (9, 0, 8), AtlasFault::TooShort(9));
    for (change, test) in [
        (Change::Rank(0, 0), MemoryTest::Order),
        (Change::Last(0, 3), MemoryTest::Links),
        (Change::Noted(13, 5), MemoryTest::Positions),
        (Change::Used(13), MemoryTest::Counts),
    ] {
        let damaged = town.with(&[change]);
        check_refusal(&rt, &damaged, (2, 0, 8), AtlasFault::TestFailed(test));
    }
}

#[test]
fn first_cause_is_told(rt: HostRuntime) {
    // a test that fails, no such place and a short buffer: each is told before the next
    let damaged = town().with(&[Change::Used(13)]);
    let counts = AtlasFault::TestFailed(MemoryTest::Counts);
    check_refusal(&rt, &damaged, (2, 5, 1), counts);
    check_refusal(&rt, &damaged, (2, 5, 8), counts);
    check_refusal(&rt, &damaged, (2, 0, 1), counts);
    check_refusal(&rt, &town(), (2, 5, 1), AtlasFault::NoSuchPlace(5));
}
