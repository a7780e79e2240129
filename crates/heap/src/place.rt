//! The numbers that places have: below 4,096. A call on a heap makes one of the number that it is given.
ghost use Rattle.std.specs.Prelude.{◌≡◌, ◌<◌, ◌≤◌, MatchOption};

use crate::PLACES;

/// The number of a place. In every one that exists it is below 4,096.
#[derive(Clone, Copy)]
pub(crate) struct Place {
    pub(crate) number: u16,
    ghost known: { number < 4096 },
}

impl Place {
    /// The place with a number: none exactly if the number is at or past 4,096.
    pub(crate) fn new(number: u16) -> Option<Place>
        ensures { MatchOption result (4096 ≤ number) (λ place. place.number ≡ number) }
    {
        // Not `then`: its closure was tried, and asks for a clause of its own, that the number is below 4,096.
        if (number as usize) < PLACES {
            Some(Place { number })
        } else {
            None
        }
    }
}
