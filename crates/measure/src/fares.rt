//! Fares: zones, 0 to 65,535, and seconds.
ghost use Rattle.std.specs.Prelude.{◌≡◌, ◌^◌, ◌<◌};

use crate::seconds::Seconds;

pub mod measured;

/// A fare: the zones paid for, and the time taken. The order of the fields is that of the comparison: zones first.
#[derive(Clone, Copy, PartialEq, Eq, PartialOrd, Ord, Debug)]
pub struct Fares {
    zones: u16,
    seconds: Seconds,
    ghost fits: { zones < 2 ^ 16 },
}

impl Fares {
    /// So many zones, and seconds.
    pub fn new(zones: u16, seconds: Seconds) -> Fares
        ensures zones { result.zones ≡ zones }
        ensures seconds { result.seconds ≡ seconds }
    {
        Fares { zones, seconds }
    }

    /// How many zones.
    pub fn zones(self) -> u16
        ensures { result ≡ self.zones }
    {
        self.zones
    }

    /// The time taken.
    pub fn seconds(self) -> Seconds
        ensures { result ≡ self.seconds }
    {
        self.seconds
    }
}
