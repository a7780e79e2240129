//! Seconds: 0 to 4,294,967,295.
ghost use Rattle.std.specs.Prelude.{◌≡◌, ◌^◌, ◌<◌};

pub mod measured;

/// A length in seconds. `Rise` is a type of its own: it has another width and another join, and the method that reads it is named for its unit.
#[derive(Clone, Copy, PartialEq, Eq, PartialOrd, Ord, Debug)]
pub struct Seconds {
    count: u32,
    ghost fits: { count < 2 ^ 32 },
}

impl Seconds {
    /// So many seconds.
    pub fn new(count: u32) -> Seconds
        ensures { result.count ≡ count }
    {
        Seconds { count }
    }

    /// How many seconds.
    pub fn count(self) -> u32
        ensures { result ≡ self.count }
    {
        self.count
    }
}
