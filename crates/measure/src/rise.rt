//! Rise: the highest kerb met, 0 to 65,535 millimetres.
ghost use Rattle.std.specs.Prelude.{◌≡◌, ◌^◌, ◌<◌};

pub mod measured;

/// The height of the highest kerb on a way.
#[derive(Clone, Copy, PartialEq, Eq, PartialOrd, Ord, Debug)]
pub struct Rise {
    millimetres: u16,
    ghost fits: { millimetres < 2 ^ 16 },
}

impl Rise {
    /// A rise of so many millimetres.
    pub fn new(millimetres: u16) -> Rise
        ensures { result.millimetres ≡ millimetres }
    {
        Rise { millimetres }
    }

    /// How many millimetres.
    pub fn millimetres(self) -> u16
        ensures { result ≡ self.millimetres }
    {
        self.millimetres
    }
}
