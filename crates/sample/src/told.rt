//! What a sample tells, beside the places that it writes.
ghost use Rattle.std.specs.Prelude.{◌≡◌};
ghost use Rattle.bottom_k.specs.Figures.{figure_of};

use bottom_k::estimate;
use bottom_k::figure::Figure;

/// How many places were sampled, and how many places they stand for.
#[derive(Clone, Copy, PartialEq, Eq, Debug)]
pub struct Sample {
    pub count: usize,
    pub figure: Figure,
}

impl Sample {
    /// What a sample of so many places tells, the last of which has the rank given.
    pub(crate) fn new(k: u32, count: usize, last_rank: u32) -> Sample
        ensures count { result.count ≡ count }
        ensures figure { result.figure ≡ figure_of k count last_rank }
    {
        Sample {
            count,
            figure: estimate::figure(k, count, last_rank),
        }
    }
}
