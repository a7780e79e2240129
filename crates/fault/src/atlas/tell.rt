//! What an atlas fault tells.
ghost use Rattle.std.specs.Prelude.{◌≡◌, Some};
ghost use Rattle.fault.specs.Refusals.{atlas_refusal, refusal_text};

use super::AtlasFault;
use crate::refusal::{Layer, Refusal};
use std::fmt;

/// The refusal that tells an atlas fault.
impl From<AtlasFault> for Refusal {
    ghost from_gives = { λ fault r. r ≡ atlas_refusal fault };

    fn from(value: AtlasFault) -> Refusal {
        let (number, at) = match value {
            AtlasFault::RankZero(place) => (3, u64::from(place)),
            AtlasFault::KOutOfBounds(k) => (6, u64::from(k)),
            AtlasFault::SideOutOfBounds(side) => (6, u64::from(side)),
            AtlasFault::StartsOutOfBounds(starts) => (6, starts as u64),
            AtlasFault::CellsOutOfBounds(cells) => (6, cells as u64),
            AtlasFault::TooShort(needed) => (7, needed as u64),
            AtlasFault::TestFailed(test) => (8, u64::from(test.number())),
            AtlasFault::NoSuchPlace(place) => (9, u64::from(place)),
            AtlasFault::NothingLeft(swept) => (10, u64::from(swept)),
            AtlasFault::CellsRunOut(place) => (11, u64::from(place)),
        };
        Refusal {
            number,
            layer: Layer::Atlas,
            at,
        }
    }
}

// By hand in each fault: a derived Display promises nothing of the text, and no impl can cover all faults at once.
impl fmt::Display for AtlasFault {
    ghost output = { λ f. Some (refusal_text (atlas_refusal f)) };

    fn fmt<W: fmt::Write>(&self, f: &mut fmt::Formatter<W>) -> fmt::Result {
        write!(f, "{}", Refusal::from(*self))
    }
}
