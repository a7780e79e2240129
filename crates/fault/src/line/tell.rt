//! What a line fault tells.
ghost use Rattle.std.specs.Prelude.{◌≡◌, Some};
ghost use Rattle.fault.specs.declared.line.LineFault.TheVariants.{Atlas};
ghost use Rattle.fault.specs.Refusals.{atlas_refusal, line_refusal, refusal_text};

use super::LineFault;
use crate::atlas::AtlasFault;
use crate::refusal::{Layer, Refusal};
use std::fmt;

/// The refusal that tells a line fault; an atlas fault tells its own.
impl From<LineFault> for Refusal {
    ghost from_gives = { λ fault r. r ≡ line_refusal fault };

    fn from(value: LineFault) -> Refusal {
        match value {
            LineFault::NoForm(shared) => Refusal {
                number: 12,
                layer: Layer::Line,
                at: shared as u64,
            },
            LineFault::Atlas(fault) => Refusal::from(fault),
        }
    }
}

/// A line carries the atlas's fault whole: number, layer and where stay.
impl From<AtlasFault> for LineFault {
    ghost from_gives = { λ fault r. (r ≡ Atlas fault) × (line_refusal r ≡ atlas_refusal fault) };

    fn from(value: AtlasFault) -> LineFault {
        LineFault::Atlas(value)
    }
}

// By hand in each fault: a derived Display promises nothing of the text, and no impl can cover all faults at once.
impl fmt::Display for LineFault {
    ghost output = { λ f. Some (refusal_text (line_refusal f)) };

    fn fmt<W: fmt::Write>(&self, f: &mut fmt::Formatter<W>) -> fmt::Result {
        write!(f, "{}", Refusal::from(*self))
    }
}
