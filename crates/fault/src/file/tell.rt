//! What a file fault tells.
ghost use Rattle.std.specs.Prelude.{◌≡◌, Some};
ghost use Rattle.fault.specs.Refusals.{file_refusal, refusal_text};

use super::FileFault;
use crate::refusal::{Layer, Refusal};
use std::fmt;

/// The refusal that tells a file fault.
impl From<FileFault> for Refusal {
    ghost from_gives = { λ fault r. r ≡ file_refusal fault };

    fn from(value: FileFault) -> Refusal {
        let (number, at) = match value {
            FileFault::PartialRecord(whole) => (1, whole),
            FileFault::BadByte(record) => (2, record),
            FileFault::BadValue(record) => (3, record),
            FileFault::OutOfOrder(record) => (4, record),
            FileFault::OutOfRoom(record) => (5, record),
        };
        Refusal {
            number,
            layer: Layer::File,
            at: at as u64,
        }
    }
}

// By hand in each fault: a derived Display promises nothing of the text, and no impl can cover all faults at once.
impl fmt::Display for FileFault {
    ghost output = { λ f. Some (refusal_text (file_refusal f)) };

    fn fmt<W: fmt::Write>(&self, f: &mut fmt::Formatter<W>) -> fmt::Result {
        write!(f, "{}", Refusal::from(*self))
    }
}
