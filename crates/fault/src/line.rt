//! What can be wrong with a question line.
use crate::atlas::AtlasFault;

pub mod tell;

/// Why a question line is refused.
#[derive(Clone, Copy, PartialEq, Eq, Debug)]
pub enum LineFault {
    /// The line fits no form: it shares at most so many leading bytes with one that does. A line that comes before an atlas is founded has 0 here.
    NoForm(usize),
    /// The atlas refuses what the line asks for.
    Atlas(AtlasFault),
}
