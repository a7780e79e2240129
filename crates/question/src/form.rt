//! What a line can ask for.
use crate::places::Places;

pub mod read;
pub mod write;

/// A question. Its letter, then its numbers in the order of the line.
#[derive(Clone, Copy, PartialEq, Eq, Debug)]
pub enum Question {
    /// K k: found an atlas whose sketches keep k places within any limit.
    Found(u32),
    /// N m: sweep m more places.
    Sweep(u32),
    /// B m: take back the m places swept last.
    TakeBack(u32),
    /// S place limit: sample what lies within the limit of the place.
    Sample { place: u32, limit: u32 },
    /// U limit places: sample what lies within the limit of any of the places.
    JointSample { limit: u32, places: Places },
}
