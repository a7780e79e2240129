//! An arc as a record lists it.

/// An arc: from-place, to-place and length.
#[derive(Clone, Copy, PartialEq, Eq, Debug)]
pub struct ArcRow<L> {
    pub from: u16,
    pub to: u16,
    pub length: L,
}
