//! An arc of a map, as the place where it arrives knows it.

/// An arc: the place it comes from, and how long it is.
#[derive(Clone, Copy, PartialEq, Eq, Debug)]
pub struct Arc<L> {
    pub from: u16,
    pub length: L,
}
