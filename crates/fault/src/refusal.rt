//! What a refusal tells, whatever the fault: a number, a layer and where.

pub mod print;

/// The layer of the library that refuses.
#[derive(Clone, Copy, PartialEq, Eq, Debug)]
pub enum Layer {
    /// A town file.
    File,
    /// A call on an atlas or a map.
    Atlas,
    /// A question line.
    Line,
}

/// A refusal as it is told. What went wrong is an `AtlasFault`, a `FileFault` or a `LineFault`; this is what is printed of it.
#[derive(Clone, Copy, PartialEq, Eq, Debug)]
pub struct Refusal {
    /// The number that docs/REFUSALS.md gives the fault. A plain number: several faults share one, and it is printed.
    pub number: u8,
    pub layer: Layer,
    /// Where: a record, a place, a value, a length; docs/REFUSALS.md says which.
    pub at: u64,
}
