//! The figure of a sample: how many places it stands for.

/// How many places a sample stands for.
#[derive(Clone, Copy, PartialEq, Eq, Debug)]
pub enum Figure {
    /// Fewer than k were sampled: as many as there are.
    Exact(u64),
    /// k were sampled: an estimate by the rank of the last.
    Estimated(u64),
}
