//! Why a call on a heap is refused.

/// Why a call was refused. The heap is then as it was.
#[derive(Clone, Copy, PartialEq, Eq, Debug)]
pub enum HeapRefusal {
    /// The number is at or past 4,096, so it is no place.
    NoSuchPlace,
    /// The place waits already.
    Waiting,
    /// The place does not wait.
    NotWaiting,
    /// The key is above the one that the place waits with.
    HigherKey,
}
