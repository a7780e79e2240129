//! What can be wrong with a town file.

pub mod tell;

/// Why a town file is refused. Each case names a record, counted from 0.
#[derive(Clone, Copy, PartialEq, Eq, Debug)]
pub enum FileFault {
    /// The file's length is no multiple of 16: so many records are whole.
    PartialRecord(usize),
    /// A bad letter, name byte or unused byte.
    BadByte(usize),
    /// A rank 0, a place not yet listed, or zones over their limit.
    BadValue(usize),
    /// A place after an arc, or a to-place below an earlier one.
    OutOfOrder(usize),
    /// No place at all, or more places or arcs than allowed.
    OutOfRoom(usize),
}
