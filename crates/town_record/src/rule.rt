//! The rules that a record can break.

pub mod tell;

/// A rule of town files, in the order of the refusals' numbers.
// No `FileFault`, though its cases have the same names: a rule is broken by one record, which does not know its number in the file.
#[derive(Clone, Copy, PartialEq, Eq, Debug)]
pub enum Rule {
    /// A record is whole.
    PartialRecord,
    /// Letter and name bytes are good, unused bytes zero.
    BadByte,
    /// Ranks are not 0, places are listed before they are named, lengths are those of the measure.
    BadValue,
    /// Places stand before arcs, and to-places never fall.
    OutOfOrder,
    /// There are no more places and arcs than allowed.
    OutOfRoom,
}
