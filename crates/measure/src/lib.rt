//! Measures of length: what a way is measured in, with the laws that every theorem about ways rests on.
#![tactic(auto)]

ghost use Rattle.std.specs.Prelude.{◌≡◌};
ghost use Rattle.measure.specs.Laws.{OrderedMonoid, RowEncoding};

pub mod fares;
pub mod fares_row;
pub mod rise;
pub mod seconds;

/// A measure: lengths with a zero, a join and a comparison, and how a length stands in a plain table row.
///
/// The zero, the comparison and the ways to a row and back stand here, and not as `Default`, `Ord` and `From`: the laws speak of zero and comparison together with the join, and of both ways together.
pub trait Measure: Copy {
    /// What a table holds in place of a length.
    type Row: Copy;

    /// The operations with all their laws.
    ghost laws: { OrderedMonoid Self };

    /// The way to a row and back.
    ghost encoding: { RowEncoding Self Self.Row };

    /// The length of the empty way.
    fn zero() -> Self
        ensures { result ≡ laws.zero };

    /// The length of a way of this length followed by one of the other.
    fn join(self, other: Self) -> Self
        ensures { result ≡ laws.join self other };

    /// Whether this length is at most the other.
    fn at_most(self, other: Self) -> bool
        ensures { result ≡ laws.at_most self other };

    /// The length that stands in a row.
    fn read(row: Self::Row) -> Self
        ensures { result ≡ encoding.reads row };

    /// The row in which this length stands.
    fn write(self) -> Self::Row
        ensures { result ≡ encoding.writes self };
}
