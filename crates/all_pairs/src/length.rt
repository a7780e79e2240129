//! Lengths that may be missing.
ghost use Rattle.std.specs.Prelude.{◌≡◌, Some};
ghost use Rattle.graph.specs.LeastLengths.{shorter as shorter_of, in_turn};

use measure::Measure;

/// The shorter of a length that may be missing and another.
pub(crate) fn shorter<L: Measure>(old: Option<L>, new: L) -> L
    ensures { Some result ≡ shorter_of L.Measure.laws old (Some new) }
{
    match old {
        Some(known) if known.at_most(new) => known,
        _ => new,
    }
}

/// The join of two lengths: missing if either is.
pub(crate) fn joined<L: Measure>(first: Option<L>, then: Option<L>) -> Option<L>
    ensures { result ≡ in_turn L.Measure.laws first then }
{
    Some(first?.join(then?))
}
