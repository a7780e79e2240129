//! The definitions that compute meet the relations: a function for each theorem, whose contract is the theorem.
ghost use Rattle.bottom_k.specs.ComputedTheorems.{LengthsAreComputed, SketchIsComputed, EntriesAreComputed, SampleIsComputed, TurnedBackIsComputed, RankingIsComputed};

/// The computed table of all pairs gives the least lengths.
#[tactic(auto, using(graph::proofs::Computed::least_length_right))]
pub fn lengths_are_computed<L>()
    ensures { LengthsAreComputed L }
{}

/// The due list is the sketch due.
pub fn sketch_is_computed<L>()
    ensures { SketchIsComputed L }
{}

/// The number of entries due, and that it passes a number of cells.
pub fn entries_are_computed<L>()
    ensures { EntriesAreComputed L }
{}

/// The sample list of a group of starts is their joint sample.
#[tactic(auto, using(crate::proofs::DueLists::sample_is_computed))]
pub fn sample_is_computed<L>()
    ensures { SampleIsComputed L }
{}

/// The list of places where a search turns back has just those.
pub fn turned_back_is_computed<L>()
    ensures { TurnedBackIsComputed L }
{}

/// The list of places worked out one by one is in order, and the only one.
#[tactic(auto, using(crate::proofs::PlacesInOrder::ranking_is_computed, crate::proofs::PlacesInOrder::one_ranking))]
pub fn ranking_is_computed()
    ensures { RankingIsComputed }
{}
