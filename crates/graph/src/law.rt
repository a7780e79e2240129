//! What is proved of every map and every measure, once and for all: each function's contract is a theorem.
ghost use Rattle.std.specs.Prelude.{◌≡◌};
ghost use Rattle.graph.specs.Alike.{SameAnswers, SameArcs};
ghost use Rattle.graph.specs.Graphs.{Graph};
ghost use Rattle.graph.specs.WayLaws.{WayLaws};

use measure::Measure;

/// The laws of ways and of least lengths, in every map of every measure.
pub fn laws_of_ways<L: Measure>()
    ensures { (g : Graph L) → WayLaws L.Measure.laws g }
{}

/// Maps with the same arcs, or with the same answers, mean the same.
pub fn alike<L>()
    ensures arcs { (g h : Graph L) → SameArcs g h → g ≡ h }
    ensures answers { (g h : Graph L) → SameAnswers g h → g ≡ h }
{}
