//! Tables of least lengths worked out by hand, proved of the definition that computes them.
ghost use Rattle.graph_tests.specs.Worked.{FiveInSeconds, ThreeInRise, ThreeInFares};

/// The definition gives the tables that were worked out by hand.
pub fn worked_cases()
    ensures seconds { FiveInSeconds }
    ensures rise { ThreeInRise }
    ensures fares { ThreeInFares }
{}
