//! What linked cells mean: a function for each theorem, whose contract is the theorem.
ghost use Rattle.tables.specs.MatchingWalks.{LinkedAreMatching};

/// A sketch is linked exactly if its walk forward matches its walk back, its ends, its owner and its number of entries.
pub fn linked_are_matching<R>()
    ensures { LinkedAreMatching R }
{}
