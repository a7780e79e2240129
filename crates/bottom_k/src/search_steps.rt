//! The steps of a search: a function for each theorem, whose contract is the theorem.
ghost use Rattle.bottom_k.specs.StepTheorems.{SearchBegins, SearchTurnsBack, SearchSettles, SearchAdvances, SearchFollows, FollowingSettlesNone, SearchGoesOn, SearchEnds};

/// A search begins with its place waiting at zero.
pub fn search_begins<L>()
    ensures { SearchBegins L }
{}

/// A waiting place of least length settles and turns the search back.
pub fn search_turns_back<L>()
    ensures { SearchTurnsBack L }
{}

/// A waiting place of least length settles, to be noted.
pub fn search_settles<L>()
    ensures { SearchSettles L }
{}

/// Each place that settles leaves fewer unsettled, so a search ends.
#[tactic(auto, using(crate::proofs::Marks::unsettled_fewer))]
pub fn search_advances<L>()
    ensures { SearchAdvances L }
{}

/// One more arriving arc is followed.
pub fn search_follows<L>()
    ensures { SearchFollows L }
{}

/// Following an arc settles no place and notes nothing.
#[tactic(auto, using(crate::proofs::Marks::unsettled_relaxed, crate::proofs::Marks::noted_kept))]
pub fn following_settles_none<L>()
    ensures { FollowingSettlesNone L }
{}

/// When all arriving arcs are followed, the next place may settle.
pub fn search_goes_on<L>()
    ensures { SearchGoesOn L }
{}

/// When no place waits, the search is finished.
pub fn search_ends<L>()
    ensures { SearchEnds L }
{}
