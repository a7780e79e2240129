//! Why sketches are right: a function for each theorem, whose contract is the theorem, so that the crate is proved only with it.
ghost use Rattle.bottom_k.specs.Founding.{PositionsArePlaces, SamplesArePlaces};
ghost use Rattle.bottom_k.specs.Theorems.{EmptyIsDue, OneSketchIsDue, OneNumberIsDue, EntriesCountPlaces, FirstKAreNoted, SearchCanFinish, TurningBackIsRight, TurnedBackAreNotDue, NotesCanBeCounted, TakingBackIsRight, TakingBackDropsLast, SampleIsRight, JointSampleIsRight, OneStartIsASample, OneSample, FirstKIsOneList};

/// What is noted by position is what is noted by place: swept, reached, and fewer than k places ranked before it as near or nearer.
pub fn positions_are_places<L>()
    ensures { PositionsArePlaces L }
{}

/// The places at the positions of a joint sample are the k first-ranked of the swept places that some start reaches within the limit.
#[tactic(auto, using(crate::proofs::PositionsAndPlaces::samples_are_places))]
pub fn samples_are_places<L>()
    ensures { SamplesArePlaces L }
{}

/// Before any place is swept, the empty sketch is due to every place.
pub fn empty_is_due<L>()
    ensures { EmptyIsDue L }
{}

/// A sketch is due to every place, and only one.
pub fn one_sketch_is_due<L>()
    ensures { OneSketchIsDue L }
{}

/// One number of entries is due in all.
pub fn one_number_is_due<L>()
    ensures { OneNumberIsDue L }
{}

/// Counting the entries of a sketch within a limit is counting the swept places within it, as far as k.
pub fn entries_count_places<L>()
    ensures { EntriesCountPlaces L }
{}

/// The k first-ranked within a limit are noted.
#[tactic(auto, using(crate::proofs::SampleFacts::first_k_are_noted))]
pub fn first_k_are_noted<L>()
    ensures { FirstKAreNoted L }
{}

/// From every place of the map there is a finished search.
#[tactic(auto, using(crate::proofs::TurningBack::search_can_finish))]
pub fn search_can_finish<L>()
    ensures { SearchCanFinish L }
{}

/// A search that turns back where k or more entries are at most its length notes exactly what is due.
pub fn turning_back_is_right<L>()
    ensures { TurningBackIsRight L }
{}

/// Where a search turns back, the place is not due; and it turns back at every such place with an arc into one that is due.
pub fn turned_back_are_not_due<L>()
    ensures { TurnedBackAreNotDue L }
{}

/// Whether the entries due after a sweep pass the cells is known from the search, before any entry is written.
pub fn notes_can_be_counted<L>()
    ensures { NotesCanBeCounted L }
{}

/// Dropping the entries of the last swept place gives the sketches due with one place fewer swept.
pub fn taking_back_is_right<L>()
    ensures { TakingBackIsRight L }
{}

/// In each sketch that drops the last entry, or none.
pub fn taking_back_drops_last<L>()
    ensures { TakingBackDropsLast L }
{}

/// The first k entries of a sketch within a limit are the sample.
pub fn sample_is_right<L>()
    ensures { SampleIsRight L }
{}

/// Of what the starts note within a limit, the k first are the joint sample.
pub fn joint_sample_is_right<L>()
    ensures { JointSampleIsRight L }
{}

/// The joint sample of one start is its sample.
#[tactic(auto, using(crate::proofs::SampleFacts::sample_if_joint, crate::proofs::SampleFacts::joint_if_sample))]
pub fn one_start_is_a_sample<L>()
    ensures { OneStartIsASample L }
{}

/// There is only one sample, single or joint.
pub fn one_sample<L>()
    ensures { OneSample L }
{}

/// Only one list has the first k of a property.
pub fn first_k_is_one_list<X>()
    ensures { FirstKIsOneList X }
{}
