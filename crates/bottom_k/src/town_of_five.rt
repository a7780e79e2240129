//! The town of five: the worked cases as one table, proved over the definitions.
ghost use Rattle.bottom_k.specs.TownOfFive.{TownOfFive};

/// Every case of the table holds.
pub fn town_of_five()
    ensures { TownOfFive }
{}
