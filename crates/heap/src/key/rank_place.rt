//! A rank and a place as a key.
ghost use Rattle.heap.specs.Keys.{rank_place_order};

use crate::key::Key;

/// A rank with its place: lower ranks come first, and among equal ranks lower places.
#[derive(Clone, Copy, PartialEq, Eq, PartialOrd, Ord, Debug)]
pub struct RankPlace {
    pub rank: u32,
    pub place: u16,
}

impl Key for RankPlace {
    ghost order = { rank_place_order };

    fn least() -> RankPlace {
        RankPlace { rank: 0, place: 0 }
    }

    fn at_most(self, other: RankPlace) -> bool {
        self <= other
    }
}
