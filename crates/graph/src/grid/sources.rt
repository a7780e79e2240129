//! The places from which arcs arrive at a cell.
ghost use Rattle.std.specs.Prelude.{◌≡◌, length, option_to_list};
ghost use Rattle.std.specs.List.{flat_map, slice_get};
ghost use Rattle.graph.specs.Grids.{is_open, source};
ghost use Rattle.graph.specs.GridGraphs.{sources_of};

use super::Grid;
use crate::map::Map;

impl Grid {
    /// Whether the cell of this number is not barred; there is no such cell past the bytes.
    fn open(&self, place: usize) -> bool
        ensures { result ≡ is_open self.now.bytes place }
    {
        self.bytes.get(place).is_some_and(|byte| *byte != 0)
    }

    /// The place of a cell beside another, if there is such a cell and it is not barred.
    fn beside(&self, exists: bool, place: usize) -> Option<usize>
        ensures { option_to_list result ≡ source self.now.bytes exists place }
    {
        (exists && self.open(place)).then_some(place)
    }

    /// The places from which arcs arrive at a place: those above, left, right and below that exist and are not barred, in this order.
    pub(super) fn sources(&self, place: usize) -> [Option<usize>; 4]
        ensures { flat_map option_to_list result ≡ sources_of self.now.rows self.now.columns self.now.bytes place }
    {
        if place >= self.places() || !self.open(place) {
            return [None; 4];
        }
        let row = place / self.columns;
        let column = place % self.columns;
        let above = self.beside(row > 0, place.saturating_sub(self.columns));
        let left = self.beside(column > 0, place.saturating_sub(1));
        let right = self.beside(column + 1 < self.columns, place + 1);
        let below = self.beside(row + 1 < self.rows, place + self.columns);
        [above, left, right, below]
    }

    /// How many sources a place has.
    pub(super) fn source_count(&self, place: usize) -> usize
        ensures { result ≡ length (sources_of self.now.rows self.now.columns self.now.bytes place) }
    {
        let sources = self.sources(place);
        sources.iter().filter_map(|source| *source).count()
    }

    /// The source of number `i` of a place, counted from 0, if there are so many.
    pub(super) fn source(&self, place: usize, i: usize) -> Option<usize>
        ensures { result ≡ slice_get (sources_of self.now.rows self.now.columns self.now.bytes place) i }
    {
        let sources = self.sources(place);
        sources.iter().filter_map(|source| *source).nth(i)
    }
}
