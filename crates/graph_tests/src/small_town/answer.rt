//! What a small town answers.
ghost use Rattle.graph_tests.specs.TownGraphs.{town_graph};

use super::SmallTown;
use graph::arc::Arc;
use graph::map::Map;
use measure::Measure;

impl<L: Measure> Map for SmallTown<'_, L> {
    type Length = L;

    ghost graph = { town_graph };

    fn places(&self) -> usize {
        self.places
    }

    // Both functions filter the arcs: an iterator with a closure in it has no type that a function could name as its result.
    fn arrivals(&self, place: usize) -> usize {
        self.arcs
            .iter()
            .filter(|(to, _)| *to % self.places == place)
            .count()
    }

    fn arrival(&self, place: usize, i: usize) -> Option<Arc<L>> {
        let mut arriving = self
            .arcs
            .iter()
            .filter(|(to, _)| *to % self.places == place);
        let (_, arc) = arriving.nth(i)?;
        Some(Arc {
            from: arc.from % self.places as u16,
            length: arc.length,
        })
    }
}
