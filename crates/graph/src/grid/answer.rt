//! What a grid answers.
ghost use Rattle.std.specs.Prelude.{◌≡◌, ◌<◌};
ghost use Rattle.graph.specs.Grids.{entering};
ghost use Rattle.graph.specs.GridGraphs.{grid_graph};

use super::Grid;
use crate::arc::Arc;
use crate::map::Map;
use measure::seconds::Seconds;

impl Grid {
    /// The arc from a source to a cell: as long as the byte of the cell that it enters.
    fn arc(&self, source: usize, place: usize) -> Arc<Seconds>
        requires source { source < 4096 }
        requires place { place < 4096 }
        ensures { result ≡ entering self.now.bytes place source }
    {
        Arc {
            from: source as u16,
            length: Seconds::new(u32::from(self.bytes[place])),
        }
    }
}

impl Map for Grid {
    type Length = Seconds;

    ghost graph = { grid_graph };

    fn places(&self) -> usize {
        self.rows * self.columns
    }

    fn arrivals(&self, place: usize) -> usize {
        self.source_count(place)
    }

    fn arrival(&self, place: usize, i: usize) -> Option<Arc<Seconds>> {
        self.source(place, i).map(|source| self.arc(source, place))
    }
}
