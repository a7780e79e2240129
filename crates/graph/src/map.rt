//! The three questions that a map answers, and the meaning that fixes the answers.
ghost use Rattle.std.specs.Prelude.{◌≡◌, length};
ghost use Rattle.std.specs.List.{slice_get};
ghost use Rattle.graph.specs.Graphs.{Graph};

use crate::arc::Arc;
use measure::Measure;

/// A map: places numbered from 0, and the arcs that arrive at each. Asking changes nothing.
///
/// The answers are those of the meaning, so two maps of one meaning cannot be told apart by asking.
pub trait Map {
    /// What the arcs are measured in.
    type Length: Measure;

    /// What the map means.
    ghost graph: { Self → Graph Self.Length };

    /// How many places there are, 1 to 4,096.
    fn places(&self) -> usize
        ensures { result ≡ (graph self.now).places };

    /// How many arcs arrive at a place: 0 for a number that is no place.
    fn arrivals(&self, place: usize) -> usize
        ensures { result ≡ length ((graph self.now).arriving place) };

    /// The arc of number `i`, counted from 0, of those that arrive at a place: none exactly if there is no such place or arc.
    fn arrival(&self, place: usize, i: usize) -> Option<Arc<Self::Length>>
        ensures { result ≡ slice_get ((graph self.now).arriving place) i };
}
