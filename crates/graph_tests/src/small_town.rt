//! A small map for tests.
ghost use Rattle.std.specs.Prelude.{◌≤◌};

use graph::arc::Arc;

pub mod answer;
pub mod make;

/// A map given by its arcs, each with its to-place. The ends of an arc are taken modulo the number of places.
#[derive(Drop)]
pub struct SmallTown<'a, L> {
    places: usize,
    arcs: &'a [(usize, Arc<L>)],
    ghost some: { 1 ≤ places },
    ghost few: { places ≤ 4096 },
}
