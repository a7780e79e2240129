//! Rows: a map made by an accepted town file, with the ranks and names of its places.
ghost use Rattle.std.specs.Prelude.{◌≤◌, vec_len};
ghost use Rattle.town.specs.Holds.{Sound};

use crate::tables::Tables;

pub mod ask;
pub mod read;
pub mod write;

/// The places and arcs of a town file, the arcs listed by arrival place.
#[derive(Drop)]
pub struct Rows<M> {
    tables: Tables<M>,
    ghost some: { 1 ≤ vec_len tables.ranks },
    ghost few_places: { vec_len tables.ranks ≤ 4096 },
    ghost few_arcs: { vec_len tables.arcs ≤ 16384 },
    ghost sound: { Sound tables },
}
