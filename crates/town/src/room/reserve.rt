//! Reserving room for a town file.
ghost use Rattle.std.specs.Prelude.{◌≡◌, min, IfOk};

use super::Room;
use crate::filling::Filling;
use crate::tables::Tables;
use std::alloc::{AllocError, Global};
use town_record::before::Limits;

/// The most places that a town file may have.
pub const MOST_PLACES: usize = 4096;

/// The most arcs that a town file may have.
pub const MOST_ARCS: usize = 16384;

impl<M> Room<M> {
    ghost use Rattle.town.specs.Reads.{limits_of};

    /// Room for so many places and arcs; no more than a file may have are reserved.
    pub fn reserve(heap: Global, places: usize, arcs: usize) -> Result<Room<M>, AllocError>
        ensures { IfOk result (λ room. ((limits_of room).places ≡ min places 4096) × ((limits_of room).arcs ≡ min arcs 16384)) }
    {
        let limits = Limits {
            places: places.min(MOST_PLACES),
            arcs: arcs.min(MOST_ARCS),
        };
        let tables = Tables {
            ranks: Vec::with_capacity(heap, limits.places)?,
            names: Vec::with_capacity(heap, limits.places)?,
            spans: Vec::with_capacity(heap, limits.places)?,
            arcs: Vec::with_capacity(heap, limits.arcs)?,
        };
        Ok(Room {
            filling: Filling { tables, limits },
        })
    }

    /// For how many places there is room.
    pub fn places(&self) -> usize
        ensures { result ≡ (limits_of self.now).places }
    {
        self.filling.limits.places
    }

    /// For how many arcs there is room.
    pub fn arcs(&self) -> usize
        ensures { result ≡ (limits_of self.now).arcs }
    {
        self.filling.limits.arcs
    }
}
