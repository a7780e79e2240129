//! Tables while a town file is read into them.
ghost use Rattle.town.specs.Holds.{Sound, Roomy, Few};

use crate::tables::Tables;
use town_record::before::Limits;

pub mod add;
pub mod read;

/// Tables that fit one another, with memory for as many places and arcs as the limits allow.
// Each method that changes them says that the limits stay: what a method leaves as it was, no type can say.
#[derive(Drop)]
pub struct Filling<M> {
    pub tables: Tables<M>,
    pub limits: Limits,
    ghost sound: { Sound tables },
    ghost roomy: { Roomy limits tables },
    ghost few: { Few limits },
}
