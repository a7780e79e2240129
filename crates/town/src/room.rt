//! Memory for a town file, reserved before it is read.
ghost use Rattle.town.specs.Holds.{Empty};

use crate::filling::Filling;

mod give_back;
pub mod reserve;

/// Empty tables with memory for so many places and arcs.
///
/// To reserve it is the only step that allocates: reading a file into it does not.
#[derive(Drop)]
pub struct Room<M> {
    pub(crate) filling: Filling<M>,
    ghost empty: { Empty filling.tables },
}
