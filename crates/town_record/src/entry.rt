//! What a record says.
use crate::arc_row::ArcRow;
use crate::name::Name;

pub mod read;

/// A place with its rank and name, or an arc.
#[derive(Clone, Copy, PartialEq, Eq, Debug)]
pub enum Entry<M> {
    Place(u32, Name),
    Arc(ArcRow<M>),
}
