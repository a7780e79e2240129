//! The two lent tables that hold the sketches, seen together and only read.
use tables::rows::{Cell, HomeRow};

/// The rows of the places, and the cells of their sketches. A reader of a sketch keeps the cells lent, and not the rows.
#[derive(Clone, Copy)]
pub struct Sketches<'h, 'a, R> {
    pub home: &'h [HomeRow],
    pub cells: &'a [Cell<R>],
}
