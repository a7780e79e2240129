//! The tables that a town file is read into.
ghost use Rattle.std.specs.Prelude.{◌≡◌, ◌<◌};
ghost use Rattle.town.specs.Index.{longer};

use town_record::arc_row::ArcRow;
use town_record::name::Name;

/// Where the arcs that arrive at a place stand in the table of arcs: consecutively.
#[derive(Clone, Copy, Default)]
pub struct Span {
    pub first: u16,
    pub count: u16,
}

impl Span {
    /// The span with one arc more, where the table has so many: it begins there if it was empty.
    pub(crate) fn longer(self, arcs: usize) -> Span
        requires few { arcs < 65536 }
        requires room { self.count < 65535 }
        ensures { result ≡ longer self arcs }
    {
        Span {
            first: if self.count == 0 {
                // `as`: a `requires` bounds the number, and `try_from` would give an error that cannot come.
                arcs as u16
            } else {
                self.first
            },
            count: self.count + 1,
        }
    }
}

/// Rank, name and span of each place, and the arcs in the order of the file, which is by to-place.
///
/// A place has a row in each of three tables, not one row in one table: rows lend the ranks alone as one slice, and the names alone as another.
/// The arcs are one table with spans in it, not a list of arcs for each place: reading allocates nothing, and only how many arcs there may be in all is known before.
#[derive(Drop)]
pub struct Tables<M> {
    pub ranks: Vec<u32>,
    pub names: Vec<Name>,
    pub spans: Vec<Span>,
    pub arcs: Vec<ArcRow<M>>,
}
