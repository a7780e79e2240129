//! Adding what a record says to the tables.
ghost use Rattle.std.specs.Prelude.{◌≡◌, ◌<◌, ◌≤◌, [], ◌∷◌, ◌++◌, vec_len, slice_index_or, slice_set};
ghost use Rattle.town.specs.Index.{empty_span, longer};

use super::Filling;
use crate::tables::Span;
use town_record::arc_row::ArcRow;
use town_record::before::Before;
use town_record::name::Name;

impl<M: Copy> Filling<M> {
    ghost use Rattle.town.specs.Holds.{so_far, SameRoom};

    /// What stands in the tables, as what stands before the next record.
    pub(crate) fn so_far(&self) -> Before
        ensures { result ≡ so_far self.now.tables }
    {
        Before {
            places: self.tables.ranks.len(),
            arcs: self.tables.arcs.len(),
            last_to: self.tables.arcs.last().map_or(0, |arc| arc.to),
        }
    }

    /// Adds a place, at which no arc arrives yet.
    pub(crate) fn add_place(&mut self, rank: u32, name: Name)
        requires { vec_len self.old.tables.ranks < self.old.limits.places }
        ensures ranks { self.new.tables.ranks.items ≡ self.old.tables.ranks.items ++ rank ∷ [] }
        ensures names { self.new.tables.names.items ≡ self.old.tables.names.items ++ name ∷ [] }
        ensures spans { self.new.tables.spans.items ≡ self.old.tables.spans.items ++ empty_span ∷ [] }
        ensures arcs { self.new.tables.arcs ≡ self.old.tables.arcs }
        ensures same_room { SameRoom self.old.tables self.new.tables }
        ensures limits { self.new.limits ≡ self.old.limits }
    {
        self.tables.ranks.push_reserved(rank);
        self.tables.names.push_reserved(name);
        self.tables.spans.push_reserved(Span::default());
    }

    /// Adds an arc, the last so far of the place where it arrives.
    pub(crate) fn add_arc(&mut self, arc: ArcRow<M>)
        requires from { arc.from < vec_len self.old.tables.ranks }
        requires to { arc.to < vec_len self.old.tables.ranks }
        requires order { (so_far self.old.tables).last_to ≤ arc.to }
        requires room { vec_len self.old.tables.arcs < self.old.limits.arcs }
        ensures spans { self.new.tables.spans.items ≡ slice_set self.old.tables.spans.items arc.to (longer (slice_index_or self.old.tables.spans.items arc.to empty_span) (vec_len self.old.tables.arcs)) }
        ensures arcs { self.new.tables.arcs.items ≡ self.old.tables.arcs.items ++ arc ∷ [] }
        ensures ranks { self.new.tables.ranks ≡ self.old.tables.ranks }
        ensures names { self.new.tables.names ≡ self.old.tables.names }
        ensures same_room { SameRoom self.old.tables self.new.tables }
        ensures limits { self.new.limits ≡ self.old.limits }
    {
        let to = usize::from(arc.to);
        self.tables.spans[to] = self.tables.spans[to].longer(self.tables.arcs.len());
        self.tables.arcs.push_reserved(arc);
    }
}
