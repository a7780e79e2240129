//! Rows as a map, and what they keep of their places.
ghost use Rattle.std.specs.Prelude.{◌≡◌, vec_len, slice_index_or};
ghost use Rattle.town.specs.Index.{empty_span};
ghost use Rattle.town.specs.RowsGraph.{rows_graph};
ghost use Rattle.town.specs.SpanLaws.{arriving_at};

use super::Rows;
use crate::tables::Span;
use graph::arc::Arc;
use graph::map::Map;
use measure::Measure;
use town_record::arc_row::ArcRow;
use town_record::name::Name;

impl<M> Rows<M> {
    /// The span of a place: no arcs for a number that is no place.
    fn span(&self, place: usize) -> Span
        ensures { result ≡ slice_index_or self.now.tables.spans.items place empty_span }
    {
        self.tables.spans.get(place).copied().unwrap_or_default()
    }

    /// The arcs that arrive at a place, in the order of the file.
    #[tactic(auto, using(crate::proofs::Asking::part_of_span))]
    fn arriving(&self, place: usize) -> &[ArcRow<M>]
        ensures { result.now ≡ arriving_at place self.now.tables.arcs.items }
    {
        let span = self.span(place);
        let first = usize::from(span.first);
        &self.tables.arcs[first..first + usize::from(span.count)]
    }

    /// The rank of each place.
    pub fn ranks(&self) -> &[u32]
        ensures { result.now ≡ self.now.tables.ranks.items }
    {
        self.tables.ranks.as_slice()
    }

    /// How many arcs there are.
    pub fn arcs(&self) -> usize
        ensures { result ≡ vec_len self.now.tables.arcs }
    {
        self.tables.arcs.len()
    }

    /// The name of each place.
    pub fn names(&self) -> &[Name]
        ensures { result.now ≡ self.now.tables.names.items }
    {
        self.tables.names.as_slice()
    }
}

impl<M: Measure> Map for Rows<M> {
    type Length = M;

    ghost graph = { rows_graph };

    fn places(&self) -> usize {
        self.tables.ranks.len()
    }

    fn arrivals(&self, place: usize) -> usize {
        self.arriving(place).len()
    }

    fn arrival(&self, place: usize, i: usize) -> Option<Arc<M>> {
        // No `From`: both types are of other crates.
        self.arriving(place).get(i).map(|arc| Arc {
            from: arc.from,
            length: arc.length,
        })
    }
}
