//! The ways of one arc at most.
ghost use Rattle.std.specs.Prelude.{◌≡◌, ◌*◌, ◌<◌, []};
ghost use Rattle.graph.specs.Kinds.{Direct, Right};
ghost use Rattle.all_pairs.specs.Tables.{RightBelow, SameFrom};

use crate::length::shorter;
use crate::table::Table;
use graph::map::Map;
use measure::Measure;

/// The least length of a way from `v` to `w` of one arc at most, if there is one.
fn shortest<M: Map>(map: &M, v: usize, w: usize) -> Option<M::Length>
    ensures { v < (M.Map.graph map.now).places → Right M.Length.Measure.laws (M.Map.graph map.now) (Direct ((M.Map.graph map.now).arriving w)) v w result }
{
    let empty_way = (v == w).then_some(M::Length::zero());
    // A fold over the arcs' numbers: one over the arcs, by `filter_map`, gets no proof yet where lengths are of any measure.
    (0..map.arrivals(w)).fold(empty_way, |least, i| match map.arrival(w, i) {
        Some(arc) if usize::from(arc.from) == v => Some(shorter(least, arc.length)),
        _ => least,
    })
}

/// Fills the table of a map with the ways of one arc at most, row by row: row `k` is that of places `k / places` and `k % places`.
pub(crate) fn fill<M: Map>(map: &M, table: &mut Table<M::Length>)
    requires { table.old.places ≡ (M.Map.graph map.now).places }
    ensures same_reference { table.new.rows.ghost_name ≡ table.old.rows.ghost_name }
    ensures same_places { table.new.places ≡ table.old.places }
    ensures right { RightBelow M.Length.Measure.laws M.Length.Measure.encoding (M.Map.graph map.now) [] table.new.rows.now (table.old.places * table.old.places) }
    ensures rest { SameFrom (table.old.places * table.old.places) table.old.rows.now table.new.rows.now }
{
    let places = table.places;
    for (k, row) in table.rows[..places * places].iter_mut().enumerate() {
        *row = shortest(map, k / places, k % places).map(|length| length.write());
    }
}
