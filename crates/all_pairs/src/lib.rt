//! The least lengths of the ways between all pairs of places of a map.
#![tactic(auto)]

ghost use Rattle.std.specs.Prelude.{◌≡◌, ℕ, MatchResult};
ghost use Rattle.fault.specs.Causes.{Clear, Refused};
ghost use Rattle.fault.specs.Refusals.{atlas_refusal};
ghost use Rattle.graph.specs.Ways.{LeastOrNone};
ghost use Rattle.graph.specs.LeastLengths.{least_length};
ghost use Rattle.graph.specs.WayLaws.{WayLaws};
ghost use Rattle.all_pairs.specs.Tables.{Accepted, Rejected, table_causes};

use fault::atlas::AtlasFault;
use graph::map::Map;
use measure::Measure;
use table::Table;

mod by_way_of;
mod direct;
mod length;
mod table;

/// Writes the least length of a way from each place to each other, or none where there is no way, into a table of n × n rows: that from `v`
/// to `w` at `v * n + w`. The rest of a longer table is unchanged; a shorter one is refused, and unchanged too.
///
/// It takes time n × n × n, and n for each arc of the map.
#[tactic(auto, using(graph::proofs::Computed::least_length_right, graph::proofs::LeastWays::way_laws))]
pub fn least_lengths<M: Map>(
    map: &M,
    table: &mut [Option<<M::Length as Measure>::Row>],
) -> Result<(), AtlasFault>
    ensures answers { MatchResult result (λ _. Accepted M.Length.Measure.laws M.Length.Measure.encoding (M.Map.graph map.now) table.old table.new) (λ f. Rejected (M.Map.graph map.now) table.old table.new f) }
    ensures least { (v w : ℕ) → LeastOrNone M.Length.Measure.laws (M.Map.graph map.now) v w (least_length M.Length.Measure.laws (M.Map.graph map.now) v w) }
    ensures ways { WayLaws M.Length.Measure.laws (M.Map.graph map.now) }
{
    let places = room(map, table.len())?;
    let mut table = Table {
        rows: table,
        places,
    };
    direct::fill(map, &mut table);
    for x in 0..places {
        table.shorten(x);
    }
    Ok(())
}

/// The number of places, if so many rows are enough for all pairs of them.
fn room<M: Map>(map: &M, given: usize) -> Result<usize, AtlasFault>
    ensures { MatchResult result (λ n. (n ≡ (M.Map.graph map.now).places) × Clear (table_causes (M.Map.graph map.now).places given)) (λ f. Refused (table_causes (M.Map.graph map.now).places given) (atlas_refusal f)) }
{
    let n = map.places();
    if given < n * n {
        return Err(AtlasFault::TooShort(n * n));
    }
    Ok(n)
}
