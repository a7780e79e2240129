//! The sampled places, written to the front of a buffer.
ghost use Rattle.std.specs.Prelude.{◌≤◌, length};
ghost use Rattle.sample.specs.Samples.{Sampled};

use crate::told::Sample;
use examine::memory::Memory;
use measure::Measure;
use sketches::counting::is_within;

/// Writes the places that the start notes within the limit to the front of the buffer, k at most, and tells what they stand for.
#[tactic(auto, using(crate::proofs::SoFar::filled_more))]
pub(crate) fn fill<M: Measure>(
    memory: &Memory<'_, M::Row>,
    k: u32,
    start: u16,
    limit: M,
    places: &mut [u16],
) -> Sample
    requires { k ≤ length places.old }
    ensures { Sampled M.Measure.laws M.Measure.encoding memory.now k start limit places.old places.new result }
{
    let needed = k as usize;
    let mut count = 0;
    let mut last_rank = 0;
    // No `filter` and `take`: a loop over a chain with a closure gets no proof yet where lengths are of any measure.
    for entry in memory.sketches.entries(start) {
        if count == needed {
            break;
        }
        if is_within(entry.length, limit) {
            let row = memory.order_row(entry.position as usize);
            places[count] = row.place;
            last_rank = row.rank;
            count += 1;
        }
    }
    Sample::new(k, count, last_rank)
}
