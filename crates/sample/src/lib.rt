//! The sample of a place within a limit, taken on an atlas's memory: on any tables at all, sound or not.
//!
//! It makes the tests of memory, but for the one of a map, since none is given, walks one sketch, and writes as many places as it
//! samples. The tables are only read.
#![tactic(auto)]

ghost use Rattle.std.specs.Prelude.{◌≡◌, length, MatchResult};
ghost use Rattle.fault.specs.Causes.{Clear, Refused};
ghost use Rattle.fault.specs.Refusals.{atlas_refusal};
ghost use Rattle.sample.specs.Samples.{sample_causes, Sampled};

use allowed::allowed_start;
use examine::memory::Memory;
use fault::atlas::AtlasFault;
use filling::fill;
use measure::Measure;

mod allowed;
mod filling;
pub mod told;

/// Writes the first k places, by rank, that the start notes within the limit to the front of the buffer, and tells how many they
/// are and how many they stand for. The rest of the buffer is unchanged, and after a refusal the whole buffer.
pub fn sample<M: Measure>(
    memory: Memory<'_, M::Row>,
    k: u32,
    start: u32,
    limit: M,
    places: &mut [u16],
) -> Result<told::Sample, AtlasFault>
    ensures { MatchResult result
        (λ s. Clear (sample_causes memory.entry k start (length places.old)) × Sampled M.Measure.laws M.Measure.encoding memory.entry k start limit places.old places.new s)
        (λ f. Refused (sample_causes memory.entry k start (length places.old)) (atlas_refusal f) × (places.new ≡ places.old)) }
{
    let start = allowed_start(&memory, k, start, places.len())?;
    Ok(fill(&memory, k, start, limit, places))
}
