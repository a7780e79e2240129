//! Why a sample is refused: the causes, in the order in which they are told.
ghost use Rattle.std.specs.Prelude.{◌≡◌, ◌<◌, ◌≤◌, MatchResult};
ghost use Rattle.fault.specs.Causes.{Clear, Refused};
ghost use Rattle.fault.specs.Refusals.{atlas_refusal};
ghost use Rattle.fault.specs.declared.atlas.AtlasFault.TheVariants.{TooShort, NoSuchPlace};
ghost use Rattle.sample.specs.Samples.{sample_causes};

use examine::memory::Memory;
use fault::atlas::AtlasFault;

/// The start as one of n places.
fn place_of(n: u16, start: u32) -> Result<u16, AtlasFault>
    ensures { MatchResult result (λ v. (v ≡ start) × (start < n)) (λ f. (f ≡ NoSuchPlace start) × (n ≤ start)) }
{
    u16::try_from(start)
        .ok()
        .filter(|place| *place < n)
        .ok_or(AtlasFault::NoSuchPlace(start))
}

/// Refuses a buffer that has no room for k places.
fn check_room(k: u32, room: usize) -> Result<(), AtlasFault>
    ensures { MatchResult result (λ _. k ≤ room) (λ f. (f ≡ TooShort k) × (room < k)) }
{
    let needed = k as usize;
    if room < needed {
        return Err(AtlasFault::TooShort(needed));
    }
    Ok(())
}

/// The start as a place, where the memory passes its tests, there is such a place, and the buffer has room for k places.
pub(crate) fn allowed_start<R: Copy>(
    memory: &Memory<'_, R>,
    k: u32,
    start: u32,
    room: usize,
) -> Result<u16, AtlasFault>
    ensures { MatchResult result
        (λ v. (v ≡ start) × Clear (sample_causes memory.now k start room))
        (λ f. Refused (sample_causes memory.now k start room) (atlas_refusal f)) }
{
    memory.examine(None).map_err(AtlasFault::TestFailed)?;
    let place = place_of(memory.n, start)?;
    check_room(k, room)?;
    Ok(place)
}
