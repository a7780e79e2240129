//! The figure of a sample, worked out.
ghost use Rattle.std.specs.Prelude.{◌≡◌, ◌+◌, ◌-◌, ◌*◌, ◌<◌, ◌≤◌, length};
ghost use Rattle.bottom_k.specs.Figures.{estimated, figure_of, figure_of_ranks};

use crate::figure::Figure;

/// (k − 1) × 4,294,967,296 divided by a rank, rounded down. No place has rank 0, for which the answer is 0.
pub fn estimate(k: u32, rank: u32) -> u64
    ensures quotient { result ≡ estimated k rank }
    ensures down { 1 ≤ rank → (result * rank ≤ (k - 1) * 4294967296) × ((k - 1) * 4294967296 < (result + 1) * rank) }
{
    let spread = u64::from(k.saturating_sub(1)) * 4_294_967_296;
    spread.checked_div(u64::from(rank)).unwrap_or(0)
}

/// The figure of a sample of so many places, the last of which has the rank given.
pub fn figure(k: u32, sampled: usize, last_rank: u32) -> Figure
    ensures { result ≡ figure_of k sampled last_rank }
{
    if sampled < k as usize {
        Figure::Exact(sampled as u64)
    } else {
        Figure::Estimated(estimate(k, last_rank))
    }
}

/// The figure of a sample, by the ranks of the sampled places, first-ranked first.
pub fn figure_of_ranks(k: u32, ranks: &[u32]) -> Figure
    ensures { result ≡ figure_of_ranks k ranks.now }
{
    let last_rank = ranks.last().copied().unwrap_or(0);
    figure(k, ranks.len(), last_rank)
}
