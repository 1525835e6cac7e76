//! How many cycles a mutant may take, by the baselines.
ghost use Rattle.std.specs.Prelude.{◌≡◌};
ghost use Rattle.campaign_run.specs.Baselines as specs;

use campaign_run::Baseline;

/// The most cycles that a project may say.
const MAX_CYCLES: u32 = 1_000_000;

/// The greatest number of cycles.
fn greatest(baselines: &[Baseline]) -> u32
    ensures { result ≡ specs.greatest baselines.now }
{
    let mut greatest = 0;
    for baseline in baselines {
        greatest = greatest.max(baseline.cycles);
    }
    greatest
}

/// Ten times the greatest number of cycles, from 1 to 1,000,000.
pub fn auto_cycles(baselines: &[Baseline]) -> u32
    ensures { result ≡ specs.auto_cycles baselines.now }
{
    greatest(baselines).saturating_mul(10).clamp(1, MAX_CYCLES)
}
