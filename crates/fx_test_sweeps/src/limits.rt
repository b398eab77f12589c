//! Whether targets, lengths and bounds are within the limits of the calls that take them.
ghost use Rattle.std.specs.Prelude.{ℕ, ◌<◌, ◌≤◌, length, IsTrue};
ghost use Rattle.fx_sweep.specs.Target.{TargetFits};
ghost use Rattle.fx_sweep.specs.declared.limits.TheConstants.{GREATEST_LENGTH};
ghost use Rattle.fx_totals.specs.Filled.{length_in, target_in};
ghost use Rattle.fx_totals.specs.Kept.{AreBounds};

use fx_sweep::{GREATEST_LENGTH, Target};

// Whether the rows of a target are rows of a net of N rows.
fn fits<const N: usize>(target: Target) -> bool
    ensures { IsTrue result → TargetFits N target }
{
    match target {
        Target::Row(t) => usize::from(t) < N,
        Target::Pair {
            code,
            original,
            shift,
        } => {
            usize::from(code) < N
                && usize::from(original) < N
                && code != original
                && shift.unsigned_abs() <= 16
        }
    }
}

/// Whether this is so of each target.
pub fn all_fit<const N: usize>(targets: &[Target]) -> bool
    ensures { IsTrue result → (t : ℕ) → t < length targets.now → TargetFits N (target_in targets.now t) }
{
    for t in 0..targets.len() {
        if !fits::<N>(targets[t]) {
            return false;
        }
    }
    true
}

/// Whether each length is within its limits.
pub fn are_lengths(lengths: &[u16]) -> bool
    ensures some { IsTrue result → (l : ℕ) → l < length lengths.now → 1 ≤ length_in lengths.now l }
    ensures short { IsTrue result → (l : ℕ) → l < length lengths.now → length_in lengths.now l ≤ GREATEST_LENGTH }
{
    for l in 0..lengths.len() {
        if lengths[l] < 1 {
            return false;
        }
        if lengths[l] > GREATEST_LENGTH {
            return false;
        }
    }
    true
}

/// Whether each bound is within its limits.
pub fn are_bounds(bounds: &[i64]) -> bool
    ensures { IsTrue result → AreBounds bounds.now }
{
    for i in 0..bounds.len() {
        if bounds[i] < 0 {
            return false;
        }
        if bounds[i] > 2_147_483_647 {
            return false;
        }
    }
    true
}
