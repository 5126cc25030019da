//! Laws of the cut into half-periods.

ghost use Rattle.std.specs.Prelude.{◌≡◌, ℕ, ◌-◌, ◌*◌, ◌<◌, ◌≤◌, Bool, List};
ghost use Rattle.flk_exact.specs.Cut.{IsNextCut, AreCuts};

/// A recording has one list of cuts.
pub fn cuts_are_one_list()
    ensures exists { (half : ℕ) (negative : List Bool) → (cuts : List ℕ) × AreCuts half negative cuts }
    ensures unique { (half : ℕ) (negative : List Bool) (ps qs : List ℕ)
        → AreCuts half negative ps → AreCuts half negative qs → ps ≡ qs }
{}

/// A half-period has at most twice as many samples as half a nominal period.
pub fn half_period_has_few_samples()
    ensures { (half : ℕ) (negative : List Bool) (s p : ℕ) → 0 < half → IsNextCut half negative s p → p - s ≤ 2 * half }
{}
