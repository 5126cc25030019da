//! Laws of the value of a half-period.

ghost use Rattle.std.specs.Prelude.{◌≡◌, ℕ, ◌<◌, List, ℤ, pos, ◌≤ℤ◌};
ghost use Rattle.flk_exact.specs.Fraction.{Fraction};
ghost use Rattle.flk_exact.specs.HalfPeriod.{IsHalfPeriodValue, AreHalfPeriodValues};

/// Voltages of a half-period have one value, which is not below 0.
pub fn half_period_has_one_value()
    ensures exists { (half : ℕ) (voltages : List Fraction) → 0 < half → (w : ℤ) × IsHalfPeriodValue half voltages w }
    ensures unique { (half : ℕ) (voltages : List Fraction) (w z : ℤ)
        → IsHalfPeriodValue half voltages w → IsHalfPeriodValue half voltages z → w ≡ z }
    ensures natural { (half : ℕ) (voltages : List Fraction) (w : ℤ) → IsHalfPeriodValue half voltages w → pos 0 ≤ℤ w }
{}

/// A run has one list of values for a list of cuts.
pub fn run_has_one_list_of_values()
    ensures exists { (half : ℕ) (cuts : List ℕ) (run : List Fraction)
        → 0 < half → (values : List ℤ) × AreHalfPeriodValues half cuts run values }
    ensures unique { (half : ℕ) (cuts : List ℕ) (run : List Fraction) (ws zs : List ℤ)
        → AreHalfPeriodValues half cuts run ws → AreHalfPeriodValues half cuts run zs → ws ≡ zs }
{}
