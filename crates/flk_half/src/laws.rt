//! Laws of the intervals of a recording's half-periods. No call does anything: each states a law of the definitions.

ghost use Rattle.std.specs.Prelude.{◌≡◌, ℕ, ◌<◌, Bool, List, [], ◌∷◌, ◌++◌, ℤ, pos, ◌≤ℤ◌};
ghost use Rattle.std.specs.List.{All};
ghost use Rattle.flk_exact.specs.Cut.{AreCuts};
ghost use Rattle.flk_exact.specs.Fraction.{Fraction};
ghost use Rattle.flk_exact.specs.HalfPeriod.{AreHalfPeriodValues};
ghost use Rattle.flk_num.specs.declared.interval.Interval.{Interval};
ghost use Rattle.flk_num.specs.Interval.{HoldEach, IsNarrow};
ghost use Rattle.flk_num.specs.Values.{HoldValues, IsHalfPeriodRange};
ghost use Rattle.flk_half.specs.declared.cutter.Cutter.{Cutter};
ghost use Rattle.flk_half.specs.Cutter.{Continues, EndsHalfPeriod};
ghost use Rattle.flk_half.specs.Intervals.{AreHalfPeriodIntervals, IsWithinFive, IsNarrowHalfPeriod, HasCut};

/// Each list of cut voltages has one list of intervals of its half-periods.
pub fn half_period_intervals_are_one_list()
    ensures exists { (half : ℕ) (cuts : List ℕ) (voltages : List Interval) → 0 < half
        → (halves : List Interval) × AreHalfPeriodIntervals half cuts voltages halves }
    ensures unique { (half : ℕ) (cuts : List ℕ) (voltages hs ks : List Interval)
        → AreHalfPeriodIntervals half cuts voltages hs
        → AreHalfPeriodIntervals half cuts voltages ks → hs ≡ ks }
{}

/// The list goes on with each sample that a cutter takes: it stays where no half-period ends before the sample, and
/// has one interval more where one ends.
pub fn half_periods_go_on()
    ensures continues { (old new : Cutter) (half : ℕ) (negative : List Bool) (voltages halves : List Interval)
        (sign : Bool) (v : Interval)
        → HasCut old half negative voltages halves → Continues old new sign v
        → HasCut new half (negative ++ sign ∷ []) (voltages ++ v ∷ []) halves }
    ensures ends { (old new : Cutter) (half : ℕ) (negative : List Bool) (voltages halves : List Interval) (sign : Bool)
        (v h : Interval)
        → HasCut old half negative voltages halves → EndsHalfPeriod old new sign v h
        → HasCut new half (negative ++ sign ∷ []) (voltages ++ v ∷ []) (halves ++ h ∷ []) }
{}

/// The intervals hold the half-period values of every run whose voltages lie in their intervals.
pub fn half_period_intervals_hold_every_run()
    ensures { (half : ℕ) (cuts : List ℕ) (voltages : List Interval) (run : List Fraction) (halves : List Interval)
        (values : List ℤ)
        → HoldEach voltages run → AreHalfPeriodIntervals half cuts voltages halves
        → AreHalfPeriodValues half cuts run values
        → HoldValues halves values }
{}

/// Where no voltage's interval is more than `2 * delta` wide, no half-period's is more than `3 * 10^9 * delta + 3`
/// wide.
pub fn half_period_intervals_are_narrow()
    ensures { (half : ℕ) (negative : List Bool) (cuts : List ℕ) (voltages halves : List Interval) (delta : Fraction)
        → 0 < half
        → AreCuts half negative cuts → pos 0 ≤ℤ delta.num → All (IsNarrow delta) voltages
        → AreHalfPeriodIntervals half cuts voltages halves
        → All (IsNarrowHalfPeriod delta) halves }
{}

/// Where every voltage is at most five times nominal in size, every half-period value is from 0 to ten times nominal.
pub fn half_period_intervals_are_in_range()
    ensures { (half : ℕ) (negative : List Bool) (cuts : List ℕ) (voltages halves : List Interval) → 0 < half
        → AreCuts half negative cuts
        → All IsWithinFive voltages → AreHalfPeriodIntervals half cuts voltages halves → All IsHalfPeriodRange halves }
{}
