//! Laws of the adaptor and of its points.

ghost use Rattle.std.specs.Prelude.{◌≡◌, ℕ, ◌≤◌, List};
ghost use Rattle.std.specs.List.{All, AllZip};
ghost use Rattle.flk_exact.specs.Fraction.{Fraction, ◌≤ℚ◌, ◌≈ℚ◌, units};
ghost use Rattle.flk_num.specs.declared.interval.Interval.{Interval};
ghost use Rattle.flk_num.specs.Interval.{HoldEach};
ghost use Rattle.flk_front.specs.declared.point.Point.{Point};
ghost use Rattle.flk_front.specs.Adaptor.{IsAdapted};
ghost use Rattle.flk_front.specs.Rounded.{ArePoints};
ghost use Rattle.flk_front.specs.Front.{IsWithin};
ghost use Rattle.flk_front.specs.Width.{AreClose, CoversOutput};

/// Every run has means and outputs, and no run has two.
pub fn adapted_run_is_one()
    ensures exists { (e : ℕ) (us : List Fraction)
        → (means : List Fraction) × (ys : List Fraction) × IsAdapted e us means ys }
    ensures unique { (e : ℕ) (us means ys ns zs : List Fraction) → IsAdapted e us means ys → IsAdapted e us ns zs
        → AllZip ◌≈ℚ◌ means ns × AllZip ◌≈ℚ◌ ys zs }
{}

/// Every exact output of a run lies within its point, where each interval holds its voltage. (The exponent is 16 or
/// more.)
pub fn points_hold_outputs()
    ensures { (e : ℕ) (vs : List Interval) (us means ys : List Fraction) (ps : List Point) → 16 ≤ e → HoldEach vs us
        → IsAdapted e us means ys
        → ArePoints e vs ps → AllZip IsWithin ps ys }
{}

/// No radius is above the stated bound, where the ends of the intervals are near the voltages. (The exponent is 16 or
/// 17.)
pub fn points_are_narrow()
    ensures { (e : ℕ) (vs : List Interval) (us means ys : List Fraction) (ps : List Point) (delta a r w : Fraction)
        → 16 ≤ e → e ≤ 17
        → IsAdapted e us means ys → AreClose delta a r vs us means → CoversOutput delta a r w → ArePoints e vs ps
        → All (λ p. units p.radius ≤ℚ w) ps }
{}

/// Every list of intervals has one list of points.
pub fn rounded_run_has_one_list_of_points()
    ensures exists { (e : ℕ) (vs : List Interval) → (ps : List Point) × ArePoints e vs ps }
    ensures unique { (e : ℕ) (vs : List Interval) (ps qs : List Point) → ArePoints e vs ps → ArePoints e vs qs
        → ps ≡ qs }
{}
