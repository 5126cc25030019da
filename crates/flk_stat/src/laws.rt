//! Laws of the smoothing, of ranks and of the severities. Each function has an empty body, and its contract is the law.

ghost use Rattle.std.specs.Prelude.{◌≡◌, ℕ, ◌*◌, ◌^◌, ◌<◌, ◌≤◌, List, length, ℤ, pos, ◌+ℤ◌, ◌-ℤ◌, ◌≤ℤ◌, int_lt};
ghost use Rattle.std.specs.List.{All, AllZip};
ghost use Rattle.flk_exact.specs.Fraction.{Fraction, ◌≤ℚ◌, ◌≈ℚ◌, whole, units};
ghost use Rattle.flk_exact.specs.Rounding.{IsBetween};
ghost use Rattle.flk_num.specs.declared.interval.Interval.{Interval};
ghost use Rattle.flk_num.specs.Interval.{HoldEach, lows, highs};
ghost use Rattle.flk_front.specs.declared.point.Point.{Point};
ghost use Rattle.flk_front.specs.Front.{IsWithin};
ghost use Rattle.flk_stat.specs.Smoothing.{AreLevels};
ghost use Rattle.flk_stat.specs.Rounded.{AreLevelIntervals};
ghost use Rattle.flk_stat.specs.Width.{BoundsRadius, IsSpread, severity_width};
ghost use Rattle.flk_stat.specs.Rank.{HasRank, is_less};
ghost use Rattle.flk_stat.specs.Severity.{IsSeverity, IsSeverityOfEnds};
ghost use Rattle.flk_stat.specs.LongTerm.{IsLongTerm};

/// Every weighted signal has levels, and no signal has two.
pub fn signal_has_levels()
    ensures exists { (c : ℕ) (ws : List Fraction) → (ps : List Fraction) × AreLevels c ws ps }
    ensures unique { (c : ℕ) (ws ps qs : List Fraction) → AreLevels c ws ps → AreLevels c ws qs → AllZip ◌≈ℚ◌ ps qs }
{}

/// Every list of points has one list of level intervals.
pub fn points_have_levels()
    ensures exists { (c : ℕ) (ws : List Point) → (vs : List Interval) × AreLevelIntervals c ws vs }
    ensures unique { (c : ℕ) (ws : List Point) (us vs : List Interval) → AreLevelIntervals c ws us
        → AreLevelIntervals c ws vs → us ≡ vs }
{}

/// Each level interval holds the exact level of every signal that lies in the points. (c is at most one, over 2^32.)
pub fn levels_hold_signals()
    ensures { (c : ℕ) (ws : List Point) (vs : List Interval) (xs ps : List Fraction) → c ≤ 2 ^ 32
        → AreLevelIntervals c ws vs → AllZip IsWithin ws xs → AreLevels c xs ps → HoldEach vs ps }
{}

/// Where a bound holds for the radii of the points, no level interval is wider than it allows. (c is from a part in
/// 2046 to one, over 2^32.)
pub fn levels_are_narrow()
    ensures { (c : ℕ) (ws : List Point) (vs : List Interval) (bound : Fraction) → c ≤ 2 ^ 32 → 2 ^ 32 ≤ 2046 * c
        → AreLevelIntervals c ws vs → units (pos (2 ^ 24)) ≤ℚ bound → All (BoundsRadius bound) ws
        → All (IsSpread bound) vs }
{}

/// A list has a number of each rank from 1 to its length, and no two.
pub fn rank_is_one()
    ensures exists { (k : ℕ) (xs : List ℤ) → 1 ≤ k → k ≤ length xs → (v : ℤ) × HasRank int_lt k xs v }
    ensures unique { (k : ℕ) (xs : List ℤ) (v w : ℤ) → HasRank int_lt k xs v → HasRank int_lt k xs w → v ≡ w }
    ensures fraction_exists { (k : ℕ) (xs : List Fraction) → 1 ≤ k → k ≤ length xs
        → (v : Fraction) × HasRank is_less k xs v }
    ensures fraction_unique { (k : ℕ) (xs : List Fraction) (v w : Fraction) → HasRank is_less k xs v
        → HasRank is_less k xs w → v ≈ℚ w }
{}

/// Where each number of a list is at most the one of another list at the same place, the number of rank k of the first
/// is at most that of the second.
pub fn ranks_keep_the_order()
    ensures { (k : ℕ) (xs ys : List Fraction) (v w : Fraction) → AllZip ◌≤ℚ◌ xs ys → HasRank is_less k xs v
        → HasRank is_less k ys w → v ≤ℚ w }
{}

/// Levels that are not none have one short-term severity. (The ends of levels are such levels.)
pub fn severity_is_one()
    ensures exists { (levels : List Fraction) → 0 < length levels → (w : ℤ) × IsSeverity levels w }
    ensures unique { (levels : List Fraction) (v w : ℤ) → IsSeverity levels v → IsSeverity levels w → v ≡ w }
{}

/// Short-term severities have one long-term severity.
pub fn long_term_is_one()
    ensures exists { (severities : List ℤ) → (w : ℤ) × IsLongTerm severities w }
    ensures unique { (severities : List ℤ) (v w : ℤ) → IsLongTerm severities v → IsLongTerm severities w → v ≡ w }
{}

/// Greater levels give no lesser severity, and greater severities no lesser long-term one.
pub fn greater_levels_give_no_lesser_severity()
    ensures exact { (xs ys : List Fraction) (v w : ℤ) → AllZip ◌≤ℚ◌ xs ys → IsSeverity xs v → IsSeverity ys w → v ≤ℤ w }
    ensures ends { (xs ys : List ℤ) (v w : ℤ) → AllZip ◌≤ℤ◌ xs ys → IsSeverityOfEnds xs v → IsSeverityOfEnds ys w
        → v ≤ℤ w }
    ensures long_term { (xs ys : List ℤ) (v w : ℤ) → AllZip ◌≤ℤ◌ xs ys → IsLongTerm xs v → IsLongTerm ys w → v ≤ℤ w }
{}

/// The severity of exact levels lies between those of the ends of intervals that hold them.
pub fn severity_holds()
    ensures { (vs : List Interval) (ps : List Fraction) (lo hi w : ℤ) → HoldEach vs ps → IsSeverityOfEnds (lows vs) lo
        → IsSeverityOfEnds (highs vs) hi → IsSeverity ps w → IsBetween lo hi w }
{}

/// Where no level is wider than a bound of the radii allows, the severities of the lower and of the upper ends are near
/// each other.
pub fn severity_is_narrow()
    ensures { (vs : List Interval) (bound : Fraction) (lo hi : ℤ) → units (pos (2 ^ 24)) ≤ℚ bound
        → All (λ z. pos 0 ≤ℤ z) (lows vs) → All (IsSpread bound) vs → IsSeverityOfEnds (lows vs) lo
        → IsSeverityOfEnds (highs vs) hi → whole (hi -ℤ lo) ≤ℚ severity_width bound }
{}

/// A long-term severity is no wider than the widest of twelve short-term ones, of which none is below 0.
pub fn long_term_is_no_wider()
    ensures { (d : ℕ) (xs ys : List ℤ) (v w : ℤ) → length xs ≡ 12 → All (λ x. pos 0 ≤ℤ x) xs
        → AllZip (λ x y. y ≤ℤ (x +ℤ pos d)) xs ys → IsLongTerm xs v → IsLongTerm ys w → w ≤ℤ (v +ℤ pos d) }
{}
