//! Laws of flags, steady windows and changes. Nothing here runs.

ghost use Rattle.std.specs.Prelude.{◌≡◌, ◌↔◌, ℕ, ◌<◌, ◌≤◌, Bool, List, length, ℤ, pos, ◌-ℤ◌, ◌<ℤ◌, ◌≤ℤ◌};
ghost use Rattle.flk_exact.specs.Extreme.{IsLeast, IsGreatest};
ghost use Rattle.flk_num.specs.declared.interval.Interval.{Interval};
ghost use Rattle.flk_change.specs.declared.flag.Flag.{Flag as FlagView};
ghost use Rattle.flk_change.specs.declared.flag.Flag.TheVariants.{Early, Sure, Not};
ghost use Rattle.flk_num.specs.Interval.{lows, highs};
ghost use Rattle.flk_num.specs.Values.{HoldValues};
ghost use Rattle.flk_change.specs.Steady.{AreWithinLimit, IsSteady, IsSpread, AreSurelyClose, AreSurelyApart, IsFlag, AreFlags};
ghost use Rattle.flk_change.specs.Changes.{Quantity, IsOfValues};
ghost use Rattle.flk_change.specs.Resolutions.{RunsFrom, IsHull, IsSummary};
ghost use Rattle.flk_change.specs.declared.summary.ChangeSummary.{ChangeSummary as SummaryView};

/// After so many half-periods there is one flag.
pub fn flag_is_one()
    ensures exists { (window : ℕ) (halves : List Interval) (j : ℕ) → 0 < window → j ≤ length halves
        → (flag : FlagView) × IsFlag window halves j flag }
    ensures unique { (window : ℕ) (halves : List Interval) (j : ℕ) (p q : FlagView) → IsFlag window halves j p
        → IsFlag window halves j q → p ≡ q }
{}

/// The flag is certain where the greatest and the least ends say so: Sure where the greatest upper end less the least
/// lower one is at most the limit, and Not where the greatest lower end less the least upper one is above it.
pub fn certainty_is_by_ends()
    ensures close { (halves : List Interval) (greatest least : ℤ) → IsGreatest (highs halves) greatest
        → IsLeast (lows halves) least → AreSurelyClose halves ↔ ((greatest -ℤ least) ≤ℤ pos 4000000) }
    ensures apart { (halves : List Interval) (greatest least : ℤ) → IsGreatest (lows halves) greatest
        → IsLeast (highs halves) least → AreSurelyApart halves ↔ (pos 4000000 <ℤ (greatest -ℤ least)) }
{}

/// A certain flag tells of every list of values within the intervals.
pub fn certain_flags_hold_for_every_list()
    ensures sure { (window : ℕ) (halves : List Interval) (values : List ℤ) (j : ℕ) → HoldValues halves values
        → j ≤ length values → IsFlag window halves j Sure → IsSteady window values j }
    ensures not_steady { (window : ℕ) (halves : List Interval) (values : List ℤ) (j : ℕ) → HoldValues halves values
        → IsFlag window halves j Not → ¬ IsSteady window values j }
    ensures early { (window : ℕ) (halves : List Interval) (values : List ℤ) (j : ℕ) → IsFlag window halves j Early
        → ¬ IsSteady window values j }
{}

/// Values that are not none have one spread.
pub fn spread_is_one()
    ensures exists { (values : List ℤ) → 0 < length values → (spread : ℤ) × IsSpread values spread }
    ensures unique { (values : List ℤ) (p q : ℤ) → IsSpread values p → IsSpread values q → p ≡ q }
{}

/// No two values differ by more than the limit exactly where their spread is at most the limit.
pub fn close_where_spread_is_small()
    ensures { (values : List ℤ) (spread : ℤ) → IsSpread values spread
        → AreWithinLimit values ↔ (spread ≤ℤ pos 4000000) }
{}

/// A list of values has one dc, one dmax and one Tmax.
pub fn quantity_is_one()
    ensures exists { (quantity : Quantity) (window : ℕ) (values : List ℤ) → 0 < window
        → (m : ℤ) × IsOfValues quantity window values m }
    ensures unique { (quantity : Quantity) (window : ℕ) (values : List ℤ) (p q : ℤ)
        → IsOfValues quantity window values p → IsOfValues quantity window values q → p ≡ q }
{}

/// The lower ends are values within the intervals, so there is a list of such.
pub fn lower_ends_are_values()
    ensures { (halves : List Interval) → HoldValues halves (lows halves) }
{}

/// Half-periods have one list of flags.
pub fn flags_are_one_list()
    ensures exists { (window : ℕ) (halves : List Interval) → 0 < window
        → (flags : List FlagView) × AreFlags window halves flags }
    ensures unique { (window : ℕ) (halves : List Interval) (ps qs : List FlagView) → AreFlags window halves ps
        → AreFlags window halves qs → ps ≡ qs }
{}

/// In each resolution a quantity has one interval.
pub fn quantity_of_resolution_is_one()
    ensures exists { (quantity : Quantity) (window : ℕ) (halves : List Interval) (resolution : List Bool) → 0 < window
        → (v : Interval) × RunsFrom quantity window halves resolution v.lo v.hi }
    ensures unique { (quantity : Quantity) (window : ℕ) (halves : List Interval) (resolution : List Bool)
        (v w : Interval) → RunsFrom quantity window halves resolution v.lo v.hi
        → RunsFrom quantity window halves resolution w.lo w.hi → v ≡ w }
{}

/// The resolutions have one least interval that holds a quantity's intervals of them all.
pub fn hull_is_one()
    ensures exists { (quantity : Quantity) (window : ℕ) (halves : List Interval) (flags : List FlagView) → 0 < window
        → (v : Interval) × IsHull quantity window halves flags v }
    ensures unique { (quantity : Quantity) (window : ℕ) (halves : List Interval) (flags : List FlagView)
        (v w : Interval) → IsHull quantity window halves flags v → IsHull quantity window halves flags w → v ≡ w }
{}

/// Half-periods with their flags have one summary.
pub fn summary_is_one()
    ensures exists { (window : ℕ) (halves : List Interval) (flags : List FlagView) → 0 < window
        → length flags ≡ length halves → (s : SummaryView) × IsSummary window halves flags s }
    ensures unique { (window : ℕ) (halves : List Interval) (flags : List FlagView) (s t : SummaryView)
        → IsSummary window halves flags s → IsSummary window halves flags t → s ≡ t }
{}
