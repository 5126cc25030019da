//! Laws of results. Each function has an empty body, and its contract is the law.

ghost use Rattle.std.specs.Prelude.{◌≡◌, ◌*◌, ◌^◌, ◌<◌, ◌≤◌, ℕ, List, length, reverse};
ghost use Rattle.flk_exact.specs.Fraction.{Fraction};
ghost use Rattle.flk_exact.specs.Run.{IsAdmittedRun};
ghost use Rattle.flk_num.specs.Rate.{adaptor_exponent};
ghost use Rattle.flk_front.specs.Adaptor.{IsAdapted};
ghost use Rattle.flk_scale.specs.Range.{IsWithinRange};
ghost use Rattle.flk_section.specs.declared.whole.Whole.{Whole};
ghost use Rattle.flk_result.specs.declared.result.PhaseResult.{PhaseResult};
ghost use Rattle.flk_result.specs.Conditions.{Conditions, AreSensible, AreEnough};
ghost use Rattle.flk_result.specs.RunQuantities.{RunQuantities, AreQuantities};
ghost use Rattle.flk_result.specs.PhaseResult.{IsProper};
ghost use Rattle.flk_result.specs.Digits.{IsPhaseResult};
ghost use Rattle.flk_result.specs.Promise.{IsFilterOf, IsCertifiedFilterOf, KeepsPromise};
ghost use Rattle.flk_result.specs.Widths.{IsOwnRun, CoversSignal, CoversHalfPeriods, KeepsWidths};

/// The result of recorded voltages holds the quantities of every exact run that they admit.
pub fn result_keeps_promise()
    ensures { (c : Conditions) (w : Whole) (recorded : List Fraction) (r : PhaseResult)
        → 0 < c.nominal → IsFilterOf c w → IsPhaseResult c recorded r → KeepsPromise c recorded r }
{}

/// Its intervals are no wider than stated.
pub fn result_keeps_widths()
    ensures { (c : Conditions) (w : Whole) (recorded : List Fraction) (r : PhaseResult)
        → 0 < c.nominal → IsFilterOf c w → IsPhaseResult c recorded r → KeepsWidths c recorded r }
{}

/// The recorded voltages are a run of their own, and admit it.
pub fn own_run_is_admitted()
    ensures exists { (c : Conditions) (recorded : List Fraction) → 0 < c.nominal
        → (own : List Fraction) × IsOwnRun c recorded own }
    ensures admitted { (c : Conditions) (recorded own : List Fraction) → IsOwnRun c recorded own
        → IsAdmittedRun (1000 * c.nominal) c.uncertainty recorded own }
{}

/// There are numbers that cover the widths: where the uncertainty is at most a hundredth of nominal, and for the
/// weighted signal where no recorded voltage is over range.
pub fn some_numbers_cover()
    ensures signal { (c : Conditions) (recorded own means outputs : List Fraction)
        → 0 < c.nominal → c.uncertainty ≤ 10 * c.nominal → IsWithinRange c.nominal recorded
        → IsOwnRun c recorded own → IsAdapted (adaptor_exponent c.rate) (reverse own) means outputs
        → (delta : Fraction) × (greatest : Fraction) × (least : Fraction) × (output : Fraction) × (signal : Fraction)
        × CoversSignal c own means delta greatest least output signal }
    ensures half_periods { (c : Conditions) → 0 < c.nominal → c.uncertainty ≤ 10 * c.nominal
        → (width : ℕ) × CoversHalfPeriods c width }
{}

/// Recorded voltages have one result, where they are enough for the intervals that are judged.
pub fn result_is_one()
    ensures exists { (c : Conditions) (recorded : List Fraction) → AreSensible c → AreEnough c (length recorded)
        → (r : PhaseResult) × IsPhaseResult c recorded r }
    ensures unique { (c : Conditions) (recorded : List Fraction) (r s : PhaseResult)
        → IsPhaseResult c recorded r → IsPhaseResult c recorded s → r ≡ s }
{}

/// Its values are from 0 to 10^12, where no recorded voltage is over range, the uncertainty is at most a hundredth of
/// nominal, and there are fewer than 2^32 half-periods.
pub fn result_is_proper()
    ensures { (c : Conditions) (recorded : List Fraction) (r : PhaseResult) → AreSensible c
        → c.uncertainty ≤ 10 * c.nominal → IsWithinRange c.nominal recorded → r.halves < 2 ^ 32
        → IsPhaseResult c recorded r → IsProper r }
{}

/// A run that is long enough has quantities, and no run has two.
pub fn quantities_are_one()
    ensures exists { (c : Conditions) (recorded run : List Fraction) → AreSensible c → AreEnough c (length run)
        → (q : RunQuantities) × AreQuantities c recorded run q }
    ensures unique { (c : Conditions) (recorded run : List Fraction) (p q : RunQuantities)
        → AreQuantities c recorded run p → AreQuantities c recorded run q → p ≡ q }
{}

/// Recorded voltages that are enough admit an exact run that has quantities: so what a result promises is of some run.
pub fn some_run_is_admitted()
    ensures { (c : Conditions) (recorded : List Fraction) → AreSensible c → AreEnough c (length recorded)
        → (run : List Fraction) × (q : RunQuantities) × IsAdmittedRun (1000 * c.nominal) c.uncertainty recorded run
        × AreQuantities c recorded run q }
{}

/// The lamp and the rate decide the numbers of a certified filter, and so the digits of a result.
pub fn filter_is_one()
    ensures { (c d : Conditions) (w v : Whole) → c.lamp ≡ d.lamp → c.rate ≡ d.rate
        → IsCertifiedFilterOf c w → IsCertifiedFilterOf d v → c.filter ≡ d.filter }
{}
