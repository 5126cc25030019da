//! Intervals taken end by end.

ghost use Rattle.std.specs.Prelude.{◌≡◌};
ghost use Rattle.std.specs.Int.{int_min, int_max};
ghost use Rattle.flk_num.specs.Values.{IsHalfPeriodRange};
ghost use Rattle.flk_change.specs.Resolutions.{least_distance, greatest_distance};

use flk_num::Interval;

/// The interval of 0.
pub(crate) const ZERO: Interval = Interval { lo: 0, hi: 0 };

/// Nominal voltage, in billionths of itself.
pub(crate) const NOMINAL: Interval = Interval {
    lo: 1_000_000_000,
    hi: 1_000_000_000,
};

/// How far a number of `p` and one of `q` are apart, at least and at most.
pub(crate) fn distance(p: Interval, q: Interval) -> Interval
    requires first { IsHalfPeriodRange p }
    requires second { IsHalfPeriodRange q }
    ensures low { result.lo ≡ least_distance p.lo p.hi q.lo q.hi }
    ensures high { result.hi ≡ greatest_distance p.lo p.hi q.lo q.hi }
{
    Interval {
        lo: 0i128.max((p.lo - q.hi).max(q.lo - p.hi)),
        hi: (p.hi - q.lo).max(q.hi - p.lo),
    }
}

/// From the greater lo to the greater hi.
pub(crate) fn greater(p: Interval, q: Interval) -> Interval
    ensures low { result.lo ≡ int_max p.lo q.lo }
    ensures high { result.hi ≡ int_max p.hi q.hi }
{
    Interval {
        lo: p.lo.max(q.lo),
        hi: p.hi.max(q.hi),
    }
}

/// The least interval that holds both.
pub(crate) fn hull(p: Interval, q: Interval) -> Interval
    ensures low { result.lo ≡ int_min p.lo q.lo }
    ensures high { result.hi ≡ int_max p.hi q.hi }
{
    Interval {
        lo: p.lo.min(q.lo),
        hi: p.hi.max(q.hi),
    }
}
