//! The intervals of the three quantities, and what a change adds to them.

ghost use Rattle.std.specs.Prelude.{◌≡◌};
ghost use Rattle.std.specs.Int.{int_min, int_max};

use crate::ends::{greater, hull};
use crate::swings::Swings;
use flk_num::Interval;

/// The intervals of dc and dmax, in billionths of nominal, and of Tmax, in half-periods.
#[derive(Clone, Copy, Debug)]
pub(crate) struct Outcome {
    pub(crate) dc: Interval,
    pub(crate) dmax: Interval,
    pub(crate) t: Interval,
}

/// The outcome with one change more: the step between the steady windows at its ends, which is 0 for an open change,
/// and its half-periods.
pub(crate) fn with_change(outcome: Outcome, step: Interval, swings: Swings) -> Outcome
    ensures dc_low { result.dc.lo ≡ int_max outcome.dc.lo step.lo }
    ensures dc_high { result.dc.hi ≡ int_max outcome.dc.hi step.hi }
    ensures dmax_low { result.dmax.lo ≡ int_max (int_max outcome.dmax.lo step.lo) swings.furthest.lo }
    ensures dmax_high { result.dmax.hi ≡ int_max (int_max outcome.dmax.hi step.hi) swings.furthest.hi }
    ensures t_low { result.t.lo ≡ int_max outcome.t.lo swings.over.lo }
    ensures t_high { result.t.hi ≡ int_max outcome.t.hi swings.over.hi }
{
    Outcome {
        dc: greater(outcome.dc, step),
        dmax: greater(greater(outcome.dmax, step), swings.furthest),
        t: greater(outcome.t, swings.over),
    }
}

/// The least intervals that hold both.
pub(crate) fn joined(p: Outcome, q: Outcome) -> Outcome
    ensures dc_low { result.dc.lo ≡ int_min p.dc.lo q.dc.lo }
    ensures dc_high { result.dc.hi ≡ int_max p.dc.hi q.dc.hi }
    ensures dmax_low { result.dmax.lo ≡ int_min p.dmax.lo q.dmax.lo }
    ensures dmax_high { result.dmax.hi ≡ int_max p.dmax.hi q.dmax.hi }
    ensures t_low { result.t.lo ≡ int_min p.t.lo q.t.lo }
    ensures t_high { result.t.hi ≡ int_max p.t.hi q.t.hi }
{
    Outcome {
        dc: hull(p.dc, q.dc),
        dmax: hull(p.dmax, q.dmax),
        t: hull(p.t, q.t),
    }
}
