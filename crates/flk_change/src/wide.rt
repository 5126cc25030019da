//! The wide intervals, where the doubt is not resolved.

ghost use Rattle.std.specs.Prelude.{◌<◌, All, length};
ghost use Rattle.flk_exact.specs.Extreme.{IsLeast, IsGreatest};
ghost use Rattle.flk_num.specs.Interval.{lows, highs};
ghost use Rattle.flk_num.specs.Values.{IsHalfPeriodRange};
ghost use Rattle.flk_change.specs.Resolutions.{AreWide};

use crate::ends::{NOMINAL, distance, hull};
use crate::outcome::Outcome;
use flk_num::Interval;

// The least lo and the greatest hi.
fn span(halves: &[Interval]) -> Interval
    requires { 0 < length halves.now }
    ensures low { IsLeast (lows halves.now) result.lo }
    ensures high { IsGreatest (highs halves.now) result.hi }
{
    let mut all = halves[0];
    for v in halves {
        all = hull(all, *v);
    }
    all
}

/// Intervals from 0 that hold dc, dmax and Tmax whichever windows are steady.
pub(crate) fn wide(halves: &[Interval]) -> Outcome
    requires some { 0 < length halves.now }
    requires in_range { All IsHalfPeriodRange halves.now }
    ensures { AreWide halves.now result.dc result.dmax result.t }
{
    let all = span(halves);
    let width = all.hi - all.lo;
    Outcome {
        dc: Interval { lo: 0, hi: width },
        dmax: Interval {
            lo: 0,
            hi: width.max(distance(all, NOMINAL).hi),
        },
        t: Interval {
            lo: 0,
            hi: halves.len() as i128,
        },
    }
}
