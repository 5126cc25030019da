//! The half-periods of one change.

ghost use Rattle.std.specs.Prelude.{◌≡◌, ◌≤◌, All, length, cond, int_lt, pos};
ghost use Rattle.flk_num.specs.Values.{IsHalfPeriodRange};
ghost use Rattle.flk_change.specs.Pass.{AreSwings};

use crate::ends::distance;
use flk_num::Interval;

/// The limit of Tmax: 3.3 percent, in billionths of nominal.
const EXCESS_LIMIT: i128 = 33_000_000;

/// How far the half-periods of a change go from the level before it.
#[derive(Clone, Copy, Debug)]
pub(crate) struct Swings {
    // The greatest distance, in billionths of nominal.
    pub(crate) furthest: Interval,
    // How many are more than 3.3 percent away: for certain, and at most.
    pub(crate) over: Interval,
}

// 1 where the distance is above the limit.
fn counted(distance: i128) -> usize
    ensures { result ≡ cond (int_lt (pos 33000000) distance) 1 0 }
{
    if EXCESS_LIMIT < distance { 1 } else { 0 }
}

/// The half-periods from `first` to before `stop`, against a level.
pub(crate) fn swings_of(halves: &[Interval], first: usize, stop: usize, level: Interval) -> Swings
    requires within { stop ≤ length halves.now }
    requires in_range { All IsHalfPeriodRange halves.now }
    requires level { IsHalfPeriodRange level }
    ensures { AreSwings halves.now level first stop result }
{
    let mut low: i128 = 0;
    let mut high: i128 = 0;
    let mut certain = 0;
    let mut possible = 0;
    for i in first..stop {
        let away = distance(halves[i], level);
        low = low.max(away.lo);
        high = high.max(away.hi);
        certain += counted(away.lo);
        possible += counted(away.hi);
    }
    Swings {
        furthest: Interval { lo: low, hi: high },
        over: Interval {
            lo: certain as i128,
            hi: possible as i128,
        },
    }
}
