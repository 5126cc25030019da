//! The voltage changes of all half-periods.

ghost use Rattle.std.specs.Prelude.{◌≡◌, ◌^◌, ◌<◌, ◌≤◌, All, length};
ghost use Rattle.flk_num.specs.Values.{IsHalfPeriodRange};
ghost use Rattle.flk_change.specs.Steady.{AreFlags};
ghost use Rattle.flk_change.specs.Changes.{Quantity, Dc, Dmax};
ghost use Rattle.flk_change.specs.Resolutions.{doubtful_count, IsHull, AreWide, HoldsEachList, KeepsQuantityWidth, KeepsCount, KeepsSwings, AreNearLimit, interval_of};

use crate::flag::{Flag, count_doubtful};
use crate::resolve::resolved;
use crate::wide::wide;
use flk_num::Interval;

/// The quantities of IEC 61000-3-3 (clause 5) that are judged by voltage changes, as intervals.
#[derive(Clone, Copy, Debug, PartialEq, Eq)]
pub struct ChangeSummary {
    /// The maximum steady-state voltage change, in billionths of nominal.
    pub dc: Interval,
    /// The maximum absolute voltage change, in billionths of nominal.
    pub dmax: Interval,
    /// Tmax: the most half-periods of one change, added up, at which the voltage is more than 3.3 percent from the
    /// level before.
    pub t: Interval,
    /// How many flags are Doubtful.
    pub doubtful: u32,
}

/// The most Doubtful flags that are resolved.
const MOST_RESOLVED: u32 = 6;

/// dc, dmax and Tmax of IEC 61000-3-3 (clauses 3 and 4.1) from all half-periods of a recording and their flags, with
/// the window for which [`Steady`] gave them, from 1 to 240 half-periods. The half-periods are intervals in
/// billionths of nominal, from 0 to 10^10, and fewer than 2^32.
///
/// With up to six Doubtful flags each answer is the least interval that holds those of every way to take the Doubtful
/// windows, as steady or as not steady. With more it is a wide interval from 0. Takes no memory. Its time grows with
/// the half-periods: each change between two windows that may be steady is judged once.
///
/// [`Steady`]: crate::Steady
pub fn changes(halves: &[Interval], flags: &[Flag], window: usize) -> ChangeSummary
    requires low { 1 ≤ window }
    requires high { window ≤ 240 }
    requires few { length halves.now < 2 ^ 32 }
    requires in_range { All IsHalfPeriodRange halves.now }
    requires flags { AreFlags window halves.now flags.now }
    ensures doubtful { result.doubtful ≡ doubtful_count flags.now }

    // Up to six Doubtful flags: the least interval over all resolutions. More: the wide intervals.
    ensures resolved { (quantity : Quantity) → result.doubtful ≤ 6
        → IsHull quantity window halves.now flags.now (interval_of quantity result) }
    ensures wide { 6 < result.doubtful → AreWide halves.now result.dc result.dmax result.t }

    // Every list of exact values within the intervals, however many flags are Doubtful.
    ensures encloses { (quantity : Quantity) → HoldsEachList quantity window halves.now (interval_of quantity result) }

    // How wide the intervals of one resolution are, and what a Doubtful window is.
    ensures dc_width { KeepsQuantityWidth Dc window halves.now flags.now }
    ensures dmax_width { KeepsQuantityWidth Dmax window halves.now flags.now }
    ensures t_width { KeepsCount window halves.now flags.now }
    ensures swing_width { KeepsSwings window halves.now flags.now }
    ensures near { AreNearLimit window halves.now flags.now }
{
    let doubtful = count_doubtful(flags);
    let outcome = if doubtful <= MOST_RESOLVED {
        resolved(halves, flags, window)
    } else {
        wide(halves)
    };
    ChangeSummary {
        dc: outcome.dc,
        dmax: outcome.dmax,
        t: outcome.t,
        doubtful,
    }
}
