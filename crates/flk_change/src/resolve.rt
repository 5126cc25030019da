//! All resolutions at once.
//!
//! What follows a steady window hangs on nothing before it but that window. So one pass stands for all resolutions
//! with the same last steady window, and after a Sure window there is one pass alone.

ghost use Rattle.std.specs.Prelude.{◌≡◌, ◌<◌, ◌≤◌, All};
ghost use Rattle.flk_num.specs.Values.{IsHalfPeriodRange};
ghost use Rattle.flk_change.specs.Steady.{AreFlags};
ghost use Rattle.flk_change.specs.Changes.{Dc, Dmax, Tmax};
ghost use Rattle.flk_change.specs.Resolutions.{doubtful_count, IsHull};
ghost use Rattle.flk_change.specs.Pass.{kept_before};

use crate::flag::Flag;
use crate::level::{Sums, slid};
use crate::outcome::Outcome;
use crate::pass::{START, ended, met};
use flk_num::Interval;

// How many of the passes stay before that of a window with this flag: none of them before a Sure one, all before a
// Doubtful one. None where the window is steady in no resolution.
fn kept(flag: Flag, count: usize) -> Option<usize>
    ensures { result ≡ kept_before flag count }
{
    match flag {
        Flag::Early | Flag::Not => None,
        Flag::Sure => Some(0),
        Flag::Doubtful => Some(count),
    }
}

/// The least intervals that hold those of every resolution, of at most six Doubtful flags. Takes no memory.
pub(crate) fn resolved(halves: &[Interval], flags: &[Flag], window: usize) -> Outcome
    requires some { 0 < window }
    requires few { window ≤ 240 }
    requires in_range { All IsHalfPeriodRange halves.now }
    requires flags { AreFlags window halves.now flags.now }
    requires most { doubtful_count flags.now ≤ 6 }
    ensures dc { IsHull Dc window halves.now flags.now result.dc }
    ensures dmax { IsHull Dmax window halves.now flags.now result.dmax }
    ensures t { IsHull Tmax window halves.now flags.now result.t }
{
    let mut passes = [START; 7];
    let mut count = 1;
    let mut sums = Sums { low: 0, high: 0 };
    for i in 0..halves.len() {
        sums = slid(sums, halves, i, window);
        if let Some(kept) = kept(flags[i], count) {
            passes[kept] = met(&passes[..count], halves, i, window, sums);
            count = kept + 1;
        }
    }
    ended(&passes[..count], halves)
}
