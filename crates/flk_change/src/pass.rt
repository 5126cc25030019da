//! One pass over the half-periods for all resolutions that have the same last steady window.

ghost use Rattle.std.specs.Prelude.{◌≡◌, ℕ, ◌+◌, ◌<◌, ◌≤◌, true, List, All, length};
ghost use Rattle.flk_num.specs.Interval.{lows, highs};
ghost use Rattle.flk_num.specs.Values.{IsHalfPeriodRange};
ghost use Rattle.flk_change.specs.declared.flag.Flag.{Flag as FlagView};
ghost use Rattle.flk_change.specs.Changes.{level as level_at};
ghost use Rattle.flk_change.specs.Resolutions.{AreResolved};
ghost use Rattle.flk_change.specs.Pass.{AreSums, closed_number, all_number, AreHulls, HasLast, HasNext, MayResolve, HasPassed, HavePassed, IsPassInRange};

use crate::ends::{NOMINAL, ZERO, distance};
use crate::level::{Sums, level_of};
use crate::outcome::{Outcome, joined, with_change};
use crate::swings::swings_of;
use flk_num::Interval;

/// How far a pass has come.
#[derive(Clone, Copy, Debug)]
pub(crate) struct Pass {
    // After how many half-periods the last steady window ends; 0 where none was steady.
    pub(crate) last: usize,
    // The level from which the change after it is reckoned: its own, or nominal where none was steady.
    pub(crate) before: Interval,
    // Of the changes that are over: the least intervals that hold those of every such resolution.
    pub(crate) outcome: Outcome,
}

/// Before the first half-period.
pub(crate) const START: Pass = Pass {
    last: 0,
    before: NOMINAL,
    outcome: Outcome {
        dc: ZERO,
        dmax: ZERO,
        t: ZERO,
    },
};

// The outcome of a pass with the change that the steady window of half-period `i` ends, where one stands before it.
fn with_closed(pass: Pass, halves: &[Interval], i: usize, window: usize, level: Interval) -> Outcome
    requires within { i < length halves.now }
    requires fits { window ≤ i + 1 }
    requires in_range { All IsHalfPeriodRange halves.now }
    requires before { IsHalfPeriodRange pass.before }
    requires level { IsHalfPeriodRange level }
    requires low { level.lo ≡ level_at window (lows halves.now) (i + 1) }
    requires high { level.hi ≡ level_at window (highs halves.now) (i + 1) }
    ensures { (flags : List FlagView) → MayResolve flags i true → HasPassed window halves.now flags i pass
        → AreHulls window halves.now (HasNext flags i pass.last)
        (closed_number window (length halves.now) (i + 1)) result }
{
    if pass.last == 0 {
        return pass.outcome;
    }
    if i <= pass.last {
        return pass.outcome;
    }
    let part = swings_of(halves, pass.last, i + 1 - window, pass.before);
    with_change(pass.outcome, distance(level, pass.before), part)
}

/// The pass whose last steady window ends with half-period `i`, which follows from those before it. Takes no memory.
pub(crate) fn met(passes: &[Pass], halves: &[Interval], i: usize, window: usize, sums: Sums) -> Pass
    requires any { 0 < length passes.now }
    requires before { All IsPassInRange passes.now }
    requires within { i < length halves.now }
    requires some { 0 < window }
    requires few { window ≤ 240 }
    requires fits { window ≤ i + 1 }
    requires in_range { All IsHalfPeriodRange halves.now }
    requires sums { AreSums window halves.now (i + 1) sums }
    ensures last { result.last ≡ i + 1 }
    ensures passed { (flags : List FlagView) → MayResolve flags i true
        → HavePassed window halves.now flags i passes.now → HasPassed window halves.now flags (i + 1) result }
{
    let level = level_of(sums, window);
    let mut outcome = with_closed(passes[0], halves, i, window, level);
    for k in 1..passes.len() {
        outcome = joined(outcome, with_closed(passes[k], halves, i, window, level));
    }
    Pass {
        last: i + 1,
        before: level,
        outcome,
    }
}

// The outcome of a pass with the change that is open at the end.
fn with_open(pass: Pass, halves: &[Interval]) -> Outcome
    requires before { IsPassInRange pass }
    requires in_range { All IsHalfPeriodRange halves.now }
    ensures { (window : ℕ) (flags : List FlagView) → HasPassed window halves.now flags (length halves.now) pass
        → AreHulls window halves.now (HasLast flags (length halves.now) pass.last)
        (all_number window (length halves.now)) result }
{
    with_change(
        pass.outcome,
        ZERO,
        swings_of(halves, pass.last, halves.len(), pass.before),
    )
}

/// What the passes tell at the end of the half-periods. Takes no memory.
pub(crate) fn ended(passes: &[Pass], halves: &[Interval]) -> Outcome
    requires any { 0 < length passes.now }
    requires before { All IsPassInRange passes.now }
    requires in_range { All IsHalfPeriodRange halves.now }
    ensures { (window : ℕ) (flags : List FlagView)
        → HavePassed window halves.now flags (length halves.now) passes.now
        → AreHulls window halves.now (AreResolved flags) (all_number window (length halves.now)) result }
{
    let mut outcome = with_open(passes[0], halves);
    for k in 1..passes.len() {
        outcome = joined(outcome, with_open(passes[k], halves));
    }
    outcome
}
