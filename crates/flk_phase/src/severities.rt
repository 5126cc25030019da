//! The severities of a channel, interval by interval.

ghost use Rattle.std.specs.Prelude.{◌≡◌, ℕ, ◌^◌, ◌<◌, ◌≤◌, List, [], ◌∷◌, ◌++◌, length, IfOk, IfSome, IfNone, pos, ◌≤ℤ◌, ◌<ℤ◌};
ghost use Rattle.std.specs.List.{All};
ghost use Rattle.flk_num.specs.declared.interval.Interval.{Interval as IntervalView};
ghost use Rattle.flk_num.specs.Interval.{lows as lows_of, highs as highs_of};
ghost use Rattle.flk_stat.specs.Levels.{room_of};
ghost use Rattle.flk_result.specs.Digits.{IsLongTermEnds};
ghost use Rattle.flk_result.specs.PhaseResult.{IsJudgeable};

use flk_change::OutOfMemory;
use flk_num::{Interval, crosses_threads};
use flk_stat::{Levels, plt};
use std::alloc::Global;

// The intervals of which a long-term severity is made.
const TWELVE: u8 = 12;

const ZERO: Interval = Interval { lo: 0, hi: 0 };

// The lower ends of twelve intervals.
fn lows(values: &[Interval; 12]) -> [i128; 12]
    requires { length values.now ≡ 12 }
    ensures { result ≡ lows_of values.now }
{
    let mut ends = [0; 12];
    for i in 0..12 {
        ends[i] = values[i].lo;
    }
    ends
}

// The upper ends of twelve intervals.
fn highs(values: &[Interval; 12]) -> [i128; 12]
    requires { length values.now ≡ 12 }
    ensures { result ≡ highs_of values.now }
{
    let mut ends = [0; 12];
    for i in 0..12 {
        ends[i] = values[i].hi;
    }
    ends
}

/// The severities of the intervals whose levels came so far, and the levels of the next interval.
#[derive(Drop)]
pub(crate) struct Severities {
    levels: Levels,
    // The samples of the run-in that are still to come.
    run_in: u32,
    // The intervals that are judged, and those that were.
    count: u8,
    done: u8,
    pst: [Interval; 12],
    ghost room: { 0 < room_of levels },
    ghost within: { done ≤ count },
    ghost few: { count ≤ 12 },
    ghost twelve: { length pst ≡ 12 },
    ghost judgeable: { All IsJudgeable pst },
}

impl Severities {
    ghost use Rattle.flk_phase.specs.Severities.{Gains, Ends, severities_in, count_of, StandsFor};

    /// Before the first level, for a run-in and intervals of so many samples, of which so many are judged. The error
    /// comes only where no memory is found.
    pub(crate) fn new(
        alloc: Global,
        run_in: u32,
        interval: u32,
        count: u8,
    ) -> Result<Severities, OutOfMemory>
        requires interval { 1 ≤ interval }
        requires count { count ≤ 12 }
        ensures stands { IfOk result (λ s. StandsFor s run_in interval count []) }
    {
        Ok(Severities {
            levels: Levels::new(alloc, interval as usize)?,
            run_in,
            count,
            done: 0,
            pst: [ZERO; 12],
        })
    }

    // Adds a level to those of an interval, and answers the interval's severity where it was the last one.
    #[inline(always)]
    fn with_level(levels: &mut Levels, level: Interval) -> Option<Interval>
        requires room { 0 < room_of levels.old }
        requires low { pos 0 ≤ℤ level.lo }
        requires high { level.hi <ℤ pos (2 ^ 93) }
        ensures room { 0 < room_of levels.new }
        ensures none { IfNone result (Gains levels.old levels.new level) }
        ensures some { IfSome result (λ v. Ends levels.old levels.new level v) }
    {
        levels.add(level);
        if levels.room() > 0 {
            return None;
        }
        Some(levels.end())
    }

    /// Takes the level of the next sample, an interval from 0 to below 2^93 in units of 2^-48. The levels of the run-in
    /// and those behind the last interval are not judged. Takes no memory.
    #[inline(always)]
    pub(crate) fn push(&mut self, level: Interval)
        requires low { pos 0 ≤ℤ level.lo }
        requires high { level.hi <ℤ pos (2 ^ 93) }
        ensures stands { (run_in interval count : ℕ) (levels : List IntervalView)
            → StandsFor self.old run_in interval count levels
            → StandsFor self.new run_in interval count (levels ++ level ∷ []) }
    {
        if self.run_in > 0 {
            self.run_in -= 1;
            return;
        }
        if self.done == self.count {
            return;
        }
        if let Some(severity) = Severities::with_level(&mut self.levels, level) {
            self.pst[self.done as usize] = severity;
            self.done += 1;
        }
    }

    /// The severities of the intervals, in billionths from 0 to 10^12. Those that have none yet are 0.
    pub(crate) fn severities(&self) -> [Interval; 12]
        ensures { result ≡ severities_in self.now }
    {
        self.pst
    }

    /// The long-term severity in billionths, from 0 to 10^12, of twelve intervals: None where fewer are judged.
    pub(crate) fn long_term(&self) -> Option<Interval>
        ensures { IsLongTermEnds (count_of self.now) (severities_in self.now) result }
    {
        if self.count < TWELVE {
            return None;
        }
        let lo = plt(&lows(&self.pst));
        let hi = plt(&highs(&self.pst));
        Some(Interval { lo, hi })
    }
}

// The severities can be handed to another thread, and be seen by several at once.
fn severities_cross_threads(severities: &Severities) {
    crosses_threads(severities);
}
