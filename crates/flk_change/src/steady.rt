//! Steady windows, one half-period after the other.

ghost use Rattle.std.specs.Prelude.{◌≡◌, ℕ, ◌+◌, ◌-◌, ◌^◌, ◌<◌, ◌≤◌, [], ◌∷◌, ◌++◌, List, length, IfOk, IfSome};
ghost use Rattle.flk_num.specs.declared.interval.Interval.{Interval as IntervalView};
ghost use Rattle.flk_change.specs.declared.flag.Flag.{Flag as FlagView};
ghost use Rattle.flk_num.specs.Values.{IsHalfPeriodRange};
ghost use Rattle.flk_change.specs.Extreme.{pushed};

use crate::OutOfMemory;
use crate::extreme::Extreme;
use crate::extremes::{Extremes, flag_of};
use crate::flag::Flag;
use flk_num::Interval;
use std::alloc::Global;

/// What the newest half-periods of one window come to: the extremes of their ends, each without a look at all of them.
#[derive(Drop)]
pub struct Steady {
    window: usize,
    count: u32,
    // The least of some numbers is the greatest of them with their signs turned.
    least_low: Extreme,
    greatest_low: Extreme,
    least_high: Extreme,
    greatest_high: Extreme,
    ghost least_low_counted: { pushed least_low ≡ count },
    ghost greatest_low_counted: { pushed greatest_low ≡ count },
    ghost least_high_counted: { pushed least_high ≡ count },
    ghost greatest_high_counted: { pushed greatest_high ≡ count },
}

impl Steady {
    ghost use Rattle.flk_change.specs.Steady.{Stands, IsFlag, AreFlags, taken};
    ghost use Rattle.flk_change.specs.Extremes.{AreExtremesOfWindow, AreSmall};

    /// For windows of so many half-periods, from 1 to 240. One second has 100 at 50 Hz and 120 at 60 Hz. The error
    /// comes only where no memory is found.
    pub fn new(alloc: Global, window: usize) -> Result<Steady, OutOfMemory>
        requires low { 1 ≤ window }
        requires high { window ≤ 240 }
        ensures stands { IfOk result (λ s. Stands s window []) }
        ensures taken { IfOk result (λ s. taken s ≡ 0) }
    {
        Ok(Steady {
            window,
            count: 0,
            least_low: Extreme::new(alloc, window)?,
            greatest_low: Extreme::new(alloc, window)?,
            least_high: Extreme::new(alloc, window)?,
            greatest_high: Extreme::new(alloc, window)?,
        })
    }

    /// Takes the next half-period, an interval in billionths of nominal from 0 to 10^10, and answers the flag of the
    /// window that ends with it. Fewer than 2^32 - 1 may come before it. Takes no memory. (IEC 61000-3-3, clause 3: a
    /// steady state lasts one second.)
    pub fn push(&mut self, half: Interval) -> Flag
        requires in_range { IsHalfPeriodRange half }
        requires few { taken self.old < 2 ^ 32 - 1 }
        ensures taken { taken self.new ≡ taken self.old + 1 }
        ensures stands { (window : ℕ) (halves : List IntervalView) → Stands self.old window halves
            → Stands self.new window (halves ++ half ∷ []) }
        ensures flag { (window : ℕ) (halves : List IntervalView) → Stands self.old window halves
            → IsFlag window (halves ++ half ∷ []) (length halves + 1) result }
        ensures flags { (window : ℕ) (halves : List IntervalView) (flags : List FlagView)
            → Stands self.old window halves → AreFlags window halves flags
            → AreFlags window (halves ++ half ∷ []) (flags ++ result ∷ []) }
    {
        self.count += 1;
        self.least_low.push(-half.lo);
        self.greatest_low.push(half.lo);
        self.least_high.push(-half.hi);
        self.greatest_high.push(half.hi);
        self.newest_flag()
    }

    // The flag of the window that ends with the newest half-period.
    fn newest_flag(&self) -> Flag
        ensures { (window : ℕ) (halves : List IntervalView) → Stands self.now window halves → 0 < length halves
            → IsFlag window halves (length halves) result }
    {
        if (self.count as usize) < self.window {
            return Flag::Early;
        }
        match self.extremes() {
            Some(extremes) => flag_of(extremes),
            None => Flag::Early,
        }
    }

    // The extremes of the newest half-periods; None where none was taken.
    fn extremes(&self) -> Option<Extremes>
        ensures extremes { (window : ℕ) (halves : List IntervalView) → Stands self.now window halves
            → AreExtremesOfWindow window halves result }
        ensures small { IfSome result AreSmall }
    {
        Some(Extremes {
            least_low: -self.least_low.greatest()?,
            greatest_low: self.greatest_low.greatest()?,
            least_high: -self.least_high.greatest()?,
            greatest_high: self.greatest_high.greatest()?,
        })
    }
}
