//! The sums of a window that slides over the half-periods, and the level of a window.

ghost use Rattle.std.specs.Prelude.{◌≡◌, ◌+◌, ◌*◌, ◌<◌, ◌≤◌, All, length, pos, ◌≤ℤ◌};
ghost use Rattle.flk_exact.specs.Rounding.{floor_of};
ghost use Rattle.flk_num.specs.Values.{IsHalfPeriodRange};
ghost use Rattle.flk_change.specs.Pass.{AreSums};

use flk_num::Interval;

/// The sums of the lower and of the upper ends of a window's half-periods, in billionths of nominal.
#[derive(Clone, Copy, Debug)]
pub(crate) struct Sums {
    pub(crate) low: i128,
    pub(crate) high: i128,
}

/// The sums with half-period `i` more, and without the one that leaves the window.
pub(crate) fn slid(sums: Sums, halves: &[Interval], i: usize, window: usize) -> Sums
    requires within { i < length halves.now }
    requires some { 0 < window }
    requires few { window ≤ 240 }
    requires in_range { All IsHalfPeriodRange halves.now }
    requires sums { AreSums window halves.now i sums }
    ensures { AreSums window halves.now (i + 1) result }
{
    let entering = halves[i];
    let low = sums.low + entering.lo;
    let high = sums.high + entering.hi;
    if i < window {
        return Sums { low, high };
    }
    let leaving = halves[i - window];
    Sums {
        low: low - leaving.lo,
        high: high - leaving.hi,
    }
}

// The mean of so many numbers, rounded down.
fn mean(sum: i128, window: usize) -> i128
    requires some { 0 < window }
    requires few { window ≤ 240 }
    requires low { pos 0 ≤ℤ sum }
    requires high { sum ≤ℤ pos (10000000000 * window) }
    ensures { result ≡ floor_of sum (pos window) }
{
    // both fit, and a quotient of 64 bits is much faster than one of 128
    i128::from(sum as u64 / window as u64)
}

/// The means of a window of so many half-periods, rounded down.
pub(crate) fn level_of(sums: Sums, window: usize) -> Interval
    requires some { 0 < window }
    requires few { window ≤ 240 }
    requires low { pos 0 ≤ℤ sums.low }
    requires ordered { sums.low ≤ℤ sums.high }
    requires high { sums.high ≤ℤ pos (10000000000 * window) }
    ensures low { result.lo ≡ floor_of sums.low (pos window) }
    ensures high { result.hi ≡ floor_of sums.high (pos window) }
    ensures in_range { IsHalfPeriodRange result }
{
    Interval {
        lo: mean(sums.low, window),
        hi: mean(sums.high, window),
    }
}
