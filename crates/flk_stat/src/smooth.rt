//! The squaring and smoothing, sample by sample.

ghost use Rattle.std.specs.Prelude.{◌≡◌, ◌^◌, ◌<◌, ◌≤◌, List, [], ◌∷◌, pos, ◌+ℤ◌, ◌≤ℤ◌, ◌<ℤ◌};
ghost use Rattle.std.specs.Int.RustNames.{unsigned_abs};
ghost use Rattle.std.specs.List.{All, AllZip};
ghost use Rattle.flk_exact.specs.Fraction.{Fraction, ◌≤ℚ◌, units};
ghost use Rattle.flk_num.specs.declared.rate.Rate.TheVariants as rates;
ghost use Rattle.flk_num.specs.Rate.{smoothing_number};
ghost use Rattle.flk_num.specs.Interval.{Holds};
ghost use Rattle.flk_front.specs.declared.point.Point.{Point as PointView};
ghost use Rattle.flk_front.specs.Front.{IsWithin};
ghost use Rattle.flk_stat.specs.Smoothing.{AreLevels};
ghost use Rattle.flk_stat.specs.Rounded.{level_after as level_after_points, IsLevel};
ghost use Rattle.flk_stat.specs.Width.{BoundsRadius, IsSpread};

use crate::ends::{Ends, level_after, scaled_squares};
use flk_front::Point;
use flk_num::{Interval, Rate};

// What a sample counts for, over 2^32.
#[inline(always)]
fn number_at(rate: Rate) -> u64
    ensures value { result ≡ smoothing_number rate }
    ensures small { result ≤ 2 ^ 32 }
{
    match rate {
        Rate::R2400 => 5_965_232,
        Rate::R4800 => 2_982_616,
    }
}

// The ends as an interval.
#[inline(always)]
fn interval_of(ends: Ends) -> Interval
    requires ordered { ends.lo ≤ ends.hi }
    requires small { ends.hi < 2 ^ 93 }
    ensures { IsLevel ends result }
{
    Interval {
        lo: ends.lo as i128,
        hi: ends.hi as i128,
    }
}

/// The squaring multiplier and the sliding mean of IEC 61000-4-15, block 4, with a time constant of 300 ms.
#[derive(Clone, Copy, Debug)]
pub struct Smooth {
    rate: Rate,
    // The level after the newest sample, in units of 2^-48.
    level: Ends,
    ghost ordered: { level.lo ≤ level.hi },
    ghost small: { level.hi < 2 ^ 93 },
}

impl Smooth {
    ghost use Rattle.flk_stat.specs.Smooth.{Stands, rate_of};

    /// The smoothing at 2400 samples a second, before its first sample. Its level is 0.
    pub fn new() -> Smooth
        ensures rate { rate_of result ≡ rates.R2400 }
        ensures stands { Stands result [] }
    {
        Smooth::at(Rate::R2400)
    }

    /// The smoothing at a sampling rate, before its first sample. Its level is 0.
    pub fn at(rate: Rate) -> Smooth
        ensures rate { rate_of result ≡ rate }
        ensures stands { Stands result [] }
    {
        Smooth {
            rate,
            level: Ends { lo: 0, hi: 0 },
        }
    }

    /// Takes the next point of the weighted signal, in units of 2^-48, and answers the interval of the level after it,
    /// in the same unit. The radius is not below 0, and the size of the mid and the radius are together below 2^61. The
    /// ends of the answer are from 0 to below 2^93. Takes no memory.
    ///
    /// The interval holds the exact level of every signal that lies in the points taken. Where a bound holds for their
    /// radii, it is no wider than that allows.
    #[inline(always)]
    pub fn step(&mut self, w: Point) -> Interval
        requires radius { pos 0 ≤ℤ w.radius }
        requires small { (pos (unsigned_abs w.mid) +ℤ w.radius) <ℤ pos (2 ^ 61) }
        ensures rate { rate_of self.new ≡ rate_of self.old }
        ensures stands { (ws : List PointView) → Stands self.old ws → Stands self.new (w ∷ ws) }
        ensures level { (ws : List PointView) → Stands self.old ws
            → IsLevel (level_after_points (smoothing_number (rate_of self.old)) (w ∷ ws)) result }
        ensures low { pos 0 ≤ℤ result.lo }
        ensures high { result.hi <ℤ pos (2 ^ 93) }
        ensures holds { (ws : List PointView) (xs ps : List Fraction) (p : Fraction) → Stands self.old ws
            → AllZip IsWithin (w ∷ ws) xs → AreLevels (smoothing_number (rate_of self.old)) xs (p ∷ ps)
            → Holds result p }
        ensures narrow { (ws : List PointView) (bound : Fraction) → Stands self.old ws → units (pos (2 ^ 24)) ≤ℚ bound
            → All (BoundsRadius bound) (w ∷ ws) → IsSpread bound result }
    {
        self.level = level_after(number_at(self.rate), self.level, scaled_squares(w));
        interval_of(self.level)
    }
}
