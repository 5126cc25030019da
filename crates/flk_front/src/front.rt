//! The adaptor and the squaring, sample by sample.

ghost use Rattle.std.specs.Prelude.{◌≡◌, ◌*◌, ◌^◌, ◌≤◌, List, [], ◌∷◌, pos, ◌≤ℤ◌};
ghost use Rattle.flk_exact.specs.Fraction.{Fraction, ◌≤ℚ◌, units};
ghost use Rattle.flk_num.specs.declared.interval.Interval.{Interval as VoltageInterval};
ghost use Rattle.flk_num.specs.Interval.{HoldEach, IsSmall};
ghost use Rattle.flk_num.specs.Rate.{adaptor_exponent};
ghost use Rattle.flk_num.specs.declared.rate.Rate.TheVariants as rates;
ghost use Rattle.flk_front.specs.Adaptor.{IsAdapted};
ghost use Rattle.flk_front.specs.Rounded.{newest_output, IsPoint};
ghost use Rattle.flk_front.specs.Width.{AreClose, CoversOutput};

use crate::ends::{Ends, divisor, mean_after, quotients, rounded_squares};
use crate::point::Point;
use flk_num::{Interval, Rate, crosses_threads};

// A sample counts for one part in 2 to this in the mean.
fn exponent_at(rate: Rate) -> u32
    ensures value { result ≡ adaptor_exponent rate }
    ensures low { 16 ≤ result }
    ensures high { result ≤ 17 }
{
    match rate {
        Rate::R2400 => 16,
        Rate::R4800 => 17,
    }
}

// The point of two ends.
#[inline(always)]
fn point_of(ends: Ends) -> Point
    requires ordered { ends.lo ≤ ends.hi }
    requires small { ends.hi ≤ 66 * 2 ^ 48 }
    ensures { IsPoint ends result }
{
    let mid = (ends.lo + ends.hi) >> 1;
    Point {
        mid: mid as i128,
        radius: (ends.hi - mid) as i128,
    }
}

/// The input voltage adaptor and the squaring multiplier of IEC 61000-4-15, at one sampling rate.
#[derive(Clone, Copy, Debug)]
pub struct Front {
    exponent: u32,
    // The mean of the squares, in units of 2^-64.
    mean: Ends,
    ghost exponent_low: { 16 ≤ exponent },
    ghost exponent_high: { exponent ≤ 17 },
    ghost ordered: { mean.lo ≤ mean.hi },
    ghost small: { mean.hi ≤ 17 * 2 ^ 64 },
}

impl Front {
    ghost use Rattle.flk_front.specs.Front.{exponent_of, Stands, IsWithin};

    /// The front of no sample yet, at 2400 samples a second.
    pub fn new() -> Front
        ensures exponent { exponent_of result ≡ adaptor_exponent rates.R2400 }
        ensures stands { Stands result [] }
    {
        Front::at(Rate::R2400)
    }

    /// The front of no sample yet, at a sampling rate. Its mean is that of nominal voltages; the time constant of the
    /// mean is about 27.3 s at either rate.
    pub fn at(rate: Rate) -> Front
        ensures exponent { exponent_of result ≡ adaptor_exponent rate }
        ensures stands { Stands result [] }
    {
        let one = 1 << 64;
        Front {
            exponent: exponent_at(rate),
            mean: Ends { lo: one, hi: one },
        }
    }

    /// Takes the interval of the next voltage, in units of 2^-48 of nominal with ends of at most 4.02 times nominal
    /// in size, and answers the point of its output: the square divided by the running mean of the squares before it,
    /// which counts for at least a quarter. Both `mid` and `radius` are in units of 2^-48, from 0 to 66 times 2^48.
    ///
    /// The point holds the exact output of every run of voltages that lie in the intervals taken. Where the ends of
    /// the intervals are near the voltages, the radius is at most the stated bound.
    #[inline(always)]
    pub fn push(&mut self, v: Interval) -> Point
        requires { IsSmall v }
        ensures exponent { exponent_of self.new ≡ exponent_of self.old }
        ensures stands { (vs : List VoltageInterval) → Stands self.old vs → Stands self.new (v ∷ vs) }
        ensures point { (vs : List VoltageInterval) → Stands self.old vs
            → IsPoint (newest_output (exponent_of self.old) vs v) result }
        ensures mid_low { pos 0 ≤ℤ result.mid }
        ensures mid_high { result.mid ≤ℤ pos (66 * 2 ^ 48) }
        ensures radius_low { pos 0 ≤ℤ result.radius }
        ensures radius_high { result.radius ≤ℤ pos (66 * 2 ^ 48) }
        ensures enclosure { (vs : List VoltageInterval) (us means ys : List Fraction) (y : Fraction)
            → Stands self.old vs
            → HoldEach (v ∷ vs) us → IsAdapted (exponent_of self.old) us means (y ∷ ys) → IsWithin result y }
        ensures width { (vs : List VoltageInterval) (us means ys : List Fraction) (delta a r w : Fraction)
            → Stands self.old vs
            → IsAdapted (exponent_of self.old) us means ys → AreClose delta a r (v ∷ vs) us means
            → CoversOutput delta a r w → units result.radius ≤ℚ w }
    {
        let squares = rounded_squares(v);
        let output = quotients(squares, divisor(self.mean));
        self.mean = mean_after(self.exponent, self.mean, squares);
        point_of(output)
    }
}

// A front can be handed to another thread, and seen by several at once.
fn front_crosses_threads(front: &Front) {
    crosses_threads(front);
}
