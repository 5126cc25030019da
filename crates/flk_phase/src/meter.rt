//! The flickermeter of IEC 61000-4-15 up to its block 4, sample by sample.

ghost use Rattle.std.specs.Prelude.{◌≡◌, ◌^◌, List, [], ◌∷◌, ◌++◌, pos, ◌≤ℤ◌, ◌<ℤ◌};
ghost use Rattle.flk_num.specs.declared.interval.Interval.{Interval as IntervalView};
ghost use Rattle.flk_num.specs.Interval.{IsSmall};
ghost use Rattle.flk_num.specs.Rate.{adaptor_exponent};
ghost use Rattle.flk_front.specs.declared.point.Point.{Point as PointView};
ghost use Rattle.flk_front.specs.Front.{exponent_of};
ghost use Rattle.flk_section.specs.Points.{IsPointInRange};
ghost use Rattle.flk_stat.specs.Smooth.{rate_of as rate_of_smooth};

use flk_front::{Front, Point};
use flk_num::{Interval, Rate, crosses_threads};
use flk_section::{Cascade, Whole};
use flk_stat::Smooth;

/// The input voltage adaptor with the squaring multiplier, the weighting filter, and the squaring with the sliding
/// mean, one behind the other.
#[derive(Clone, Copy)]
pub(crate) struct Meter {
    front: Front,
    cascade: Cascade,
    smooth: Smooth,
    ghost one_rate: { exponent_of front ≡ adaptor_exponent (rate_of_smooth smooth) },
}

impl Meter {
    ghost use Rattle.flk_phase.specs.Meter.{rate_of, whole_of, StandsFor, StandsAhead};

    /// Of no sample yet, at a sampling rate, with this bound of the weighting filter and the gains that it holds.
    pub(crate) fn new(rate: Rate, whole: Whole) -> Meter
        ensures rate { rate_of result ≡ rate }
        ensures whole { whole_of result ≡ whole }
        ensures stands { StandsFor result [] [] }
    {
        Meter {
            front: Front::at(rate),
            cascade: Cascade::new(whole),
            smooth: Smooth::at(rate),
        }
    }

    /// Takes the interval of the next voltage, in units of 2^-48 of nominal with ends of at most 4.02 times nominal in
    /// size, and answers the adaptor's point, which waits for the weighting filter from then on. Takes no memory.
    #[inline(always)]
    pub(crate) fn adapt(&mut self, voltage: Interval) -> Point
        requires { IsSmall voltage }
        ensures rate { rate_of self.new ≡ rate_of self.old }
        ensures whole { whole_of self.new ≡ whole_of self.old }
        ensures ahead { (voltages levels : List IntervalView) (waiting : List PointView)
            → StandsAhead self.old voltages waiting levels
            → StandsAhead self.new (voltage ∷ voltages) (result ∷ waiting) levels }
        ensures point { IsPointInRange result }
    {
        self.front.push(voltage)
    }

    /// Takes the oldest point that waits through the weighting filter and the smoothing, and answers the interval of
    /// the level after it, in units of 2^-48. Its ends are from 0 to below 2^93. Takes no memory.
    #[inline(always)]
    pub(crate) fn weigh(&mut self, point: Point) -> Interval
        requires { IsPointInRange point }
        ensures rate { rate_of self.new ≡ rate_of self.old }
        ensures whole { whole_of self.new ≡ whole_of self.old }
        ensures ahead { (voltages levels : List IntervalView) (waiting : List PointView)
            → StandsAhead self.old voltages (waiting ++ point ∷ []) levels
            → StandsAhead self.new voltages waiting (result ∷ levels) }
        ensures low { pos 0 ≤ℤ result.lo }
        ensures high { result.hi <ℤ pos (2 ^ 93) }
    {
        let answer = self.cascade.step(point);
        self.smooth.step(answer)
    }
}

// The flickermeter can be handed to another thread, and be seen by several at once.
fn meter_crosses_threads(meter: &Meter) {
    crosses_threads(meter);
}
