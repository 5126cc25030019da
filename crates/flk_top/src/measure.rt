//! From the samples of a channel to its levels.

ghost use Rattle.std.specs.Prelude.{◌≡◌, ◌+◌, ◌^◌, ◌<◌, ◌≤◌, List, [], ◌∷◌, ◌++◌, length, map, IfErr, OnOk, OnErr};
ghost use Rattle.std.specs.Int.{int_min, int_max};
ghost use Rattle.flk_exact.specs.Fraction.{Fraction};
ghost use Rattle.flk_scale.specs.Voltage.{IsOverRange};
ghost use Rattle.flk_scale.specs.Scale.{voltage_of, nominal_of, uncertainty_of};
ghost use Rattle.flk_scale.specs.Range.{IsFirstOver};
ghost use Rattle.flk_top.specs.Levels.{AreHalfPeriodLevels, Widens, Gains};

use crate::matching::Matched;
use flk_dat::Block;
use flk_half::Cutter;
use flk_num::Interval;
use flk_scale::OverRange;

/// The least and the greatest half-period value of a recording, each as the interval in billionths of nominal that
/// holds it for every run of exact voltages within the uncertainty.
#[derive(Clone, Copy, Debug)]
pub struct Extremes {
    pub least: Interval,
    pub greatest: Interval,
}

/// How many half-periods a recording has, and the extremes of their values where there is one.
#[derive(Clone, Copy, Debug)]
pub struct Levels {
    pub count: usize,
    pub extremes: Option<Extremes>,
}

// From the lesser lo to the lesser hi.
fn lesser(r: Interval, v: Interval) -> Interval
    ensures lo { result.lo ≡ int_min r.lo v.lo }
    ensures hi { result.hi ≡ int_min r.hi v.hi }
{
    Interval {
        lo: r.lo.min(v.lo),
        hi: r.hi.min(v.hi),
    }
}

// From the greater lo to the greater hi.
fn greater(r: Interval, v: Interval) -> Interval
    ensures lo { result.lo ≡ int_max r.lo v.lo }
    ensures hi { result.hi ≡ int_max r.hi v.hi }
{
    Interval {
        lo: r.lo.max(v.lo),
        hi: r.hi.max(v.hi),
    }
}

// The extremes with one half-period more.
fn widened(extremes: Option<Extremes>, value: Interval) -> Extremes
    ensures { Widens extremes value result }
{
    match extremes {
        None => Extremes {
            least: value,
            greatest: value,
        },
        Some(e) => Extremes {
            least: lesser(e.least, value),
            greatest: greater(e.greatest, value),
        },
    }
}

// The levels with one half-period more, where one ended.
fn with_half_period(levels: Levels, half_period: Option<Interval>) -> Levels
    requires { levels.count < 2 ^ 32 }
    ensures { Gains levels half_period result }
{
    match half_period {
        None => levels,
        Some(value) => Levels {
            count: levels.count + 1,
            extremes: Some(widened(levels.extremes, value)),
        },
    }
}

/// The levels of the samples of a channel that were taken so far.
#[derive(Clone, Copy, Debug)]
pub struct Measure {
    pub matched: Matched,
    /// The channel, from 0.
    pub channel: usize,
    /// How many samples were taken.
    pub taken: u32,
    pub cutter: Cutter,
    pub levels: Levels,
    pub ghost few: { levels.count ≤ taken },
}

impl Measure {
    ghost use Rattle.flk_top.specs.Measuring.{half_of, told_voltage, HasMeasured, IsSameMeasurement};

    /// Of no sample yet, for a channel, from 0.
    pub fn new(matched: Matched, channel: usize) -> Measure
        ensures nothing { HasMeasured result [] }
        ensures matched { result.matched ≡ matched }
        ensures channel { result.channel ≡ channel }
    {
        Measure {
            matched,
            channel,
            taken: 0,
            cutter: Cutter::new(matched.lamp.half_at(matched.rate)),
            levels: Levels {
                count: 0,
                extremes: None,
            },
        }
    }

    /// The levels of the samples taken.
    pub fn levels(&self) -> Levels
        requires { 0 < nominal_of self.now.matched.scale }
        ensures { (recorded : List Fraction) → HasMeasured self.now recorded
            → AreHalfPeriodLevels (half_of self.now.matched) (nominal_of self.now.matched.scale)
            (uncertainty_of self.now.matched.scale) recorded result }
    {
        self.levels
    }

    // Takes the next sample. The error is that its voltage is over range.
    fn sample(&mut self, x: i32) -> Result<(), OverRange>
        requires { self.old.taken + 1 < 2 ^ 32 }
        ensures same { IsSameMeasurement self.old self.new }
        ensures taken { OnOk result (self.new.taken ≡ self.old.taken + 1) }
        ensures measured { OnOk result ((recorded : List Fraction) → HasMeasured self.old recorded
            → HasMeasured self.new (recorded ++ voltage_of self.old.matched.scale x ∷ [])) }
        ensures over { OnErr result
            (IsOverRange (nominal_of self.old.matched.scale) (voltage_of self.old.matched.scale x)) }
        ensures unchanged { OnErr result (self.new ≡ self.old) }
    {
        let voltage = match self.matched.scale.voltage(x) {
            Ok(voltage) => voltage,
            Err(over) => return Err(over),
        };
        let negative = self.matched.scale.negative(x);
        let half_period = self.cutter.push(negative, voltage);
        self.taken += 1;
        self.levels = with_half_period(self.levels, half_period);
        Ok(())
    }

    /// Takes the records of a block, one sample of each. The error is the index of the first one whose voltage is over
    /// range, counted from 0 over all records taken.
    pub fn take(&mut self, block: &Block) -> Result<(), u32>
        requires channel { self.old.channel < block.now.analog }
        requires few { self.old.taken + length block.now.records < 2 ^ 32 }
        ensures same { IsSameMeasurement self.old self.new }
        ensures measured { OnOk result ((recorded : List Fraction) → HasMeasured self.old recorded
            → HasMeasured self.new (recorded ++ map (told_voltage self.old) block.now.records)) }
        ensures over { IfErr result (λ i. (recorded : List Fraction) → HasMeasured self.old recorded
            → IsFirstOver (nominal_of self.old.matched.scale)
            (recorded ++ map (told_voltage self.old) block.now.records) i) }
    {
        for row in 0..block.rows() {
            let Ok(()) = self.sample(block.analog(row, self.channel)) else {
                return Err(self.taken);
            };
        }
        Ok(())
    }
}
