//! The scale of a channel.

ghost use Rattle.std.specs.Prelude.{◌≡◌, ◌↔◌, ◌+◌, ◌*◌, ◌^◌, ◌<◌, ◌≤◌, IfOk, OnOk, OnErr, IfErr, IsTrue, ℤ, pos, neg_ℤ, ◌+ℤ◌, ◌-ℤ◌, ◌*ℤ◌};
ghost use Rattle.std.specs.Int.RustNames.{unsigned_abs};
ghost use Rattle.flk_exact.specs.Fraction.{Fraction, ◌-ℚ◌, units};
ghost use Rattle.flk_exact.specs.Run.{IsAdmitted, CoversDoubt};
ghost use Rattle.flk_num.specs.Interval.{Holds, IsNarrow, IsNear, IsSmall};
ghost use Rattle.flk_scale.specs.Unit.{microvolts};
ghost use Rattle.flk_scale.specs.Parts.{dividend, IsShare};
ghost use Rattle.flk_scale.specs.Slope.{divisor_of, step_dividend};
ghost use Rattle.flk_scale.specs.Samples.{AreSamplesBetween};

use crate::parts::{Parts, scaled};
use crate::samples::{Samples, negated, samples_between};
use crate::slope::{Slope, share_of};
use crate::supply::Supply;
use crate::unit::{VoltageUnit, unit_of};
use flk_cfg::Analog;
use flk_num::{Interval, crosses_threads};

/// Why a channel has no scale.
#[derive(Clone, Copy, Debug, PartialEq, Eq)]
pub enum ScaleFault {
    /// Its unit isn't `V` or `kV`, in letters of any case.
    Unit,
    /// Its multiplier or its offset is above 10000 in size.
    Scale,
}

/// A sample whose recorded voltage is above four times nominal in size.
#[derive(Clone, Copy, Debug, PartialEq, Eq)]
pub struct OverRange;

/// Turns the samples of a channel into intervals of voltages, in units of 2^-48 of nominal.
#[derive(Clone, Copy, Debug)]
pub struct Scale {
    supply: Supply,
    unit: VoltageUnit,
    // The channel's multiplier and offset, in units of 10^-24.
    factor: i128,
    offset: i128,
    // `2^48 * factor` over nominal.
    slope: Slope,
    // `2^48` times the voltage of the least sample of 32 bits, less and with the uncertainty, over nominal.
    low: Parts,
    high: Parts,
    // The shares of their rests.
    low_share: u64,
    high_share: u64,
    // The samples that are within range, and those that are negative.
    within: Samples,
    negative: Samples,
    ghost factor_small: { unsigned_abs factor ≤ 10000 * 10 ^ 24 },
    ghost offset_small: { unsigned_abs offset ≤ 10000 * 10 ^ 24 },
    ghost nominal_is: { divisor_of slope * microvolts unit ≡ 1000 * supply.nominal_mv * 10 ^ 24 },
    ghost slope_is: { step_dividend slope ≡ factor *ℤ pos (2 ^ 48) },
    ghost low_is: { dividend low (divisor_of slope) *ℤ pos (microvolts unit)
        ≡ ((offset -ℤ factor *ℤ pos (2 ^ 31)) *ℤ pos (microvolts unit) -ℤ pos (supply.uncertainty_uv * 10 ^ 24))
        *ℤ pos (2 ^ 48) },
    ghost high_is: { dividend high (divisor_of slope) *ℤ pos (microvolts unit)
        ≡ ((offset -ℤ factor *ℤ pos (2 ^ 31)) *ℤ pos (microvolts unit) +ℤ pos (supply.uncertainty_uv * 10 ^ 24))
        *ℤ pos (2 ^ 48) },
    ghost low_rest: { low.rest < divisor_of slope },
    ghost high_rest: { high.rest < divisor_of slope },
    ghost low_share_is: { IsShare low.rest (divisor_of slope) low_share },
    ghost high_share_is: { IsShare high.rest (divisor_of slope) high_share },
    ghost low_small: { unsigned_abs low.quotient ≤ 2 ^ 110 },
    ghost high_small: { unsigned_abs high.quotient ≤ 2 ^ 110 },
    ghost within_is: { AreSamplesBetween factor offset (neg_ℤ (pos (4 * divisor_of slope)))
        (pos (4 * divisor_of slope)) within },
    ghost negative_is: { AreSamplesBetween factor offset (neg_ℤ (pos (2 ^ 125))) (neg_ℤ (pos 1)) negative },
}

// 2^31: the least sample of 32 bits is -2^31.
const TWO_TO_31: i128 = 2_147_483_648;

// How far a sample is above the least one of 32 bits.
#[inline(always)]
fn index_of(x: i32) -> u32
    ensures { pos result ≡ x +ℤ pos (2 ^ 31) }
{
    (i64::from(x) + 2_147_483_648) as u32
}

fn signed(n: u128) -> i128
    requires { n < 2 ^ 93 }
    ensures { result ≡ pos n }
{
    n as i128
}

// What the least sample of 32 bits stands for, in units of 10^-24.
fn start_of(factor: i128, offset: i128) -> i128
    requires factor { unsigned_abs factor ≤ 10000 * 10 ^ 24 }
    requires offset { unsigned_abs offset ≤ 10000 * 10 ^ 24 }
    ensures value { result ≡ offset -ℤ factor *ℤ pos (2 ^ 31) }
    ensures small { unsigned_abs result < 2 ^ 124 + 2 ^ 123 }
{
    offset - factor * TWO_TO_31
}

// Whether a number of units of 10^-24 is at most 10000 in size.
fn is_small(n: i128) -> bool
    ensures { IsTrue result ↔ (unsigned_abs n ≤ 10000 * 10 ^ 24) }
{
    n.unsigned_abs() <= 10_000_000_000_000_000_000_000_000_000
}

// No voltage of a sample of 32 bits is below it: -2^125.
const LEAST: i128 = -42_535_295_865_117_307_932_921_825_928_971_026_432;

impl Scale {
    ghost use Rattle.flk_scale.specs.Voltage.{IsOverRange, IsVoltageInterval, IsRelative, greatest_voltage, is_below_zero, voltage_on_line};
    ghost use Rattle.flk_scale.specs.Scale.{HasScale, HasNoScale, IsScaleOf, voltage_of, nominal_of, uncertainty_of};

    /// The scale of a channel and a supply.
    ///
    /// `Unit` exactly where the channel's unit isn't `V` or `kV`, in letters of any case. Else `Scale` exactly where
    /// the channel's a or b is above 10000 in size. Takes no memory.
    pub fn new(channel: &Analog, supply: &Supply) -> Result<Scale, ScaleFault>
        ensures has { OnOk result (HasScale channel.now) }
        ensures scale { IfOk result (IsScaleOf channel.now supply.now) }
        ensures fault { IfErr result (HasNoScale channel.now) }
    {
        let Some(unit) = unit_of(channel.uu.as_slice()) else {
            return Err(ScaleFault::Unit);
        };
        if !is_small(channel.a.n) || !is_small(channel.b.n) {
            return Err(ScaleFault::Scale);
        }
        Ok(Scale::made(unit, channel.a.n, channel.b.n, *supply))
    }

    // The scale of a channel that has one.
    fn made(unit: VoltageUnit, factor: i128, offset: i128, supply: Supply) -> Scale
        requires factor { unsigned_abs factor ≤ 10000 * 10 ^ 24 }
        requires offset { unsigned_abs offset ≤ 10000 * 10 ^ 24 }
        ensures voltage { (x : ℤ) → voltage_of result x ≡ voltage_on_line factor offset (microvolts unit) x }
        ensures nominal { nominal_of result ≡ supply.nominal_mv }
        ensures uncertainty { uncertainty_of result ≡ supply.uncertainty_uv }
    {
        let divisor = unit.nominal(supply);
        let reach = signed(unit.uncertainty(supply));
        let limit = signed(4 * divisor);
        let start = start_of(factor, offset);
        let low = scaled(start - reach, divisor);
        let high = scaled(start + reach, divisor);
        Scale {
            supply,
            unit,
            factor,
            offset,
            slope: Slope::new(factor, divisor),
            low,
            high,
            low_share: share_of(low.rest, divisor),
            high_share: share_of(high.rest, divisor),
            within: samples_between(factor, offset, negated(limit), limit),
            negative: samples_between(factor, offset, LEAST, -1),
        }
    }

    /// The interval of a sample's voltages in units of 2^-48 of nominal, and OverRange exactly where the recorded
    /// voltage (`a * x + b` by IEEE C37.111-1999, clause 5.3) is above four times nominal in size. Takes no memory.
    ///
    /// The ends are the recorded voltage less the uncertainty, rounded down, and with it, rounded up, both over
    /// nominal.
    #[inline(always)]
    pub fn voltage(&self, x: i32) -> Result<Interval, OverRange>
        ensures over { OnErr result (IsOverRange (nominal_of self.now) (voltage_of self.now x)) }
        ensures within { OnOk result (¬ IsOverRange (nominal_of self.now) (voltage_of self.now x)) }
        ensures interval { IfOk result
            (IsVoltageInterval (nominal_of self.now) (uncertainty_of self.now) (voltage_of self.now x)) }

        // It holds every exact voltage that the sample admits, is narrow, its ends are near the recorded voltage, and
        // they are at most 4.01 times nominal in size, rounded up.
        ensures holds { IfOk result (λ v. (u : Fraction)
            → IsAdmitted (1000 * nominal_of self.now) (uncertainty_of self.now) (voltage_of self.now x) u → Holds v u) }
        ensures narrow { IfOk result (λ v. (delta : Fraction)
            → CoversDoubt (1000 * nominal_of self.now) (uncertainty_of self.now) delta → IsNarrow delta v) }
        ensures near { IfOk result (λ v. (u delta : Fraction)
            → IsRelative (nominal_of self.now) (voltage_of self.now x) u
            → CoversDoubt (1000 * nominal_of self.now) (uncertainty_of self.now) delta
            → IsNear (delta -ℚ units (pos 1)) v u) }
        ensures ends { IfOk result (λ v. (unsigned_abs v.lo ≤ greatest_voltage)
            × (unsigned_abs v.hi ≤ greatest_voltage)) }
        ensures small { IfOk result IsSmall }
    {
        if !self.within.has(x) {
            return Err(OverRange);
        }
        Ok(self.interval(x))
    }

    /// Whether the voltage that a sample records is negative. Takes no memory.
    #[inline(always)]
    pub fn negative(&self, x: i32) -> bool
        ensures { result ≡ is_below_zero (voltage_of self.now x) }
    {
        self.negative.has(x)
    }

    // The interval of any sample's voltages.
    #[inline(always)]
    fn interval(&self, x: i32) -> Interval
        ensures { IsVoltageInterval (nominal_of self.now) (uncertainty_of self.now) (voltage_of self.now x) result }
    {
        let index = index_of(x);
        Interval {
            lo: self.slope.sum_down(index, &self.low, self.low_share),
            hi: self.slope.sum_up(index, &self.high, self.high_share),
        }
    }
}

// A scale can be handed to another thread, and used by several at once.
fn scale_crosses_threads(scale: &Scale) {
    crosses_threads(scale);
}
