//! Products of samples with one quotient.

ghost use Rattle.std.specs.Prelude.{◌≡◌, ◌+◌, ◌*◌, ◌/◌, ◌%◌, ◌^◌, ◌<◌, ◌≤◌, IfSome, pos, ◌+ℤ◌, ◌*ℤ◌};
ghost use Rattle.std.specs.Int.RustNames.{unsigned_abs};
ghost use Rattle.flk_exact.specs.Rounding.{IsFloor, IsCeil};
ghost use Rattle.flk_scale.specs.Parts.{dividend, IsShare};

use crate::parts::{Parts, scaled, sum_down, sum_up};

/// `2^48 * a / divisor` for some a, and how many times a number of 32 bits it is.
///
/// How many divisors a product's rest and another rest have is told by their shares of the divisor, in units of 2^-64,
/// unless the sum of these is so near a whole that the bits beyond them count. Then the rests are taken themselves: the
/// product's rest has as many divisors as its share tells or one more. So no product costs a division.
#[derive(Clone, Copy, Debug)]
pub struct Slope {
    divisor: u128,
    step: Parts,
    share: u64,
    ghost divisor_high: { divisor < 2 ^ 90 },
    ghost step_small: { unsigned_abs step.quotient ≤ 2 ^ 74 },
    ghost step_rest: { step.rest < divisor },
    ghost share_is: { IsShare step.rest divisor share },
}

/// A rest's share of the divisor, in units of 2^-64, rounded down: by two divisions of numbers below 2^122.
pub fn share_of(rest: u128, divisor: u128) -> u64
    requires rest { rest < divisor }
    requires divisor { divisor < 2 ^ 90 }
    ensures { IsShare rest divisor result }
{
    let high = rest * 4_294_967_296;
    let low = (high % divisor) * 4_294_967_296;
    ((high / divisor) * 4_294_967_296 + low / divisor) as u64
}

#[inline(always)]
fn product(index: u32, quotient: i128) -> i128
    requires { unsigned_abs quotient ≤ 2 ^ 74 }
    ensures value { result ≡ pos index *ℤ quotient }
    ensures small { unsigned_abs result ≤ 2 ^ 106 }
{
    i128::from(index) * quotient
}

// What a product leaves over so many divisors.
fn left_over(index: u32, rest: u128, carried: u64, divisor: u128) -> u128
    requires rest { rest < 2 ^ 90 }
    requires within { carried * divisor ≤ index * rest }
    ensures { result + carried * divisor ≡ index * rest }
{
    u128::from(index) * rest - u128::from(carried) * divisor
}

// 2^64 - 2^32. A sum of shares is too low by less than 2^32 units, as each of them is by less than one. So where its
// fraction is above this, the rests may have one divisor more than it tells.
const SURE: u64 = 18_446_744_069_414_584_320;

const TWO_TO_64: u128 = 18_446_744_073_709_551_616;

// The sum of so many shares of one rest and of another rest's share.
#[inline(always)]
fn shares(index: u32, share: u64, other: u64) -> u128
    ensures value { result ≡ index * share + other }
    ensures small { result < 2 ^ 97 }
{
    u128::from(index) * u128::from(share) + u128::from(other)
}

// What a sum of shares has beyond its whole divisors.
#[inline(always)]
fn fraction_of(shares: u128) -> u64
    ensures { result ≡ shares % 2 ^ 64 }
{
    (shares % TWO_TO_64) as u64
}

// How many divisors some rests have whole, by the sum of their shares, or None where it doesn't tell.
#[inline(always)]
fn whole_by_shares(shares: u128) -> Option<u64>
    requires { shares < 2 ^ 97 }
    ensures within { IfSome result (λ n. n * 2 ^ 64 ≤ shares) }
    ensures greatest { IfSome result (λ n. shares + 2 ^ 32 ≤ n * 2 ^ 64 + 2 ^ 64) }
{
    if fraction_of(shares) > SURE {
        return None;
    }
    Some((shares >> 64) as u64)
}

// How many divisors some rests need, by the sum of their shares, or None where it doesn't tell.
#[inline(always)]
fn needed_by_shares(shares: u128) -> Option<u64>
    requires { shares < 2 ^ 97 }
    ensures within { IfSome result (λ n. shares + 2 ^ 32 ≤ n * 2 ^ 64) }
    ensures least { IfSome result (λ n. n * 2 ^ 64 < shares + 2 ^ 64) }
{
    let fraction = fraction_of(shares);
    if fraction == 0 || fraction > SURE {
        return None;
    }
    Some((shares >> 64) as u64 + 1)
}

// The whole part of `index * share / 2^64`.
fn estimate(index: u32, share: u64) -> u64
    ensures { result ≡ index * share / 2 ^ 64 }
{
    ((u128::from(index) * u128::from(share)) >> 64) as u64
}

impl Slope {
    ghost use Rattle.flk_scale.specs.Slope.{step_dividend, divisor_of};

    /// The slope of a number of units of 10^-24, at most 10000 in size.
    pub fn new(a: i128, divisor: u128) -> Slope
        requires some { 2 ^ 69 ≤ divisor }
        requires high { divisor < 2 ^ 90 }
        requires small { unsigned_abs a ≤ 10000 * 10 ^ 24 }
        ensures step { step_dividend result ≡ a *ℤ pos (2 ^ 48) }
        ensures divisor { divisor_of result ≡ divisor }
    {
        let step = scaled(a, divisor);
        Slope {
            divisor,
            step,
            share: share_of(step.rest, divisor),
        }
    }

    // The product of a number with the slope. Its rest is below twice the divisor.
    fn at(&self, index: u32) -> Parts
        ensures parts { dividend result (divisor_of self.now) ≡ pos index *ℤ step_dividend self.now }
        ensures rest { result.rest < 2 * divisor_of self.now }
        ensures small { unsigned_abs result.quotient ≤ 2 ^ 110 }
    {
        let carried = estimate(index, self.share);
        Parts {
            quotient: product(index, self.step.quotient) + i128::from(carried),
            rest: left_over(index, self.step.rest, carried, self.divisor),
        }
    }

    // The sum of a product and a quotient, rounded down, by the rests.
    #[cold]
    #[inline(never)]
    fn sum_down_by_rests(&self, index: u32, q: &Parts) -> i128
        requires small { unsigned_abs q.now.quotient ≤ 2 ^ 110 }
        requires rest { q.now.rest < divisor_of self.now }
        ensures { IsFloor (pos index *ℤ step_dividend self.now +ℤ dividend q.now (divisor_of self.now))
            (pos (divisor_of self.now)) result }
    {
        sum_down(self.at(index), *q, self.divisor)
    }

    // The same sum, rounded up.
    #[cold]
    #[inline(never)]
    fn sum_up_by_rests(&self, index: u32, q: &Parts) -> i128
        requires small { unsigned_abs q.now.quotient ≤ 2 ^ 110 }
        requires rest { q.now.rest < divisor_of self.now }
        ensures { IsCeil (pos index *ℤ step_dividend self.now +ℤ dividend q.now (divisor_of self.now))
            (pos (divisor_of self.now)) result }
    {
        sum_up(self.at(index), *q, self.divisor)
    }

    /// The sum of a number's product with the slope and a quotient, whose rest has this share of the divisor, rounded
    /// down.
    #[inline(always)]
    pub fn sum_down(&self, index: u32, q: &Parts, share: u64) -> i128
        requires small { unsigned_abs q.now.quotient ≤ 2 ^ 110 }
        requires rest { q.now.rest < divisor_of self.now }
        requires share { IsShare q.now.rest (divisor_of self.now) share }
        ensures { IsFloor (pos index *ℤ step_dividend self.now +ℤ dividend q.now (divisor_of self.now))
            (pos (divisor_of self.now)) result }
    {
        match whole_by_shares(shares(index, self.share, share)) {
            Some(count) => product(index, self.step.quotient) + q.quotient + i128::from(count),
            None => self.sum_down_by_rests(index, q),
        }
    }

    /// The same sum, rounded up.
    #[inline(always)]
    pub fn sum_up(&self, index: u32, q: &Parts, share: u64) -> i128
        requires small { unsigned_abs q.now.quotient ≤ 2 ^ 110 }
        requires rest { q.now.rest < divisor_of self.now }
        requires share { IsShare q.now.rest (divisor_of self.now) share }
        ensures { IsCeil (pos index *ℤ step_dividend self.now +ℤ dividend q.now (divisor_of self.now))
            (pos (divisor_of self.now)) result }
    {
        match needed_by_shares(shares(index, self.share, share)) {
            Some(count) => product(index, self.step.quotient) + q.quotient + i128::from(count),
            None => self.sum_up_by_rests(index, q),
        }
    }
}
