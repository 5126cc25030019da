//! Quotients, rounded down and up. The numbers are in any units: a quotient is in the unit of the dividend over that of
//! the divisor.

ghost use Rattle.std.specs.Prelude.{◌≡◌, ◌+◌, ◌*◌, ◌^◌, ◌<◌, ◌≤◌, pos, ◌*ℤ◌, ◌≤ℤ◌, ◌<ℤ◌};
ghost use Rattle.std.specs.Int.RustNames.{unsigned_abs};
ghost use Rattle.flk_exact.specs.Rounding.{floor_of, ceil_of, IsFloor, IsCeil};

use crate::interval::Interval;

/// `a / b`, rounded down, for a positive `b`: the greatest whole number that is at most it.
pub fn floor_div(a: i128, b: i128) -> i128
    requires { pos 0 <ℤ b }
    ensures value { result ≡ floor_of a b }
    ensures rounding { IsFloor a b result }
{
    a.div_euclid(b)
}

/// `a / b`, rounded up, for a positive `b`: the least whole number that is at least it.
pub fn ceil_div(a: i128, b: i128) -> i128
    requires { pos 0 <ℤ b }
    ensures value { result ≡ ceil_of a b }
    ensures rounding { IsCeil a b result }
{
    let quotient = a.div_euclid(b);
    if a.rem_euclid(b) == 0 {
        quotient
    } else {
        quotient + 1
    }
}

// `a * 2^shift`.
fn shifted(a: i128, shift: u32) -> i128
    requires low { pos 0 ≤ℤ a }
    requires high { (a *ℤ pos (2 ^ shift)) <ℤ pos (2 ^ 126) }
    requires shift { shift ≤ 64 }
    ensures { result ≡ a *ℤ pos (2 ^ shift) }
{
    a << shift
}

/// The least of the quotients `x * 2^shift / y`, rounded down, and the greatest, rounded up, for every x of the
/// interval `a` and every y of `b`. `a` is not below 0 and `b` is positive; `shift` is at most 64, and `a.hi * 2^shift`
/// is below 2^126.
pub fn quotient_out(a: Interval, b: Interval, shift: u32) -> Interval
    requires a_low { pos 0 ≤ℤ a.lo }
    requires a_high { (a.hi *ℤ pos (2 ^ shift)) <ℤ pos (2 ^ 126) }
    requires b_low { pos 0 <ℤ b.lo }
    requires shift { shift ≤ 64 }
    ensures lo { result.lo ≡ floor_of (a.lo *ℤ pos (2 ^ shift)) b.hi }
    ensures hi { result.hi ≡ ceil_of (a.hi *ℤ pos (2 ^ shift)) b.lo }
    ensures lo_rounding { IsFloor (a.lo *ℤ pos (2 ^ shift)) b.hi result.lo }
    ensures hi_rounding { IsCeil (a.hi *ℤ pos (2 ^ shift)) b.lo result.hi }
{
    Interval {
        lo: floor_div(shifted(a.lo, shift), b.hi),
        hi: ceil_div(shifted(a.hi, shift), b.lo),
    }
}

// A whole quotient and what is left.
#[derive(Clone, Copy)]
struct Parts {
    quotient: u128,
    rest: u128,
}

// 2^32: a number below 2^64 has a high and a low half of 32 bits.
const HALF: u128 = 4_294_967_296;

// `m / den`, and what is left.
fn divide(m: u128, den: u128) -> Parts
    requires { 0 < den }
    ensures parts { result.quotient * den + result.rest ≡ m }
    ensures rest { result.rest < den }
{
    Parts {
        quotient: m / den,
        rest: m % den,
    }
}

// `m * num / den` by halves of `num`, where `m` is less than `den`: each product fits 128 bits.
fn divide_small(m: u128, num: u128, den: u128) -> Parts
    requires m_small { m < den }
    requires num_small { num < 2 ^ 64 }
    requires den_small { den < 2 ^ 96 }
    ensures parts { result.quotient * den + result.rest ≡ m * num }
    ensures rest { result.rest < den }
{
    let halves = divide(num, HALF);
    let high = divide(m * halves.quotient, den);
    let shifted = divide(high.rest * HALF, den);
    let low = divide(m * halves.rest, den);
    let end = divide(shifted.rest + low.rest, den);
    Parts {
        quotient: high.quotient * HALF + shifted.quotient + low.quotient + end.quotient,
        rest: end.rest,
    }
}

// `m * num / den`, whose product may need 190 bits.
fn divide_product(m: u128, num: u128, den: u128) -> Parts
    requires num_small { num < 2 ^ 64 }
    requires den_small { den < 2 ^ 96 }
    requires quotient_small { m * num < 2 ^ 126 * den }
    ensures parts { result.quotient * den + result.rest ≡ m * num }
    ensures rest { result.rest < den }
    ensures small { result.quotient < 2 ^ 126 }
{
    let whole = divide(m, den);
    let part = divide_small(whole.rest, num, den);
    Parts {
        quotient: whole.quotient * num + part.quotient,
        rest: part.rest,
    }
}

// A size as a signed number.
fn signed(m: u128) -> i128
    requires { m < 2 ^ 126 }
    ensures { result ≡ pos m }
{
    m as i128
}

/// `v * num / den`, rounded down, in the unit of `v`. `v` and the result are below 2^126 in size, `num` is from 0 to
/// below 2^64, and `den` is positive and below 2^96. The product may need 190 bits.
pub fn scaled_floor(v: i128, num: i128, den: i128) -> i128
    requires v_small { unsigned_abs v < 2 ^ 126 }
    requires num_low { pos 0 ≤ℤ num }
    requires num_high { num <ℤ pos (2 ^ 64) }
    requires den_low { pos 0 <ℤ den }
    requires den_high { den <ℤ pos (2 ^ 96) }
    requires result_small { unsigned_abs (floor_of (v *ℤ num) den) < 2 ^ 126 }
    ensures value { result ≡ floor_of (v *ℤ num) den }
    ensures rounding { IsFloor (v *ℤ num) den result }
{
    let parts = divide_product(v.unsigned_abs(), num.unsigned_abs(), den.unsigned_abs());
    let quotient = signed(parts.quotient);
    if 0 <= v {
        quotient
    } else if parts.rest == 0 {
        -quotient
    } else {
        -quotient - 1
    }
}

/// `v * num / den`, rounded up, in the unit of `v`, with the ranges of [`scaled_floor`].
pub fn scaled_ceil(v: i128, num: i128, den: i128) -> i128
    requires v_small { unsigned_abs v < 2 ^ 126 }
    requires num_low { pos 0 ≤ℤ num }
    requires num_high { num <ℤ pos (2 ^ 64) }
    requires den_low { pos 0 <ℤ den }
    requires den_high { den <ℤ pos (2 ^ 96) }
    requires result_small { unsigned_abs (ceil_of (v *ℤ num) den) < 2 ^ 126 }
    ensures value { result ≡ ceil_of (v *ℤ num) den }
    ensures rounding { IsCeil (v *ℤ num) den result }
{
    -scaled_floor(-v, num, den)
}
