//! The rounded steps of the adaptor: each takes two ends and answers two ends.

ghost use Rattle.std.specs.Prelude.{◌≡◌, ◌*◌, ◌/◌, ◌^◌, ◌<◌, ◌≤◌};
ghost use Rattle.std.specs.Int.{div_ceil};
ghost use Rattle.flk_num.specs.Interval.{IsSmall};
ghost use Rattle.flk_front.specs.Rounded.{squares_of, next_mean, divisor_of, output_of};

use flk_num::{Interval, exact_squares, whole_near};

/// A lower and an upper end, in one unit.
#[derive(Clone, Copy, Debug, PartialEq, Eq)]
pub struct Ends {
    pub lo: u128,
    pub hi: u128,
}

// 2^62, a quarter in units of 2^-64.
const QUARTER: u128 = 4_611_686_018_427_387_904;

/// The least and the greatest square of a voltage of `v`, in units of 2^-48, rounded down and up.
#[inline(always)]
pub fn rounded_squares(v: Interval) -> Ends
    requires { IsSmall v }
    ensures value { result ≡ squares_of v }
    ensures ordered { result.lo ≤ result.hi }
    ensures small { 2 * result.hi ≤ 33 * 2 ^ 48 }
{
    let squares = exact_squares(v);
    Ends {
        lo: u128::from((squares.least >> 48) as u64),
        hi: u128::from(squares.greatest.div_ceil(1 << 48) as u64),
    }
}

// `x / 2^exponent`, rounded up. (A division by a number that isn't known beforehand would take long.)
#[inline(always)]
fn part_up(x: u128, exponent: u32) -> u128
    requires small { x ≤ 17 * 2 ^ 64 }
    requires exponent { exponent ≤ 17 }
    ensures { result ≡ div_ceil x (2 ^ exponent) }
{
    (x + ((1 << exponent) - 1)) >> exponent
}

// The mean after a sample. Each call writes the exponent out: shifts by a number that is known are quicker.
#[inline(always)]
fn mean_with(exponent: u32, mean: Ends, squares: Ends) -> Ends
    requires exponent_low { 16 ≤ exponent }
    requires exponent_high { exponent ≤ 17 }
    requires ordered { mean.lo ≤ mean.hi }
    requires small { mean.hi ≤ 17 * 2 ^ 64 }
    requires squares_ordered { squares.lo ≤ squares.hi }
    requires squares_small { 2 * squares.hi ≤ 33 * 2 ^ 48 }
    ensures value { result ≡ next_mean exponent mean squares }
    ensures ordered { result.lo ≤ result.hi }
    ensures small { result.hi ≤ 17 * 2 ^ 64 }
{
    let least = squares.lo >> (exponent - 16);
    let greatest = part_up(squares.hi, exponent - 16);
    Ends {
        lo: mean.lo - part_up(mean.lo, exponent) + least,
        hi: mean.hi - (mean.hi >> exponent) + greatest,
    }
}

/// The mean after a sample with these squares, in units of 2^-64. A sample counts for one part in 2^exponent.
#[inline(always)]
pub fn mean_after(exponent: u32, mean: Ends, squares: Ends) -> Ends
    requires exponent_low { 16 ≤ exponent }
    requires exponent_high { exponent ≤ 17 }
    requires ordered { mean.lo ≤ mean.hi }
    requires small { mean.hi ≤ 17 * 2 ^ 64 }
    requires squares_ordered { squares.lo ≤ squares.hi }
    requires squares_small { 2 * squares.hi ≤ 33 * 2 ^ 48 }
    ensures value { result ≡ next_mean exponent mean squares }
    ensures ordered { result.lo ≤ result.hi }
    ensures small { result.hi ≤ 17 * 2 ^ 64 }
{
    if exponent == 16 {
        mean_with(16, mean, squares)
    } else {
        mean_with(17, mean, squares)
    }
}

/// By which a square is divided: the mean, and at least a quarter, in units of 2^-64.
#[inline(always)]
pub fn divisor(mean: Ends) -> Ends
    requires ordered { mean.lo ≤ mean.hi }
    requires small { mean.hi ≤ 17 * 2 ^ 64 }
    ensures value { result ≡ divisor_of mean }
    ensures low { 2 ^ 62 ≤ result.lo }
    ensures ordered { result.lo ≤ result.hi }
    ensures small { result.hi ≤ 17 * 2 ^ 64 }
{
    Ends {
        lo: mean.lo.max(QUARTER),
        hi: mean.hi.max(QUARTER),
    }
}

// A square of units of 2^-48 in units of 2^-112, so that its quotient by units of 2^-64 is in units of 2^-48.
#[inline(always)]
fn dividend(square: u64) -> u128
    ensures { result ≡ square * 2 ^ 64 }
{
    u128::from(square) << 64
}

const TWO_TO_52: f64 = 4503599627370496.0;

const TWO_TO_47: f64 = 140737488355328.0;

// A whole number near `square * 2^64 / divisor`, by arithmetic in double precision. Nothing rests on how near: what its
// product leaves of the dividend tells whether it is the quotient.
#[inline(always)]
fn guess(square: u64, divisor: u128) -> u64
    requires square_small { 2 * square ≤ 33 * 2 ^ 48 }
    requires divisor_small { divisor ≤ 17 * 2 ^ 64 }
    ensures { result < 2 ^ 52 }
{
    // The divisor's low bits are left out, so that a double holds the rest.
    let quotient = if divisor >> 65 == 0 {
        square as i64 as f64 * TWO_TO_52 / (divisor >> 12) as i64 as f64
    } else {
        square as i64 as f64 * TWO_TO_47 / (divisor >> 17) as i64 as f64
    };
    whole_near(quotient)
}

// `square * 2^64 / divisor`, rounded down.
#[inline(always)]
fn quotient_down(square: u64, divisor: u128) -> u64
    requires square_small { 2 * square ≤ 33 * 2 ^ 48 }
    requires divisor_low { 2 ^ 62 ≤ divisor }
    requires divisor_small { divisor ≤ 17 * 2 ^ 64 }
    ensures { result ≡ square * 2 ^ 64 / divisor }
{
    let dividend = dividend(square);
    let guess = guess(square, divisor);
    let product = u128::from(guess) * divisor;
    if product <= dividend {
        if dividend - product < divisor {
            return guess;
        }
    } else if product - dividend <= divisor {
        return guess - 1;
    }
    (dividend / divisor) as u64
}

// `square * 2^64 / divisor`, rounded up.
#[inline(always)]
fn quotient_up(square: u64, divisor: u128) -> u64
    requires square_small { 2 * square ≤ 33 * 2 ^ 48 }
    requires divisor_low { 2 ^ 62 ≤ divisor }
    requires divisor_small { divisor ≤ 17 * 2 ^ 64 }
    ensures { result ≡ div_ceil (square * 2 ^ 64) divisor }
{
    let dividend = dividend(square);
    let guess = guess(square, divisor);
    let product = u128::from(guess) * divisor;
    if product < dividend {
        if dividend - product <= divisor {
            return guess + 1;
        }
    } else if product - dividend < divisor {
        return guess;
    }
    dividend.div_ceil(divisor) as u64
}

/// The quotients of the squares and the divisor, in units of 2^-48, rounded down and up.
#[inline(always)]
pub fn quotients(squares: Ends, divisor: Ends) -> Ends
    requires ordered { squares.lo ≤ squares.hi }
    requires small { 2 * squares.hi ≤ 33 * 2 ^ 48 }
    requires divisor_low { 2 ^ 62 ≤ divisor.lo }
    requires divisor_ordered { divisor.lo ≤ divisor.hi }
    requires divisor_small { divisor.hi ≤ 17 * 2 ^ 64 }
    ensures value { result ≡ output_of squares divisor }
    ensures ordered { result.lo ≤ result.hi }
    ensures small { result.hi ≤ 66 * 2 ^ 48 }
{
    Ends {
        lo: u128::from(quotient_down(squares.lo as u64, divisor.hi)),
        hi: u128::from(quotient_up(squares.hi as u64, divisor.lo)),
    }
}
