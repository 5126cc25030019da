//! The squares of an interval.

ghost use Rattle.std.specs.Prelude.{ℕ, ◌*◌, ◌^◌, ◌<◌, ◌≤◌, ◌≡◌, pos, neg_ℤ};
ghost use Rattle.std.specs.Int.{int_max};
ghost use Rattle.std.specs.Int.RustNames.{unsigned_abs};
ghost use Rattle.flk_num.specs.Square.{AreSquares, least_size, greatest_size};

use crate::interval::Interval;

fn word(x: i128) -> i64
    requires { unsigned_abs x < 2 ^ 63 }
    ensures { result ≡ x }
{
    x as i64
}

// The number with its sign turned.
fn turned(x: i64) -> i64
    requires { unsigned_abs x < 2 ^ 63 }
    ensures { result ≡ neg_ℤ x }
{
    -x
}

fn greater(x: i64, y: i64) -> i64
    ensures { result ≡ int_max x y }
{
    x.max(y)
}

// The least and the greatest size of a number of the interval. No branch is taken by its sign, which turns twice in a
// period.
fn sizes(v: Interval) -> (u64, u64)
    requires low { unsigned_abs v.lo < 2 ^ 63 }
    requires high { unsigned_abs v.hi < 2 ^ 63 }
    ensures least { result.0 ≡ least_size v.lo v.hi }
    ensures greatest { result.1 ≡ greatest_size v.lo v.hi }
{
    let lo = word(v.lo);
    let hi = word(v.hi);
    let least = greater(greater(lo, turned(hi)), 0);
    let greatest = greater(hi, turned(lo));
    (least.unsigned_abs(), greatest.unsigned_abs())
}

fn square(size: u64) -> u128
    ensures { result ≡ size * size }
{
    u128::from(size) * u128::from(size)
}

/// Squares of whole numbers, or sums of them.
#[derive(Clone, Copy, Debug, PartialEq, Eq)]
pub struct Squares {
    pub least: u128,
    pub greatest: u128,
}

/// The least and the greatest square of a whole number of the interval `v`, in squares of its unit, as numbers
/// without a sign. The ends of `v` are below 2^63 in size. Where they are at most n in size, the squares are at most
/// `n^2`.
pub fn exact_squares(v: Interval) -> Squares
    requires low { unsigned_abs v.lo < 2 ^ 63 }
    requires high { unsigned_abs v.hi < 2 ^ 63 }
    ensures least { result.least ≡ least_size v.lo v.hi * least_size v.lo v.hi }
    ensures greatest { result.greatest ≡ greatest_size v.lo v.hi * greatest_size v.lo v.hi }
    ensures ordered { result.least ≤ result.greatest }
    ensures small { (n : ℕ) → unsigned_abs v.lo ≤ n → unsigned_abs v.hi ≤ n → result.greatest ≤ n * n }
{
    let (least, greatest) = sizes(v);
    Squares {
        least: square(least),
        greatest: square(greatest),
    }
}

fn signed(n: u128) -> i128
    requires { n < 2 ^ 126 }
    ensures { result ≡ pos n }
{
    n as i128
}

/// The least and the greatest square of a whole number of the interval `v`, in squares of its unit. The ends of `v` are
/// below 2^63 in size, and those of the result are from 0 to below 2^126.
pub fn square_out(v: Interval) -> Interval
    requires low { unsigned_abs v.lo < 2 ^ 63 }
    requires high { unsigned_abs v.hi < 2 ^ 63 }
    ensures { AreSquares v.lo v.hi result.lo result.hi }
{
    let squares = exact_squares(v);
    Interval {
        lo: signed(squares.least),
        hi: signed(squares.greatest),
    }
}
