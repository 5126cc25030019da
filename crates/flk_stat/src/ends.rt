//! The rounded steps of the smoothing: each takes two ends and answers two ends.

ghost use Rattle.std.specs.Prelude.{◌≡◌, ◌+◌, ◌-◌, ◌*◌, ◌/◌, ◌^◌, ◌<◌, ◌≤◌, pos, ◌+ℤ◌, ◌-ℤ◌, ◌*ℤ◌, ◌≤ℤ◌, ◌<ℤ◌};
ghost use Rattle.std.specs.Int.{div_ceil, int_shr};
ghost use Rattle.std.specs.Int.RustNames.{unsigned_abs};
ghost use Rattle.flk_num.specs.Square.{least_size, greatest_size};
ghost use Rattle.flk_stat.specs.Smoothing.{scale};
ghost use Rattle.flk_stat.specs.Rounded.{squares_of, scaled_of, next_level};

use flk_front::Point;

/// A lower and an upper end, in one unit.
#[derive(Clone, Copy, Debug, PartialEq, Eq)]
pub struct Ends {
    pub lo: u128,
    pub hi: u128,
}

// By which a square is multiplied.
const SCALE: u128 = 310_700;

// The least and the greatest size of a signal of the point, in units of 2^-48.
#[inline(always)]
fn sizes(w: Point) -> (u64, u64)
    requires radius { pos 0 ≤ℤ w.radius }
    requires small { (pos (unsigned_abs w.mid) +ℤ w.radius) <ℤ pos (2 ^ 61) }
    ensures least { result.0 ≡ least_size (w.mid -ℤ w.radius) (w.mid +ℤ w.radius) }
    ensures greatest { result.1 ≡ greatest_size (w.mid -ℤ w.radius) (w.mid +ℤ w.radius) }
    ensures ordered { result.0 ≤ result.1 }
    ensures small { result.1 < 2 ^ 61 }
{
    let size = (w.mid as i64).unsigned_abs();
    let radius = w.radius as u64;
    (size.saturating_sub(radius), size + radius)
}

// The square of a size, in units of 2^-96.
#[inline(always)]
fn square(size: u64) -> u128
    requires { size < 2 ^ 61 }
    ensures value { result ≡ size * size }
    ensures small { result < 2 ^ 122 }
{
    u128::from(size) * u128::from(size)
}

// The scaled square in units of 2^-48, rounded down.
#[inline(always)]
fn scaled_down(square: u128) -> u128
    requires { square < 2 ^ 122 }
    ensures { result ≡ square / 2 ^ 16 * scale / 2 ^ 32 }
{
    ((square >> 16) * SCALE) >> 32
}

// The scaled square in units of 2^-48, rounded up.
#[inline(always)]
fn scaled_up(square: u128) -> u128
    requires { square < 2 ^ 122 }
    ensures { result ≡ div_ceil (div_ceil square (2 ^ 16) * scale) (2 ^ 32) }
{
    (square.div_ceil(1 << 16) * SCALE).div_ceil(1 << 32)
}

/// The scaled squares of a signal of the point, in units of 2^-48, rounded down and up.
#[inline(always)]
pub fn scaled_squares(w: Point) -> Ends
    requires radius { pos 0 ≤ℤ w.radius }
    requires small { (pos (unsigned_abs w.mid) +ℤ w.radius) <ℤ pos (2 ^ 61) }
    ensures value { result ≡ scaled_of (squares_of w) }
    ensures ordered { result.lo ≤ result.hi }
    ensures small { result.hi < 2 ^ 93 }
{
    let (least, greatest) = sizes(w);
    Ends {
        lo: scaled_down(square(least)),
        hi: scaled_up(square(greatest)),
    }
}

// A part of what is between two numbers, in parts of 2^32, rounded down.
#[inline(always)]
fn part_between(number: u64, from: i128, to: i128) -> i128
    requires number { number ≤ 2 ^ 32 }
    requires from_low { pos 0 ≤ℤ from }
    requires from_high { from <ℤ pos (2 ^ 93) }
    requires to_low { pos 0 ≤ℤ to }
    requires to_high { to <ℤ pos (2 ^ 93) }
    ensures part { result ≡ int_shr (pos number *ℤ (to -ℤ from)) 32 }
    ensures small { unsigned_abs result ≤ 2 ^ 94 }
{
    (i128::from(number) * (to - from)) >> 32
}

// An end that moves from the level toward the square by `number` parts in 2^32 of what is between them, rounded down.
#[inline(always)]
fn moved_down(number: u64, level: u128, square: u128) -> u128
    requires number { number ≤ 2 ^ 32 }
    requires small { level < 2 ^ 93 }
    requires square_small { square < 2 ^ 93 }
    ensures { result ≡ ((2 ^ 32 - number) * level + number * square) / 2 ^ 32 }
{
    let level = level as i128;
    (level + part_between(number, level, square as i128)) as u128
}

// The same, rounded up.
#[inline(always)]
fn moved_up(number: u64, level: u128, square: u128) -> u128
    requires number { number ≤ 2 ^ 32 }
    requires small { level < 2 ^ 93 }
    requires square_small { square < 2 ^ 93 }
    ensures { result ≡ div_ceil ((2 ^ 32 - number) * level + number * square) (2 ^ 32) }
{
    let level = level as i128;
    (level - part_between(number, square as i128, level)) as u128
}

/// The level after a sample with these scaled squares, in units of 2^-48, where the squares count for `number` parts in
/// 2^32.
#[inline(always)]
pub fn level_after(number: u64, level: Ends, square: Ends) -> Ends
    requires number { number ≤ 2 ^ 32 }
    requires ordered { level.lo ≤ level.hi }
    requires small { level.hi < 2 ^ 93 }
    requires square_ordered { square.lo ≤ square.hi }
    requires square_small { square.hi < 2 ^ 93 }
    ensures value { result ≡ next_level number level square }
    ensures ordered { result.lo ≤ result.hi }
    ensures small { result.hi < 2 ^ 93 }
{
    Ends {
        lo: moved_down(number, level.lo, square.lo),
        hi: moved_up(number, level.hi, square.hi),
    }
}
