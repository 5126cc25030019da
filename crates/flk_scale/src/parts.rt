//! Quotients with their rests.

ghost use Rattle.std.specs.Prelude.{◌≡◌, ◌+◌, ◌*◌, ◌^◌, ◌<◌, ◌≤◌, pos, ◌+ℤ◌, ◌*ℤ◌};
ghost use Rattle.std.specs.Int.RustNames.{unsigned_abs};
ghost use Rattle.flk_exact.specs.Rounding.{IsFloor, IsCeil};
ghost use Rattle.flk_scale.specs.Parts.{dividend};

/// A quotient that is rounded down, and the rest over the divisor.
#[derive(Clone, Copy, Debug)]
pub struct Parts {
    pub quotient: i128,
    pub rest: u128,
}

/// `v / divisor`.
fn divide(v: i128, divisor: u128) -> Parts
    requires some { 2 ^ 69 ≤ divisor }
    requires divisor { divisor < 2 ^ 90 }
    requires small { unsigned_abs v < 2 ^ 125 }
    ensures parts { dividend result divisor ≡ v }
    ensures rest { result.rest < divisor }
    ensures small { unsigned_abs result.quotient ≤ 2 ^ 56 }
{
    Parts {
        quotient: v.div_euclid(divisor as i128),
        rest: v.rem_euclid(divisor as i128) as u128,
    }
}

const TWO_TO_24: u128 = 16_777_216;

/// `2^24` times a quotient.
fn times_two_to_24(parts: Parts, divisor: u128) -> Parts
    requires some { 0 < divisor }
    requires divisor { divisor < 2 ^ 90 }
    requires rest { parts.rest < divisor }
    requires small { unsigned_abs parts.quotient ≤ 2 ^ 82 }
    ensures parts { dividend result divisor ≡ dividend parts divisor *ℤ pos (2 ^ 24) }
    ensures rest { result.rest < divisor }
    ensures small { unsigned_abs result.quotient ≤ (unsigned_abs parts.quotient + 1) * 2 ^ 24 }
{
    let shifted = parts.rest * TWO_TO_24;
    Parts {
        quotient: parts.quotient * 16_777_216 + (shifted / divisor) as i128,
        rest: shifted % divisor,
    }
}

/// `2^48 * v / divisor`.
pub fn scaled(v: i128, divisor: u128) -> Parts
    requires some { 2 ^ 69 ≤ divisor }
    requires divisor { divisor < 2 ^ 90 }
    requires small { unsigned_abs v < 2 ^ 125 }
    ensures parts { dividend result divisor ≡ v *ℤ pos (2 ^ 48) }
    ensures rest { result.rest < divisor }
    ensures small { unsigned_abs result.quotient ≤ 2 ^ 106 }
{
    times_two_to_24(times_two_to_24(divide(v, divisor), divisor), divisor)
}

// How many divisors a rest has whole.
fn whole_divisors(rest: u128, divisor: u128) -> u8
    requires small { rest < 3 * divisor }
    requires divisor { divisor < 2 ^ 90 }
    ensures within { result * divisor ≤ rest }
    ensures greatest { rest < result * divisor + divisor }
    ensures few { result ≤ 2 }
{
    u8::from(divisor <= rest) + u8::from(2 * divisor <= rest)
}

// How many divisors a rest needs.
fn needed_divisors(rest: u128, divisor: u128) -> u8
    requires small { rest < 3 * divisor }
    requires divisor { divisor < 2 ^ 90 }
    ensures within { rest ≤ result * divisor }
    ensures least { result * divisor < rest + divisor }
    ensures few { result ≤ 3 }
{
    u8::from(0 < rest) + u8::from(divisor < rest) + u8::from(2 * divisor < rest)
}

/// The sum of two quotients, rounded down.
pub fn sum_down(p: Parts, q: Parts, divisor: u128) -> i128
    requires p { unsigned_abs p.quotient ≤ 2 ^ 110 }
    requires q { unsigned_abs q.quotient ≤ 2 ^ 110 }
    requires p_rest { p.rest < 2 * divisor }
    requires q_rest { q.rest < divisor }
    requires divisor { divisor < 2 ^ 90 }
    ensures { IsFloor (dividend p divisor +ℤ dividend q divisor) (pos divisor) result }
{
    p.quotient + q.quotient + i128::from(whole_divisors(p.rest + q.rest, divisor))
}

/// The sum of two quotients, rounded up.
pub fn sum_up(p: Parts, q: Parts, divisor: u128) -> i128
    requires p { unsigned_abs p.quotient ≤ 2 ^ 110 }
    requires q { unsigned_abs q.quotient ≤ 2 ^ 110 }
    requires p_rest { p.rest < 2 * divisor }
    requires q_rest { q.rest < divisor }
    requires divisor { divisor < 2 ^ 90 }
    ensures { IsCeil (dividend p divisor +ℤ dividend q divisor) (pos divisor) result }
{
    p.quotient + q.quotient + i128::from(needed_divisors(p.rest + q.rest, divisor))
}
