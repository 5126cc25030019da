//! Which samples a line takes into a range.

ghost use Rattle.std.specs.Prelude.{◌≡◌, ◌↔◌, ◌^◌, ◌<◌, IsTrue, FitsSigned, ℤ, pos, neg_ℤ, ◌<ℤ◌, ◌≤ℤ◌};
ghost use Rattle.std.specs.Int.{w32};
ghost use Rattle.std.specs.Int.RustNames.{unsigned_abs};
ghost use Rattle.flk_exact.specs.Rounding.{IsBetween};
ghost use Rattle.flk_scale.specs.Samples.{IsAmong, AreSamplesBetween};

use flk_num::{ceil_div, floor_div};

/// The samples from `first` to `last`; none where `last` is below `first`.
#[derive(Clone, Copy, Debug)]
pub struct Samples {
    first: i64,
    last: i64,
}

/// The samples x of 32 bits for which `a * x + b` is from `low` to `high`.
pub fn samples_between(a: i128, b: i128, low: i128, high: i128) -> Samples
    requires a { unsigned_abs a < 2 ^ 124 }
    requires b { unsigned_abs b < 2 ^ 124 }
    requires low { unsigned_abs low < 2 ^ 126 }
    requires high { unsigned_abs high < 2 ^ 126 }
    ensures { AreSamplesBetween a b low high result }
{
    if 0 < a {
        return rising(a, b, low, high);
    }
    if a < 0 {
        return rising(negated(a), negated(b), negated(high), negated(low));
    }
    level(is_between(low, high, b))
}

/// The number with its sign turned.
pub fn negated(n: i128) -> i128
    requires { unsigned_abs n < 2 ^ 126 }
    ensures value { result ≡ neg_ℤ n }
    ensures small { unsigned_abs result ≡ unsigned_abs n }
{
    -n
}

// The samples of a line that rises.
fn rising(a: i128, b: i128, low: i128, high: i128) -> Samples
    requires a { pos 0 <ℤ a }
    requires b { unsigned_abs b < 2 ^ 124 }
    requires low { unsigned_abs low < 2 ^ 126 }
    requires high { unsigned_abs high < 2 ^ 126 }
    ensures { AreSamplesBetween a b low high result }
{
    Samples {
        first: cut_to_samples(ceil_div(low - b, a)),
        last: cut_to_samples(floor_div(high - b, a)),
    }
}

// The number, or where it is far out the one beside the samples of 32 bits: to each of these it is as the number is.
fn cut_to_samples(n: i128) -> i64
    ensures above { (x : ℤ) → FitsSigned w32 x → (result ≤ℤ x) ↔ (n ≤ℤ x) }
    ensures below { (x : ℤ) → FitsSigned w32 x → (x ≤ℤ result) ↔ (x ≤ℤ n) }
{
    if n < -2_147_483_649 {
        return -2_147_483_649;
    }
    if n > 2_147_483_648 {
        return 2_147_483_648;
    }
    n as i64
}

fn is_between(low: i128, high: i128, b: i128) -> bool
    ensures { IsTrue result ↔ IsBetween low high b }
{
    low <= b && b <= high
}

// All samples, or none.
fn level(all: bool) -> Samples
    ensures { (x : ℤ) → FitsSigned w32 x → IsAmong result x ↔ IsTrue all }
{
    if all {
        return Samples {
            first: -2_147_483_648,
            last: 2_147_483_647,
        };
    }
    Samples { first: 0, last: -1 }
}

impl Samples {
    /// Whether the sample is among them.
    #[inline(always)]
    pub fn has(&self, x: i32) -> bool
        ensures { IsTrue result ↔ IsAmong self.now x }
    {
        let x = i64::from(x);
        self.first <= x && x <= self.last
    }
}
