//! The radii behind the sections of a cascade, in units of 2^-48, and for which gains they stay small.

ghost use Rattle.std.specs.Prelude.{◌≡◌, ◌↔◌, ◌^◌, ◌≤◌, IsTrue, pos, ◌≤ℤ◌, ◌<ℤ◌};
ghost use Rattle.std.specs.Int.RustNames.{unsigned_abs};
ghost use Rattle.std.specs.List.{All};
ghost use Rattle.flk_exact.specs.Rounding.{ceil_of};
ghost use Rattle.flk_cert.specs.Bound.{StartsAtRest};
ghost use Rattle.flk_cert.specs.Gain.{input_of};
ghost use Rattle.flk_section.specs.Radius.{radius_by, radius_after as radius_of, radii, FitsCascade};
ghost use Rattle.flk_section.specs.Points.{greatest_point};

use flk_cert::{Coefs, Gain};

// 66 * 2^48: the greatest radius of a point of the adaptor.
pub(crate) const GREATEST_RADIUS: i128 = 18_577_348_462_903_296;

// 2^36
pub(crate) const INPUT_LIMIT: i128 = 68_719_476_736;

// 2^60
pub(crate) const RADIUS_LIMIT: i128 = 1_152_921_504_606_846_976;

/// `wide / 2^32`, rounded up: the negative of the negative one rounded down.
pub(crate) fn rounded_up(wide: i128) -> i128
    requires { unsigned_abs wide ≤ 2 ^ 125 }
    ensures value { result ≡ ceil_of wide (pos (2 ^ 32)) }
    ensures small { unsigned_abs result ≤ 2 ^ 93 }
{
    -((-wide) >> 32)
}

/// The radius that follows from a radius by a gain.
pub(crate) fn next_radius(input: i128, rounding: i128, radius: i128) -> i128
    requires input { pos 0 ≤ℤ input }
    requires input_small { input <ℤ pos (2 ^ 36) }
    requires rounding { pos 0 ≤ℤ rounding }
    requires rounding_small { rounding <ℤ pos (2 ^ 40) }
    requires radius { pos 0 ≤ℤ radius }
    requires radius_small { radius <ℤ pos (2 ^ 60) }
    ensures value { result ≡ radius_by input rounding radius }
    ensures natural { pos 0 ≤ℤ result }
{
    rounded_up(radius * input) + rounding
}

// The radius behind a section, from the radius before it.
fn radius_after(gain: &Gain, radius: i128) -> i128
    requires natural { pos 0 ≤ℤ radius }
    requires small { radius <ℤ pos (2 ^ 60) }
    requires input { input_of gain.now <ℤ pos (2 ^ 36) }
    ensures value { result ≡ radius_of gain.now radius }
    ensures natural { pos 0 ≤ℤ result }
{
    next_radius(gain.input(), gain.rounding(), radius)
}

// Whether a section with these coefficients may start from one.
pub(crate) fn starts_at_rest(k: &Coefs) -> bool
    ensures { IsTrue result ↔ StartsAtRest k.now }
{
    k.b1 == -k.b0 && k.b2 == 0
}

// Whether each input gain is below 2^36 and each radius below 2^60.
fn stay_small(gains: &[Gain]) -> bool
    ensures { IsTrue result ↔ (All (λ g. input_of g <ℤ pos (2 ^ 36)) gains.now
        × All (λ r. r <ℤ pos (2 ^ 60)) (radii gains.now (pos greatest_point))) }
{
    let mut radius = GREATEST_RADIUS;
    for gain in gains {
        if gain.input() >= INPUT_LIMIT {
            return false;
        }
        radius = radius_after(gain, radius);
        if radius >= RADIUS_LIMIT {
            return false;
        }
    }
    true
}

/// Whether a cascade can be made with these gains: exactly where each gain's input is below 2^36, the first gain's
/// coefficients have `b1 = -b0` and `b2 = 0`, and the radii behind the seven sections that follow from a radius of 66
/// times 2^48 units are all below 2^60.
pub fn fits(gains: &[Gain; 7]) -> bool
    ensures { IsTrue result ↔ FitsCascade gains.now }
{
    starts_at_rest(&gains[0].coefs()) && stay_small(gains)
}
