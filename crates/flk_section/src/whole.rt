//! One bound for a whole cascade: the first section's own gain, and one for the sections behind it in a row.

ghost use Rattle.std.specs.Prelude.{◌≡◌, ◌↔◌, ◌^◌, ◌<◌, map, drop, length, IsSome, IfSome, ℤ, pos, ◌≤ℤ◌, ◌<ℤ◌};
ghost use Rattle.flk_cert.specs.Gain.{coefs_of, gain_numbers};
ghost use Rattle.flk_section.specs.Points.{greatest_point};
ghost use Rattle.flk_section.specs.Radius.{radius_by, FitsCascade};
ghost use Rattle.flk_section.specs.Filter.{last_radius as last_radius_of};
ghost use Rattle.flk_section.specs.Chain.{BoundsChain, first_input_in, first_rounding_in, HasChainBound};

use crate::chain::chain_bound;
use crate::radius::{GREATEST_RADIUS, INPUT_LIMIT, RADIUS_LIMIT, next_radius};
use flk_cert::Gain;

// 2^40
const ROUNDING_LIMIT: i128 = 1_099_511_627_776;

// The gains of the sections behind the first.
fn behind_first(gains: &[Gain; 7]) -> &[Gain]
    ensures { result.now ≡ drop 1 gains.now }
{
    &gains[1..]
}

/// What bounds the digits of a cascade: the gains of its seven sections, and one bound for the sections behind the
/// first in a row. With exact inputs of these that are always within r units of the rounded ones, the exact output of
/// the last is always within `input*r/2^32 + rounding` units of the rounded one. `whole_of` alone makes one.
#[derive(Clone, Copy)]
pub struct Whole {
    gains: [Gain; 7],
    input: i128,
    rounding: i128,
    ghost some: { 0 < length gains },
    ghost input_natural: { pos 0 ≤ℤ input },
    ghost input_small: { input <ℤ pos (2 ^ 36) },
    ghost rounding_natural: { pos 0 ≤ℤ rounding },
    ghost rounding_small: { rounding <ℤ pos (2 ^ 40) },
    ghost radius_small: { radius_by input rounding
        (radius_by (first_input_in (map gain_numbers gains)) (first_rounding_in (map gain_numbers gains))
        (pos greatest_point)) <ℤ pos (2 ^ 60) },
    ghost fits: { ∥ FitsCascade gains ∥₁ },
    ghost bounds: { BoundsChain (drop 1 (map coefs_of gains)) input rounding },
}

impl Whole {
    ghost use Rattle.flk_section.specs.Whole.{gains_of, numbers_of, IsWholeOf};

    // The bound of the cascade with these gains, or none where a number of the rule reaches its limit.
    pub(crate) fn of(gains: &[Gain; 7]) -> Option<Whole>
        requires { FitsCascade gains.now }
        ensures some { IsSome result ↔ (HasChainBound (map gain_numbers gains.now)) }
        ensures value { IfSome result (λ w. IsWholeOf gains.now w) }
    {
        let chain = chain_bound(behind_first(gains))?;
        if chain.input >= INPUT_LIMIT {
            return None;
        }
        if chain.rounding >= ROUNDING_LIMIT {
            return None;
        }
        let first = next_radius(gains[0].input(), gains[0].rounding(), GREATEST_RADIUS);
        if next_radius(chain.input, chain.rounding, first) >= RADIUS_LIMIT {
            return None;
        }
        Some(Whole {
            gains: *gains,
            input: chain.input,
            rounding: chain.rounding,
        })
    }

    /// The gains of the seven sections, in their order.
    pub fn gains(&self) -> [Gain; 7]
        ensures { result ≡ gains_of self.now }
    {
        self.gains
    }

    /// The gain of the error of the second section's input, over 2^32: below 2^36.
    pub fn input(&self) -> i128
        ensures value { result ≡ (numbers_of self.now).chain_input }
        ensures natural { pos 0 ≤ℤ result }
        ensures small { result <ℤ pos (2 ^ 36) }
    {
        self.input
    }

    /// The share of rounding of the sections behind the first, in units of 2^-48: below 2^40.
    pub fn rounding(&self) -> i128
        ensures value { result ≡ (numbers_of self.now).chain_rounding }
        ensures natural { pos 0 ≤ℤ result }
        ensures small { result <ℤ pos (2 ^ 40) }
    {
        self.rounding
    }

    // The radius behind the last section, from the radius before the first.
    pub(crate) fn last_radius(&self, before: i128) -> i128
        requires natural { pos 0 ≤ℤ before }
        requires small { before ≤ℤ pos greatest_point }
        ensures value { result ≡ last_radius_of (numbers_of self.now) before }
    {
        let first = next_radius(self.gains[0].input(), self.gains[0].rounding(), before);
        next_radius(self.input, self.rounding, first)
    }
}
