//! The bound of the sections behind the first in a row, and that of a whole cascade.

ghost use Rattle.std.specs.Prelude.{◌≡◌, ◌↔◌, ◌^◌, ◌≤◌, length, map, IsSome, IfSome, pos, ◌<ℤ◌, ◌+ℤ◌, ◌*ℤ◌};
ghost use Rattle.std.specs.List.{All};
ghost use Rattle.flk_cert.specs.Gain.{input_of, gain_numbers};
ghost use Rattle.flk_exact.specs.Rounding.{ceil_of};
ghost use Rattle.flk_cert.specs.Row.{IsUpTo};
ghost use Rattle.flk_section.specs.Radius.{FitsCascade};
ghost use Rattle.flk_section.specs.OwnBounds.{first_bound, AreSmallBounds};
ghost use Rattle.flk_section.specs.Forms.{no_form, StaySmallNumbers};
ghost use Rattle.flk_section.specs.Chain.{chain_samples as samples, HasChainBound};
ghost use Rattle.flk_section.specs.Owned.{IsChainBound};
ghost use Rattle.flk_section.specs.Whole.{IsWholeOf};

use crate::form::{chain_samples, follow_back};
use crate::own::own_bounds;
use crate::radius::rounded_up;
use crate::whole::Whole;
use flk_cert::Gain;

/// The bound of the sections behind the first: its input over 2^32, and its share of rounding in units.
#[derive(Clone, Copy)]
pub struct ChainBound {
    pub input: i128,
    pub rounding: i128,
}

// A bound of all signals of one sample, for all samples.
fn all_samples(signals: i128) -> i128
    requires { IsUpTo (2 ^ 98) signals }
    ensures value { result ≡ pos samples *ℤ signals }
    ensures range { IsUpTo (2 ^ 111) result }
{
    i128::from(chain_samples()) * signals
}

// The input of the bound: the weights, what rounding of forms leaves, and the form that is left.
fn input_of_all(weights: u128, signals: i128, form: i128) -> i128
    requires weights { weights ≤ 2 ^ 90 }
    requires signals { IsUpTo (2 ^ 98) signals }
    requires form { IsUpTo (2 ^ 124) form }
    ensures value { result ≡ pos weights +ℤ ceil_of (pos samples *ℤ signals) (pos (2 ^ 32))
        +ℤ ceil_of form (pos (2 ^ 32)) }
    ensures range { IsUpTo (2 ^ 100) result }
{
    weights as i128 + rounded_up(all_samples(signals)) + rounded_up(form)
}

// The share of rounding: the shares of the products, what rounding of forms leaves, and the form that is left.
fn rounding_of_all(shares: u128, signals: i128, form: i128) -> i128
    requires shares { shares ≤ 2 ^ 90 }
    requires signals { IsUpTo (2 ^ 98) signals }
    requires form { IsUpTo (2 ^ 124) form }
    ensures value { result ≡ ceil_of (pos shares +ℤ pos samples *ℤ signals +ℤ form) (pos (2 ^ 32)) }
    ensures range { IsUpTo (2 ^ 100) result }
{
    rounded_up(shares as i128 + all_samples(signals) + form)
}

/// The bound of six sections in a row; or none where a number on the way reaches 2^60 in size.
pub(crate) fn chain_bound(gains: &[Gain]) -> Option<ChainBound>
    requires count { length gains.now ≡ 6 }
    requires inputs { All (λ g. input_of g <ℤ pos (2 ^ 36)) gains.now }
    ensures some { IsSome result ↔ (AreSmallBounds first_bound (map gain_numbers gains.now)
        × StaySmallNumbers (pos (2 ^ 32)) (map gain_numbers gains.now) (no_form (map gain_numbers gains.now)) samples) }
    ensures value { IfSome result (λ b. IsChainBound (map gain_numbers gains.now) b) }
{
    let followed = follow_back(gains)?;
    let own = own_bounds(gains, followed.form)?;
    Some(ChainBound {
        input: input_of_all(followed.weights, own.signals.input, own.form.input),
        rounding: rounding_of_all(followed.shares, own.signals.rounding, own.form.rounding),
    })
}

/// The bound of a whole cascade with these gains, which fit. There is none exactly where a number of the rule reaches
/// its limit: a bound by the sections' own gains or a number of a form 2^60, the input 2^36, the share of rounding
/// 2^40, or the radius behind the last section that follows from the adaptor's greatest radius 2^60.
pub fn whole_of(gains: &[Gain; 7]) -> Option<Whole>
    requires { FitsCascade gains.now }
    ensures some { IsSome result ↔ (HasChainBound (map gain_numbers gains.now)) }
    ensures value { IfSome result (λ w. IsWholeOf gains.now w) }
{
    Whole::of(gains)
}
