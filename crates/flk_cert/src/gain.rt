//! The gain of a section.

ghost use Rattle.std.specs.Prelude.{◌≡◌, ◌^◌, pos, ◌≤ℤ◌, ◌+ℤ◌};
ghost use Rattle.std.specs.Int.RustNames.{unsigned_abs};
ghost use Rattle.flk_exact.specs.Rounding.{ceil_of};
ghost use Rattle.flk_cert.specs.Certificate.{IsBound, FitsSection};
ghost use Rattle.flk_cert.specs.Bound.{Bounds, BoundsFirst, BoundsSecond, KeepsSecond};

use crate::certificate::CertRow;
use crate::coefs::Coefs;
use crate::shape::row_at;
use flk_num::{ceil_div, crosses_threads};

const TWO_TO_32: i128 = 4_294_967_296;

// The gain of the input's error: what comes to the output at once, and through the first state.
fn input_gain(k: &Coefs, g: i128) -> i128
    requires { IsBound g }
    ensures value { result ≡ pos (unsigned_abs k.now.b0) +ℤ g }
    ensures natural { pos 0 ≤ℤ result }
{
    i128::from(k.b0.unsigned_abs()) + g
}

// The share of rounding: that of the output's own product, and of the first state.
fn rounding_gain(h: i128) -> i128
    requires { IsBound h }
    ensures value { result ≡ pos 1 +ℤ ceil_of h (pos (2 ^ 32)) }
    ensures natural { pos 0 ≤ℤ result }
    ensures small { result ≤ℤ pos (2 ^ 29) }
{
    1 + ceil_div(h, TWO_TO_32)
}

/// A bound on the error of a section whose products are rounded: with an exact input that is always within r units of
/// the rounded section's, its exact output is always within `input*r/2^32 + rounding` units of the rounded section's.
/// `check` alone makes one.
#[derive(Clone, Copy)]
pub struct Gain {
    coefs: Coefs,
    input: i128,
    rounding: i128,
    // The bounds of the forms of rows 0 and 1: of the states' errors.
    first_input: i128,
    first_rounding: i128,
    second_input: i128,
    second_rounding: i128,
    ghost input_natural: { pos 0 ≤ℤ input },
    ghost rounding_natural: { pos 0 ≤ℤ rounding },
    ghost rounding_small: { rounding ≤ℤ pos (2 ^ 29) },
    ghost first_input_limits: { IsBound first_input },
    ghost first_rounding_limits: { IsBound first_rounding },
    ghost second_input_limits: { IsBound second_input },
    ghost second_rounding_limits: { IsBound second_rounding },
    ghost bounds: { Bounds coefs input rounding },
    ghost bounds_first: { BoundsFirst coefs first_input first_rounding },
    ghost bounds_second: { BoundsSecond coefs second_input second_rounding },
    ghost keeps_second: { KeepsSecond coefs second_rounding },
}

impl Gain {
    ghost use Rattle.flk_cert.specs.Gain.{coefs_of, input_of, rounding_of, first_input_of, first_rounding_of, second_input_of, second_rounding_of, IsGainOf};

    // The gain of a certificate that fits.
    pub(crate) fn of(k: &Coefs, rows: &[CertRow]) -> Gain
        requires { FitsSection k.now rows.now }
        ensures { IsGainOf k.now rows.now result }
    {
        let first = row_at(rows, 0);
        let second = row_at(rows, 1);
        Gain {
            coefs: *k,
            input: input_gain(k, first.g),
            rounding: rounding_gain(first.h),
            first_input: first.g,
            first_rounding: first.h,
            second_input: second.g,
            second_rounding: second.h,
        }
    }

    /// The coefficients for which the certificate was checked.
    pub fn coefs(&self) -> Coefs
        ensures { result ≡ coefs_of self.now }
    {
        self.coefs
    }

    /// The gain of the input's error, over 2^32.
    pub fn input(&self) -> i128
        ensures value { result ≡ input_of self.now }
        ensures natural { pos 0 ≤ℤ result }
    {
        self.input
    }

    /// The share of rounding, in units of 2^-48: at most 2^29.
    pub fn rounding(&self) -> i128
        ensures value { result ≡ rounding_of self.now }
        ensures natural { pos 0 ≤ℤ result }
        ensures small { result ≤ℤ pos (2 ^ 29) }
    {
        self.rounding
    }

    /// What bounds the error of the first state: g over 2^32 and h over 2^32 units. With an input error of at most r
    /// units it is at most `(g*r + h)/2^32` units. Each is from 0 to below 2^60.
    pub fn first(&self) -> (i128, i128)
        ensures input { result.0 ≡ first_input_of self.now }
        ensures rounding { result.1 ≡ first_rounding_of self.now }
        ensures limits { IsBound result.0 × IsBound result.1 }
    {
        (self.first_input, self.first_rounding)
    }

    /// What bounds the error of `s2 - a1*s1/2^32` in the same way, for the second state s2 and the first, s1. Both are
    /// 0 for a certificate of one row, whose second state has no error. Each is from 0 to below 2^60.
    pub fn second(&self) -> (i128, i128)
        ensures input { result.0 ≡ second_input_of self.now }
        ensures rounding { result.1 ≡ second_rounding_of self.now }
        ensures limits { IsBound result.0 × IsBound result.1 }
    {
        (self.second_input, self.second_rounding)
    }
}

// A gain can be handed to another thread, and seen by several at once.
fn gain_crosses_threads(gain: &Gain) {
    crosses_threads(gain);
}
