//! What the own gains of sections in a row say of their errors: `specs/OwnBounds` says what is bounded.

ghost use Rattle.std.specs.Prelude.{◌≡◌, ◌^◌, ◌<◌, ◌≤◌, ◌*◌, ◌↔◌, length, map, IsTrue, IsSome, IfSome, pos, ◌<ℤ◌, ◌+ℤ◌, ◌*ℤ◌};
ghost use Rattle.std.specs.Int.RustNames.{unsigned_abs};
ghost use Rattle.std.specs.List.{All};
ghost use Rattle.flk_exact.specs.Rounding.{ceil_of};
ghost use Rattle.flk_cert.specs.Gain.{input_of, gain_numbers};
ghost use Rattle.flk_cert.specs.Row.{IsUpTo};
ghost use Rattle.flk_section.specs.OwnBounds.{first_bound, both_bounds as both, scaled_up as scaled, output_bound as bound_at_output, state_bound as bound_at_state, first_state_bound as bound_at_first, second_state_bound as bound_at_second, second_with_first as second_and_first, IsSmallBound, AreSmallBounds};
ghost use Rattle.flk_section.specs.Followed.{IsSmallPart};
ghost use Rattle.flk_section.specs.Owned.{IsBoundUpTo, IsSectionBounds, IsOwned};

use crate::form::{FormPart, has_one_row};
use crate::radius::rounded_up;
use flk_cert::Gain;

// 1, over 2^32.
const ONE: i128 = 4_294_967_296;

// 2^60
const LIMIT: i128 = 1_152_921_504_606_846_976;

/// A bound on an error by that of the first section's input: with at most s units there it is at most
/// `input * s / 2^32 + rounding` units.
#[derive(Clone, Copy, Debug, PartialEq, Eq)]
pub struct OwnBound {
    pub input: i128,
    pub rounding: i128,
}

const NONE: OwnBound = OwnBound {
    input: 0,
    rounding: 0,
};

// The bound of a section's output, and that of its part of a form.
#[derive(Clone, Copy)]
struct SectionBounds {
    output: OwnBound,
    part: OwnBound,
}

/// The sum of the bounds of all signals, and the bound of a form of the states.
#[derive(Clone, Copy)]
pub struct Owned {
    pub signals: OwnBound,
    pub form: OwnBound,
}

// `g * n / 2^32`, rounded up.
fn scaled_up(g: i128, n: i128) -> i128
    requires g { IsUpTo (2 ^ 63) g }
    requires n { IsUpTo (2 ^ 60) n }
    ensures value { result ≡ scaled g n }
    ensures range { IsUpTo (2 ^ 92) result }
{
    rounded_up(g * n)
}

// The bound of a section's output, from that of its input.
fn output_bound(gain: &Gain, b: OwnBound) -> OwnBound
    requires input { input_of gain.now <ℤ pos (2 ^ 36) }
    requires bound { IsBoundUpTo (2 ^ 60) b }
    ensures value { result ≡ bound_at_output (gain_numbers gain.now) b }
    ensures range { IsBoundUpTo (2 ^ 93) result }
{
    OwnBound {
        input: scaled_up(b.input, gain.input()),
        rounding: scaled_up(b.rounding, gain.input()) + gain.rounding(),
    }
}

// The bound of a state's error, from that of the section's input.
fn state_bound(g: i128, h: i128, b: OwnBound) -> OwnBound
    requires g { IsUpTo (2 ^ 63) g }
    requires h { IsUpTo (2 ^ 63) h }
    requires bound { IsBoundUpTo (2 ^ 60) b }
    ensures value { result ≡ bound_at_state g h b }
    ensures range { IsBoundUpTo (2 ^ 93) result }
{
    OwnBound {
        input: scaled_up(g, b.input),
        rounding: scaled_up(g, b.rounding) + rounded_up(h),
    }
}

fn first_state_bound(gain: &Gain, b: OwnBound) -> OwnBound
    requires { IsBoundUpTo (2 ^ 60) b }
    ensures value { result ≡ bound_at_first (gain_numbers gain.now) b }
    ensures range { IsBoundUpTo (2 ^ 93) result }
{
    let (g, h) = gain.first();
    state_bound(g, h, b)
}

// A bound of `s2 - a1*s1/2^32` and one of s1 give one of s2.
fn second_with_first(a1: i64, second: i128, first: i128) -> i128
    requires a1 { unsigned_abs a1 ≤ 2 ^ 33 }
    requires second { IsUpTo (2 ^ 60) second }
    requires first { IsUpTo (2 ^ 60) first }
    ensures value { result ≡ second_and_first a1 second first }
    ensures range { IsUpTo (2 ^ 63) result }
{
    second + rounded_up(i128::from(a1.unsigned_abs()) * first)
}

fn second_state_bound(gain: &Gain, b: OwnBound) -> OwnBound
    requires { IsBoundUpTo (2 ^ 60) b }
    ensures value { result ≡ bound_at_second (gain_numbers gain.now) b }
    ensures range { IsBoundUpTo (2 ^ 93) result }
{
    if has_one_row(gain) {
        return NONE;
    }
    let a1 = gain.coefs().a1;
    let (g, h) = gain.first();
    let (second_g, second_h) = gain.second();
    state_bound(
        second_with_first(a1, second_g, g),
        second_with_first(a1, second_h, h),
        b,
    )
}

// Whether both numbers are below 2^60.
fn is_small(b: OwnBound) -> bool
    ensures { IsTrue result ↔ IsSmallBound b }
{
    b.input < LIMIT && b.rounding < LIMIT
}

fn sum(b: OwnBound, c: OwnBound) -> OwnBound
    requires first { IsBoundUpTo (2 ^ 125) b }
    requires second { IsBoundUpTo (2 ^ 125) c }
    ensures { result ≡ both b c }
{
    OwnBound {
        input: b.input + c.input,
        rounding: b.rounding + c.rounding,
    }
}

// The bound of a number of a form times a state's error.
fn number_bound(number: i128, b: OwnBound) -> OwnBound
    requires number { unsigned_abs number < 2 ^ 60 }
    requires bound { IsBoundUpTo (2 ^ 60) b }
    ensures input { result.input ≡ pos (unsigned_abs number) *ℤ b.input }
    ensures rounding { result.rounding ≡ pos (unsigned_abs number) *ℤ b.rounding }
    ensures range { IsBoundUpTo (2 ^ 120) result }
{
    let size = number.abs();
    OwnBound {
        input: size * b.input,
        rounding: size * b.rounding,
    }
}

// One section's bounds from that of its input, and the bound of its part of a form; or none where a bound reaches 2^60.
fn section_bounds(gain: &Gain, b: OwnBound, part: FormPart) -> Option<SectionBounds>
    requires input { input_of gain.now <ℤ pos (2 ^ 36) }
    requires bound { IsBoundUpTo (2 ^ 93) b }
    requires part { IsSmallPart part }
    ensures some { IsSome result ↔ (IsSmallBound b × IsSmallBound (bound_at_first (gain_numbers gain.now) b)
        × IsSmallBound (bound_at_second (gain_numbers gain.now) b)) }
    ensures value { IfSome result (λ s. IsSectionBounds (gain_numbers gain.now) b part s) }
{
    if !is_small(b) {
        return None;
    }
    let first = first_state_bound(gain, b);
    let second = second_state_bound(gain, b);
    if !is_small(first) || !is_small(second) {
        return None;
    }
    Some(SectionBounds {
        output: output_bound(gain, b),
        part: sum(number_bound(part.u, first), number_bound(part.v, second)),
    })
}

/// The bounds of all signals of the sections and of a form of their states; or none where a bound of a signal or a
/// state reaches 2^60.
pub(crate) fn own_bounds(gains: &[Gain], form: [FormPart; 6]) -> Option<Owned>
    requires count { length gains.now ≡ 6 }
    requires inputs { All (λ g. input_of g <ℤ pos (2 ^ 36)) gains.now }
    requires form { All IsSmallPart form }
    ensures some { IsSome result ↔ (AreSmallBounds first_bound (map gain_numbers gains.now)) }
    ensures value { IfSome result (λ o. IsOwned first_bound (map gain_numbers gains.now) form o) }
{
    let mut bound = OwnBound {
        input: ONE,
        rounding: 0,
    };
    let mut signals = NONE;
    let mut of_form = NONE;
    for i in 0..6 {
        let section = section_bounds(&gains[i], bound, form[i])?;
        signals = sum(signals, sum(bound, section.output));
        of_form = sum(of_form, section.part);
        bound = section.output;
    }
    if !is_small(bound) {
        return None;
    }
    Some(Owned {
        signals,
        form: of_form,
    })
}
