//! Forms of the state errors of the sections behind the first, followed back from the last output: `specs/Forms` says
//! what they are.

ghost use Rattle.std.specs.Prelude.{◌≡◌, ◌^◌, ◌<◌, ◌≤◌, ◌↔◌, length, map, IsTrue, IsSome, IfSome, pos, ◌+ℤ◌, ◌*ℤ◌};
ghost use Rattle.std.specs.Int.RustNames.{unsigned_abs};
ghost use Rattle.std.specs.List.{All};
ghost use Rattle.flk_exact.specs.Rounding.{floor_of};
ghost use Rattle.flk_cert.specs.Gain.{gain_numbers};
ghost use Rattle.flk_cert.specs.Row.{fed_back};
ghost use Rattle.flk_section.specs.OwnBounds.{has_one_row as one_row};
ghost use Rattle.flk_section.specs.Forms.{number_at_output as output_number, number_at_input as input_number, part_before as part_before_sample, AreSmallNumbers, StaySmallNumbers, no_form};
ghost use Rattle.flk_section.specs.Chain.{chain_samples as samples};
ghost use Rattle.flk_section.specs.Followed.{IsSmallPart, IsSectionBack, IsSampleBack, IsFollowed};

use flk_cert::{Coefs, Gain};

// 1, over 2^32.
const ONE: i128 = 4_294_967_296;

// 2^60
const NUMBER_LIMIT: u128 = 1_152_921_504_606_846_976;

/// The numbers of a form for one section, over 2^32: what multiplies the errors of its first and of its second state.
#[derive(Clone, Copy, Debug, PartialEq, Eq)]
pub struct FormPart {
    pub u: i128,
    pub v: i128,
}

// What one section makes of its part of a form: the new part, the number at its input, and its share.
#[derive(Clone, Copy)]
struct SectionBack {
    part: FormPart,
    number: i128,
    share: u128,
}

// What one sample makes of a form: the new form, the weight at the first section's input, and the share of rounding.
#[derive(Clone, Copy)]
struct SampleBack {
    form: [FormPart; 6],
    weight: i128,
    share: u128,
}

/// The form that is left after all samples, and the sums of the weights' sizes and of the shares.
#[derive(Clone, Copy)]
pub struct Followed {
    pub form: [FormPart; 6],
    pub weights: u128,
    pub shares: u128,
}

// A coefficient times a number of a form.
fn times(k: i64, number: i128) -> i128
    requires coefficient { unsigned_abs k ≤ 2 ^ 33 }
    requires number { unsigned_abs number < 2 ^ 60 }
    ensures value { result ≡ k *ℤ number }
    ensures small { unsigned_abs result ≤ 2 ^ 93 }
{
    i128::from(k) * number
}

// `wide / 2^32`, rounded down.
fn rounded_down(wide: i128) -> i128
    requires { unsigned_abs wide ≤ 2 ^ 95 }
    ensures value { result ≡ floor_of wide (pos (2 ^ 32)) }
    ensures small { unsigned_abs result ≤ 2 ^ 63 }
{
    wide >> 32
}

// What the first state takes up of the output.
fn taken_up(k: &Coefs, part: FormPart) -> i128
    requires { IsSmallPart part }
    ensures value { result ≡ fed_back k.now part.u part.v }
    ensures small { unsigned_abs result ≤ 2 ^ 95 }
{
    -times(k.a1, part.u) - times(k.a2, part.v)
}

// The number at the output of a section, from the number z of the sections behind it.
fn number_at_output(gain: &Gain, z: i128, part: FormPart) -> i128
    requires z { unsigned_abs z < 2 ^ 60 }
    requires part { IsSmallPart part }
    ensures { result ≡ output_number (gain_numbers gain.now) z part }
{
    z + rounded_down(taken_up(&gain.coefs(), part))
}

// The input's share of a section's output and states.
fn passed_on(k: &Coefs, out: i128, part: FormPart) -> i128
    requires out { unsigned_abs out < 2 ^ 60 }
    requires part { IsSmallPart part }
    ensures value { result ≡ out *ℤ k.now.b0 +ℤ part.u *ℤ k.now.b1 +ℤ part.v *ℤ k.now.b2 }
    ensures small { unsigned_abs result ≤ 2 ^ 95 }
{
    times(k.b0, out) + times(k.b1, part.u) + times(k.b2, part.v)
}

// The number at the input of a section, from that at its output.
fn number_at_input(gain: &Gain, out: i128, part: FormPart) -> i128
    requires out { unsigned_abs out < 2 ^ 60 }
    requires part { IsSmallPart part }
    ensures { result ≡ input_number (gain_numbers gain.now) out part }
{
    rounded_down(passed_on(&gain.coefs(), out, part))
}

// Whether the gain is of a certificate of one row, so that the second state has no error.
pub(crate) fn has_one_row(gain: &Gain) -> bool
    ensures { result ≡ one_row (gain_numbers gain.now) }
{
    gain.second().1 == 0
}

// A section's part of the new form.
fn part_before(gain: &Gain, out: i128, part: FormPart) -> FormPart
    ensures { result ≡ part_before_sample (gain_numbers gain.now) out part }
{
    FormPart {
        u: out,
        v: if has_one_row(gain) { 0 } else { part.u },
    }
}

// Whether a number of a form is below 2^60 in size.
fn is_small(number: i128) -> bool
    ensures { IsTrue result ↔ (unsigned_abs number < 2 ^ 60) }
{
    number.unsigned_abs() < NUMBER_LIMIT
}

// One section of a sample, or none where a number reaches 2^60 in size.
fn section_back(gain: &Gain, z: i128, part: FormPart) -> Option<SectionBack>
    requires z { unsigned_abs z < 2 ^ 60 }
    requires part { IsSmallPart part }
    ensures some { IsSome result ↔ ((unsigned_abs (output_number (gain_numbers gain.now) z part) < 2 ^ 60)
        × (unsigned_abs (input_number (gain_numbers gain.now)
        (output_number (gain_numbers gain.now) z part) part) < 2 ^ 60)) }
    ensures value { IfSome result (λ s. IsSectionBack (gain_numbers gain.now) z part s) }
{
    let out = number_at_output(gain, z, part);
    if !is_small(out) {
        return None;
    }
    let number = number_at_input(gain, out, part);
    if !is_small(number) {
        return None;
    }
    Some(SectionBack {
        part: part_before(gain, out, part),
        number,
        share: out.unsigned_abs() + part.u.unsigned_abs() + part.v.unsigned_abs(),
    })
}

// One sample through the sections, from the last to the first; or none where a number reaches 2^60 in size.
fn sample_back(gains: &[Gain], form: [FormPart; 6], z: i128) -> Option<SampleBack>
    requires count { length gains.now ≡ 6 }
    requires form { All IsSmallPart form }
    requires z { unsigned_abs z < 2 ^ 60 }
    ensures some { IsSome result ↔ (AreSmallNumbers z (map gain_numbers gains.now) form) }
    ensures value { IfSome result (λ s. IsSampleBack z (map gain_numbers gains.now) form s) }
{
    let mut before = form;
    let mut weight = z;
    let mut share = 0;
    let mut left = 6;
    while left > 0 {
        left -= 1;
        let section = section_back(&gains[left], weight, form[left])?;
        before[left] = section.part;
        weight = section.number;
        share += section.share;
    }
    Some(SampleBack {
        form: before,
        weight,
        share,
    })
}

// The samples through which the last output is followed back.
pub(crate) fn chain_samples() -> u32
    ensures value { result ≡ samples }
    ensures small { result ≤ 4097 }
{
    4097
}

/// Follows the last output's error back through all samples; or none where a number reaches 2^60 in size.
pub(crate) fn follow_back(gains: &[Gain]) -> Option<Followed>
    requires { length gains.now ≡ 6 }
    ensures some { IsSome result
        ↔ (StaySmallNumbers (pos (2 ^ 32)) (map gain_numbers gains.now)
        (no_form (map gain_numbers gains.now)) samples) }
    ensures value { IfSome result (λ f. IsFollowed (pos (2 ^ 32)) (map gain_numbers gains.now)
        (no_form (map gain_numbers gains.now)) samples f) }
{
    let mut form = [FormPart { u: 0, v: 0 }; 6];
    let mut weights = 0;
    let mut shares = 0;
    let mut z = ONE;
    for _ in 0..chain_samples() {
        let sample = sample_back(gains, form, z)?;
        form = sample.form;
        weights += sample.weight.unsigned_abs();
        shares += sample.share;
        z = 0;
    }
    Some(Followed {
        form,
        weights,
        shares,
    })
}
