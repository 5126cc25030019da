//! The numbers of which the rows of certificates are made, and by which they are judged. Each fits 128 bits.

ghost use Rattle.std.specs.Prelude.{◌≡◌, ◌+◌, ◌*◌, ◌^◌, ◌<◌, ◌≤◌, pos, ◌+ℤ◌, ◌-ℤ◌, ◌*ℤ◌};
ghost use Rattle.std.specs.Int.RustNames.{unsigned_abs};
ghost use Rattle.flk_cert.specs.Row.{IsUpTo, fed_back, input_share, rounding_share};

use crate::certificate::CertRow;
use crate::coefs::Coefs;

// The form `x * s1 + y * s2` of the errors of a section's two states.
#[derive(Clone, Copy)]
pub struct Form {
    pub x: i64,
    pub y: i64,
}

// 2^32: a coefficient is a whole number over it.
pub(crate) const COEFFICIENT_UNIT: i128 = 4_294_967_296;

// 2^64: `c` and `d` of a row are whole numbers over it.
pub(crate) const ROW_UNIT: i128 = 18_446_744_073_709_551_616;

// A coefficient times a number of a form, or times a coefficient.
pub(crate) fn product(a: i64, b: i64) -> i128
    requires { unsigned_abs a ≤ 2 ^ 33 }
    ensures value { result ≡ a *ℤ b }
    ensures small { unsigned_abs result ≤ 2 ^ 33 * unsigned_abs b }
{
    i128::from(a) * i128::from(b)
}

// How much of the first state's error a form takes up over one sample.
pub(crate) fn first_state_part(k: &Coefs, form: Form) -> i128
    ensures value { result ≡ fed_back k.now form.x form.y }
    ensures small { unsigned_abs result ≤ 2 ^ 33 * unsigned_abs form.x + 2 ^ 33 * unsigned_abs form.y }
{
    -product(k.a1, form.x) - product(k.a2, form.y)
}

// `2^32 * b - a * b0`: how much of the input's error a sample brings to a state.
fn input_part(b: i64, a: i64, b0: i64) -> i128
    requires b { unsigned_abs b ≤ 2 ^ 33 }
    requires a { unsigned_abs a ≤ 2 ^ 33 }
    requires b0 { unsigned_abs b0 ≤ 2 ^ 33 }
    ensures value { result ≡ pos (2 ^ 32) *ℤ b -ℤ a *ℤ b0 }
    ensures small { unsigned_abs result ≤ 3 * 2 ^ 65 }
{
    COEFFICIENT_UNIT * i128::from(b) - product(a, b0)
}

// A number of a form times such a part.
fn input_product(x: i64, part: i128) -> i128
    requires x { unsigned_abs x < 2 ^ 44 }
    requires part { unsigned_abs part ≤ 3 * 2 ^ 65 }
    ensures value { result ≡ x *ℤ part }
    ensures small { unsigned_abs result ≤ 3 * 2 ^ 109 }
{
    i128::from(x) * part
}

// The size of a number.
pub(crate) fn size(a: i128) -> i128
    requires { unsigned_abs a ≤ 2 ^ 126 }
    ensures { result ≡ pos (unsigned_abs a) }
{
    a.abs()
}

// How much of the input's error a row takes up.
pub(crate) fn input_share_of(k: &Coefs, row: CertRow) -> i128
    requires x { unsigned_abs row.x < 2 ^ 44 }
    requires y { unsigned_abs row.y < 2 ^ 44 }
    ensures value { result ≡ pos (input_share k.now row.x row.y) }
    ensures within { IsUpTo (2 ^ 112) result }
{
    let first = input_product(row.x, input_part(k.b1, k.a1, k.b0));
    let second = input_product(row.y, input_part(k.b2, k.a2, k.b0));
    size(first + second)
}

// Two kinds of rounding together: of what the first state's error brings, and of the states.
fn rounding_total(back: i128, states: i128) -> i128
    requires back { IsUpTo (2 ^ 78) back }
    requires states { IsUpTo (2 ^ 45) states }
    ensures value { result ≡ pos (2 ^ 32) *ℤ back +ℤ pos (2 ^ 64) *ℤ states }
    ensures within { IsUpTo (2 ^ 112) result }
{
    COEFFICIENT_UNIT * back + ROW_UNIT * states
}

// The sizes of the two numbers of a form.
fn form_size(form: Form) -> i128
    requires x { unsigned_abs form.x < 2 ^ 44 }
    requires y { unsigned_abs form.y < 2 ^ 44 }
    ensures value { result ≡ pos (unsigned_abs form.x + unsigned_abs form.y) }
    ensures within { IsUpTo (2 ^ 45) result }
{
    i128::from(form.x.unsigned_abs() + form.y.unsigned_abs())
}

// How much of the rounding of products a row takes up.
pub(crate) fn rounding_share_of(k: &Coefs, row: CertRow) -> i128
    requires x { unsigned_abs row.x < 2 ^ 44 }
    requires y { unsigned_abs row.y < 2 ^ 44 }
    ensures value { result ≡ pos (rounding_share k.now row.x row.y) }
    ensures within { IsUpTo (2 ^ 112) result }
{
    let form = Form { x: row.x, y: row.y };
    rounding_total(size(first_state_part(k, form)), form_size(form))
}
