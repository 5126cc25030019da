//! One sample of a section: direct form II transposed in whole numbers, with each product rounded down.

ghost use Rattle.std.specs.Prelude.{◌≡◌, ◌+◌, ◌*◌, ◌^◌, ◌<◌, ◌≤◌, ◌-ℤ◌};
ghost use Rattle.std.specs.Int.RustNames.{unsigned_abs};
ghost use Rattle.flk_cert.specs.RoundedSection.{product as rounded_product, output as output_at, after};
ghost use Rattle.flk_section.specs.Kept.{as_state};

use flk_cert::Coefs;

/// The two states of a section, in units of 2^-48.
#[derive(Clone, Copy, Debug, PartialEq, Eq)]
pub struct State {
    pub s1: i128,
    pub s2: i128,
}

// A coefficient times a value, rounded down. (A coefficient is a whole number over 2^32.)
fn product(k: i64, v: i128) -> i128
    requires coefficient { unsigned_abs k ≤ 2 ^ 33 }
    requires value { unsigned_abs v ≤ 2 ^ 67 }
    ensures value { result ≡ rounded_product k v }
    ensures small { unsigned_abs result ≤ 2 * unsigned_abs v + 1 }
{
    (i128::from(k) * v) >> 32
}

/// The output for the input `mid`, which is below 2^60 in size.
pub(crate) fn output_of(k: &Coefs, state: State, mid: i128) -> i128
    requires mid { unsigned_abs mid < 2 ^ 60 }
    requires first { unsigned_abs state.s1 ≤ 2 ^ 66 }
    ensures value { result ≡ output_at k.now (as_state state) mid }
    ensures small { unsigned_abs result ≤ 2 ^ 67 }
{
    product(k.b0, mid) + state.s1
}

// What the input and the output bring to a state: the product of one less that of the other.
fn brought(b: i64, mid: i128, a: i64, output: i128) -> i128
    requires b { unsigned_abs b ≤ 2 ^ 33 }
    requires a { unsigned_abs a ≤ 2 ^ 33 }
    requires mid { unsigned_abs mid < 2 ^ 60 }
    requires output { unsigned_abs output ≤ 2 ^ 67 }
    ensures value { result ≡ rounded_product b mid -ℤ rounded_product a output }
    ensures small { unsigned_abs result ≤ 2 ^ 69 }
{
    product(b, mid) - product(a, output)
}

/// The states after the input `mid` and its output.
pub(crate) fn state_after(k: &Coefs, state: State, mid: i128, output: i128) -> State
    requires mid { unsigned_abs mid < 2 ^ 60 }
    requires second { unsigned_abs state.s2 ≤ 2 ^ 68 }
    requires output { output ≡ output_at k.now (as_state state) mid }
    requires output_small { unsigned_abs output ≤ 2 ^ 67 }
    ensures { as_state result ≡ after k.now (as_state state) mid }
{
    State {
        s1: brought(k.b1, mid, k.a1, output) + state.s2,
        s2: brought(k.b2, mid, k.a2, output),
    }
}
