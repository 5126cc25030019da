//! One sample of a section on 64 bits, where its input and its output are below 2^60 in size, as in a cascade.

ghost use Rattle.std.specs.Prelude.{◌≡◌, ◌+◌, ◌*◌, ◌^◌, ◌<◌, ◌≤◌, pos, ◌+ℤ◌, ◌-ℤ◌, ◌*ℤ◌};
ghost use Rattle.std.specs.Int.RustNames.{unsigned_abs};
ghost use Rattle.flk_exact.specs.Rounding.{floor_of};
ghost use Rattle.flk_section.specs.Narrow.{fine_product};

use crate::products::{InputProducts, OutputProducts};

/// The two states of a section, in units of 2^-48.
#[derive(Clone, Copy, Debug, PartialEq, Eq)]
pub struct NarrowState {
    pub s1: i64,
    pub s2: i64,
}

/// A coefficient over 2^61 times 8 times a value, for which one instruction is enough.
#[inline(always)]
pub(crate) fn wide_product(k: i64, v: i64) -> i128
    requires coefficient { unsigned_abs k ≤ 2 ^ 62 }
    requires value { unsigned_abs v < 2 ^ 60 }
    ensures value { result ≡ k *ℤ (pos 8 *ℤ v) }
    ensures small { unsigned_abs result ≤ 2 ^ 125 }
{
    i128::from(k) * i128::from(8 * v)
}

/// The upper half of a number of 128 bits: it over 2^64, rounded down.
#[inline(always)]
pub(crate) fn upper_half(wide: i128) -> i64
    requires { unsigned_abs wide ≤ 2 ^ 126 }
    ensures { result ≡ floor_of wide (pos (2 ^ 64)) }
{
    (wide >> 64) as i64
}

/// A coefficient over 2^61 times a value, rounded down.
#[inline(always)]
pub(crate) fn product(k: i64, v: i64) -> i64
    requires coefficient { unsigned_abs k ≤ 2 ^ 62 }
    requires value { unsigned_abs v < 2 ^ 60 }
    ensures value { result ≡ fine_product k v }
    ensures small { unsigned_abs result ≤ 2 ^ 61 }
{
    upper_half(wide_product(k, v))
}

/// The output, from the products of the input.
#[inline(always)]
pub(crate) fn output_of(input: InputProducts, state: NarrowState) -> i64
    requires { unsigned_abs state.s1 ≤ 2 ^ 61 }
    ensures { result ≡ input.b0 +ℤ state.s1 }
{
    input.b0 + state.s1
}

/// The states after a sample with these products. The first is at most 2^61 in size. What the input brings is added to
/// the second state first: only so each sum fits.
#[inline(always)]
pub(crate) fn state_after(
    state: NarrowState,
    input: InputProducts,
    output: OutputProducts,
) -> NarrowState
    requires second { unsigned_abs state.s2 ≤ 2 ^ 62 + 2 ^ 50 }
    requires small { unsigned_abs (input.b1 +ℤ state.s2 -ℤ output.a1) ≤ 2 ^ 61 }
    ensures first { result.s1 ≡ input.b1 +ℤ state.s2 -ℤ output.a1 }
    ensures second { result.s2 ≡ input.b2 -ℤ output.a2 }
{
    NarrowState {
        s1: input.b1 + state.s2 - output.a1,
        s2: input.b2 - output.a2,
    }
}
