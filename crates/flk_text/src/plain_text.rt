//! The plain text of a decimal.

ghost use Rattle.std.specs.Prelude.{◌≡◌, ◌+◌, ◌<◌, ◌≤◌, ◌^◌, ◌++◌, OnOk, OnErr, vec_len, vec_capacity, decimal};
ghost use Rattle.flk_text.specs.PlainText.{places_below, fraction_text, plain_size, plain};

use crate::DecimalValue;
use crate::digits::power_of_ten;
use itoa::Buffer;
use std::alloc::AllocError;

/// The length of the longest plain text: a sign, 15 digits, a point and 24 digits.
const LONGEST: usize = 41;

/// Units of 10^-24 in 1.
const UNITS: u128 = 1_000_000_000_000_000_000_000_000;

/// Appends the plain text of a decimal: `-` where it is negative, the whole part without leading zeros (at least `0`),
/// and, where a fraction remains, a point and the fraction without trailing zeros. Where memory is short `out` stays as
/// it was.
pub fn push_decimal(out: &mut Vec<u8>, d: DecimalValue) -> Result<(), AllocError>
    ensures ok { OnOk result (out.new.items ≡ out.old.items ++ plain d.n) }
    ensures err { OnErr result (out.new.items ≡ out.old.items) }
{
    out.reserve(LONGEST)?;
    push_plain(out, d.n);
    Ok(())
}

/// Appends the plain text of so many units of 10^-24.
fn push_plain(out: &mut Vec<u8>, n: i128)
    requires room { vec_len out.old + 41 ≤ vec_capacity out.old }
    ensures { out.new.items ≡ out.old.items ++ plain n }
{
    if n < 0 {
        out.push_reserved(b'-');
    }
    push_size(out, n.unsigned_abs());
}

/// Appends the plain text of so many units of 10^-24.
fn push_size(out: &mut Vec<u8>, size: u128)
    requires small { size ≤ 2 ^ 127 }
    requires room { vec_len out.old + 40 ≤ vec_capacity out.old }
    ensures { out.new.items ≡ out.old.items ++ plain_size size }
{
    push_whole(out, (size / UNITS) as u64);
    push_fraction(out, size % UNITS);
}

/// Appends the digits of a whole number below 10^15, without leading zeros and at least `0`, to bytes that have room
/// for 15 more.
pub fn push_whole(out: &mut Vec<u8>, whole: u64)
    requires small { whole < 10 ^ 15 }
    requires room { vec_len out.old + 15 ≤ vec_capacity out.old }
    ensures text { out.new.items ≡ out.old.items ++ decimal whole }
    ensures len { vec_len out.new ≤ vec_len out.old + 15 }
    ensures capacity { vec_capacity out.new ≡ vec_capacity out.old }
{
    let mut buffer = Buffer::new();
    for digit in buffer.format(whole).as_bytes() {
        out.push_reserved(*digit);
    }
}

/// Appends a point and the digits after it, or nothing where no fraction remains.
fn push_fraction(out: &mut Vec<u8>, fraction: u128)
    requires below { fraction < 10 ^ 24 }
    requires room { vec_len out.old + 25 ≤ vec_capacity out.old }
    ensures { out.new.items ≡ out.old.items ++ fraction_text fraction }
{
    if fraction == 0 {
        return;
    }
    out.push_reserved(b'.');
    push_places(out, fraction, 24);
}

/// Appends the digits of a fraction of so many places, from the left until nothing remains.
fn push_places(out: &mut Vec<u8>, fraction: u128, places: u32)
    requires few { places ≤ 24 }
    requires below { fraction < 10 ^ places }
    requires room { vec_len out.old + places ≤ vec_capacity out.old }
    ensures { out.new.items ≡ out.old.items ++ places_below places fraction }
{
    let mut left = fraction;
    let mut count = places;
    while left > 0 {
        count -= 1;
        let unit = power_of_ten(count);
        out.push_reserved(b'0' + (left / unit) as u8);
        left %= unit;
    }
}
