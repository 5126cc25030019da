//! Decimals and their values.

ghost use Rattle.std.specs.Prelude.{◌≡◌, ℕ, ◌+◌, ◌*◌, ◌<◌, ◌≤◌, ◌^◌, MatchOption, IfOk, length, unsigned_abs};
ghost use Rattle.flk_text.specs.Numeral.{AreDigits, digits_number};
ghost use Rattle.flk_text.specs.Decimal.{IsUnits, IsInSet, IsAnswer, signed as signed_units};
ghost use Rattle.flk_text.specs.NumeralView.{numeral};
ghost use Rattle.flk_text.specs.DigitsRead.{StandsFor};

use crate::digits::{DigitsRead, NO_DIGITS, power_of_ten, with_digits};
use crate::numeral::{NumeralParts, numeral_parts};

/// The value of a decimal, exactly: `n` units of 10^-24.
#[derive(Clone, Copy, Debug, PartialEq, Eq)]
pub struct DecimalValue {
    /// The number of units of 10^-24; from -10^36 to 10^36 where it was read from a text.
    pub n: i128,
}

/// Why a text has no value.
#[derive(Clone, Copy, Debug, PartialEq, Eq)]
pub enum NumFault {
    /// The text isn't of the form.
    Syntax,
    /// The text is of the form, and its value isn't in the set.
    Range,
}

/// The value of a decimal's text. A decimal is a sign `+` or `-` or none, then digits with at most one point and at
/// least one digit, then nothing, or `E` or `e` with a sign or none and one to three digits.
///
/// `Syntax` exactly where the text is of no such form. Else the value is m times 10^e, where m is 0 or a whole number
/// that 10 doesn't divide, and the answer is `Range` exactly where m has more than 18 digits, or e is below -24 and m
/// isn't 0, or the value is above 10^12 in size.
pub fn decimal(text: &[u8]) -> Result<DecimalValue, NumFault>
    ensures answer { IsAnswer text.now result }
    ensures small { IfOk result (λ d. unsigned_abs d.n ≤ 10 ^ 36) }
{
    let Some(parts) = numeral_parts(text) else {
        return Err(NumFault::Syntax);
    };
    match units_of(&parts) {
        None => Err(NumFault::Range),
        Some(units) => Ok(DecimalValue {
            n: signed(parts.minus, units),
        }),
    }
}

/// The value of the parts without the sign, in units of 10^-24, or None where it isn't in the set.
fn units_of(parts: &NumeralParts<'_>) -> Option<u128>
    requires whole { AreDigits parts.now.whole.now }
    requires fraction { AreDigits parts.now.fraction.now }
    requires left { parts.now.left < 1000 }
    ensures { MatchOption result ((u : ℕ)
        → IsUnits (digits_number (numeral parts.now)) parts.now.right (parts.now.left + length parts.now.fraction.now) u
        → IsInSet u → ⊥)
        (λ u. IsUnits (digits_number (numeral parts.now)) parts.now.right
        (parts.now.left + length parts.now.fraction.now) u × IsInSet u) }
{
    let digits = with_digits(with_digits(NO_DIGITS, parts.whole), parts.fraction);
    moved(
        digits,
        parts.right,
        u64::from(parts.left) + parts.fraction.len() as u64,
    )
}

/// The number with its point moved, in units of 10^-24, or None where it isn't in the set.
fn moved(digits: DigitsRead, right: u32, left: u64) -> Option<u128>
    requires few { digits.significand < 10 ^ 18 }
    ensures { (n : ℕ) → StandsFor digits n
        → MatchOption result ((u : ℕ) → IsUnits n right left u → IsInSet u → ⊥)
        (λ u. IsUnits n right left u × IsInSet u) }
{
    if digits.long {
        return None;
    }
    if digits.significand == 0 {
        return Some(0);
    }
    let up = u128::from(digits.zeros) + u128::from(right) + 24;
    let down = u128::from(left);
    if up < down {
        return None;
    }
    if up - down > 36 {
        return None;
    }
    scaled(digits.significand, (up - down) as u32)
}

/// The number times a power of 10, or None where it is above 10^36.
fn scaled(significand: u64, places: u32) -> Option<u128>
    requires few { significand < 10 ^ 18 }
    requires places { places ≤ 36 }
    ensures { MatchOption result (10 ^ 36 < significand * 10 ^ places)
        (λ u. (u ≡ significand * 10 ^ places) × (u ≤ 10 ^ 36)) }
{
    let product = u128::from(significand).checked_mul(power_of_ten(places))?;
    (product <= 1_000_000_000_000_000_000_000_000_000_000_000_000).then_some(product)
}

/// The number with its sign.
fn signed(minus: bool, units: u128) -> i128
    requires { units ≤ 10 ^ 36 }
    ensures value { result ≡ signed_units minus units }
    ensures small { unsigned_abs result ≤ 10 ^ 36 }
{
    let plain = units as i128;
    if minus { -plain } else { plain }
}
