//! Whole numbers.

ghost use Rattle.std.specs.Prelude.{◌≡◌, ◌≤◌, ◌^◌, IfOk, unsigned_abs};
ghost use Rattle.flk_text.specs.Decimal.{signed as signed_size};
ghost use Rattle.flk_text.specs.WholeNumber.{IsWholeAnswer};

use crate::NumFault;
use crate::numeral::{number_up_to, whole_parts};

/// The value of a whole number's text, from -10^12 to 10^12. A whole number is a sign `+` or `-` or none, and one or
/// more digits.
///
/// `Syntax` exactly where the text is of no such form, `Range` exactly where the value is above 10^12 in size.
pub fn whole(text: &[u8]) -> Result<i64, NumFault>
    ensures answer { IsWholeAnswer text.now result }
    ensures small { IfOk result (λ z. unsigned_abs z ≤ 10 ^ 12) }
{
    let Some((minus, digits)) = whole_parts(text) else {
        return Err(NumFault::Syntax);
    };
    let size = number_up_to(digits, 1_000_000_000_001);
    if size > 1_000_000_000_000 {
        return Err(NumFault::Range);
    }
    Ok(signed(minus, size))
}

/// The number with its sign.
pub fn signed(minus: bool, size: u64) -> i64
    requires { size ≤ 10 ^ 12 }
    ensures value { result ≡ signed_size minus size }
    ensures small { unsigned_abs result ≤ 10 ^ 12 }
{
    let plain = size as i64;
    if minus { -plain } else { plain }
}
