//! The text of a number, cut into its parts: sign, digits, fraction and exponent.

ghost use Rattle.std.specs.Prelude.{◌≡◌, ◌+◌, ◌<◌, ◌≤◌, ◌^◌, min, length, Some, None, option_map, IfSome};
ghost use Rattle.std.specs.List.{prefix_len};
ghost use Rattle.flk_text.specs.Numeral.{is_digit as digit_byte, number_from, AreDigits};
ghost use Rattle.flk_text.specs.NumeralView.{numeral};
ghost use Rattle.flk_text.specs.NumeralParts.{digits_of, after_digits, sign_of, fraction_of, exponent_of, numeral_of, whole_of};

/// The parts of a decimal's text.
#[derive(Clone, Copy)]
pub struct NumeralParts<'a> {
    /// Whether a minus stands in front.
    pub minus: bool,
    /// The digits before the point.
    pub whole: &'a [u8],
    /// The digits after the point.
    pub fraction: &'a [u8],
    /// The places by which the exponent moves the point to the right, 0 to 999.
    pub right: u32,
    /// The places by which the exponent moves the point to the left, 0 to 999.
    pub left: u32,
}

/// Whether the byte is a digit, `0` to `9`.
pub fn is_digit(byte: u8) -> bool
    ensures { result ≡ digit_byte byte }
{
    b'0' <= byte && byte <= b'9'
}

/// How many digits the bytes begin with.
fn digit_count(bytes: &[u8]) -> usize
    ensures count { result ≡ prefix_len digit_byte bytes.now }
    ensures within { result ≤ length bytes.now }
{
    let mut count = 0;
    for byte in bytes {
        if !is_digit(*byte) {
            return count;
        }
        count += 1;
    }
    count
}

/// The digits that the bytes begin with, and what follows them.
#[tactic(auto, using(crate::proofs::DigitRuns::digits_are))]
fn digits(bytes: &[u8]) -> (&[u8], &[u8])
    ensures front { result.0.now ≡ digits_of bytes.now }
    ensures are { AreDigits result.0.now }
    ensures rest { result.1.now ≡ after_digits bytes.now }
{
    let count = digit_count(bytes);
    bytes.split_at(count)
}

/// Whether a minus stands in front, and what follows the sign.
#[tactic(auto, unfolding(crate::specs::NumeralParts::sign_of))]
pub fn sign(bytes: &[u8]) -> (bool, &[u8])
    ensures { (result.0, result.1.now) ≡ sign_of bytes.now }
{
    match bytes {
        [b'-', rest @ ..] => (true, rest),
        [b'+', rest @ ..] => (false, rest),
        _ => (false, bytes),
    }
}

/// The digits after a point in front, and what follows them.
#[tactic(auto, unfolding(crate::specs::NumeralParts::fraction_of))]
fn fraction(bytes: &[u8]) -> (&[u8], &[u8])
    ensures parts { (result.0.now, result.1.now) ≡ fraction_of bytes.now }
    ensures are { AreDigits result.0.now }
{
    match bytes {
        [b'.', rest @ ..] => digits(rest),
        _ => (&bytes[..0], bytes),
    }
}

/// The number that the digits write, or `cap` where it is above.
pub fn number_up_to(digits: &[u8], cap: u64) -> u64
    requires small { cap ≤ 2 ^ 50 }
    requires are { AreDigits digits.now }
    ensures { result ≡ min (number_from 0 digits.now) cap }
{
    let mut number = 0;
    for byte in digits {
        number = (number * 10 + u64::from(*byte - b'0')).min(cap);
    }
    number
}

/// The number that one to three digits write.
#[tactic(auto, using(crate::proofs::DigitRuns::number_three))]
fn exponent_digits(digits: &[u8]) -> u32
    requires few { length digits.now ≤ 3 }
    requires are { AreDigits digits.now }
    ensures value { result ≡ number_from 0 digits.now }
    ensures small { result < 1000 }
{
    number_up_to(digits, 1000) as u32
}

/// The places by which an exponent, which is all of the bytes, moves the point to the right and to the left, or None
/// where the bytes are no exponent.
#[tactic(auto, unfolding(crate::specs::NumeralParts::exponent_of))]
fn exponent(bytes: &[u8]) -> Option<(u32, u32)>
    ensures value { result ≡ exponent_of bytes.now }
    ensures small { IfSome result (λ e. (e.0 < 1000) × (e.1 < 1000)) }
{
    match bytes {
        [] => Some((0, 0)),
        [b'E' | b'e', rest @ ..] => {
            let (minus, rest) = sign(rest);
            let (digits, rest) = digits(rest);
            if !rest.is_empty() || digits.is_empty() || digits.len() > 3 {
                return None;
            }
            let places = exponent_digits(digits);
            if minus {
                Some((0, places))
            } else {
                Some((places, 0))
            }
        }
        _ => None,
    }
}

/// The parts of a decimal's text, or None where the text isn't of a decimal's form.
#[tactic(auto, unfolding(crate::specs::NumeralParts::numeral_of))]
pub fn numeral_parts(text: &[u8]) -> Option<NumeralParts<'_>>
    ensures value { option_map numeral result ≡ numeral_of text.now }
    ensures small { IfSome result (λ s. (s.right < 1000) × (s.left < 1000)) }
    ensures are { IfSome result (λ s. AreDigits s.whole.now × AreDigits s.fraction.now) }
{
    let (minus, rest) = sign(text);
    let (whole, rest) = digits(rest);
    let (fraction, rest) = fraction(rest);
    if whole.is_empty() && fraction.is_empty() {
        return None;
    }
    let (right, left) = exponent(rest)?;
    Some(NumeralParts {
        minus,
        whole,
        fraction,
        right,
        left,
    })
}

/// Whether a minus stands in front of a whole number's text, and its digits, or None where the text isn't of that form.
#[tactic(auto, unfolding(crate::specs::NumeralParts::whole_of))]
pub fn whole_parts(text: &[u8]) -> Option<(bool, &[u8])>
    ensures value { option_map (λ w. (w.0, w.1.now)) result ≡ whole_of text.now }
    ensures are { IfSome result (λ w. AreDigits w.1.now) }
{
    let (minus, rest) = sign(text);
    let (digits, rest) = digits(rest);
    if !rest.is_empty() || digits.is_empty() {
        return None;
    }
    Some((minus, digits))
}
