//! The fields of a line, one after another.

ghost use Rattle.std.specs.Prelude.{◌≡◌, ◌<◌, ◌≤◌, ◌^◌, ℕ, List, ◌∷◌, [], length, take, get_or, MatchOption, IfSome, option_map};
ghost use Rattle.flk_text.specs.Fields.{fields, fields_left};
ghost use Rattle.flk_text.specs.Numeral.{AreDigits, number_from};
ghost use Rattle.flk_text.specs.WholeNumber.{IsWholeValue};

use crate::fields::trimmed;
use crate::numeral::{is_digit, sign};
use crate::scan::position_of;
use crate::whole_numbers::signed;
use std::marker::Model;

/// The fields of a line that are left, from which they are taken one by one. Contracts see it as the list of these
/// fields.
#[derive(Drop)]
pub struct Fields<'a> {
    left: Option<&'a [u8]>,
}

impl<'a> Model for Fields<'a> {
    ghost use Rattle.std.specs.Prelude.{ℕ, List, option_map};
    ghost use Rattle.flk_text.specs.Fields.{fields_left};

    ghost Value = { List (List ℕ) };

    ghost view = { λ f. fields_left (option_map (λ r. r.now) f.left) };
}

impl<'a> Fields<'a> {
    /// The fields of a line.
    pub fn new(line: &'a [u8]) -> Fields<'a>
        ensures { result ≡ fields line.now }
    {
        Fields { left: Some(line) }
    }

    /// Takes the next field, without the spaces at both its ends. None exactly where no field is left.
    pub fn next_field(&mut self) -> Option<&'a [u8]>
        ensures { MatchOption result ((self.old ≡ []) × (self.new ≡ [])) (λ f. self.old ≡ f.now ∷ self.new) }
    {
        let (first, left) = cut(self.left?);
        self.left = left;
        Some(first)
    }

    /// Takes the next field where it is a whole number of the usual form: a sign or none, and digits that write less
    /// than 10^12, with no space around them. None where it isn't, and then nothing is taken.
    #[inline(always)]
    pub fn next_whole(&mut self) -> Option<i64>
        ensures { MatchOption result (self.new ≡ self.old)
            (λ z. (field : List ℕ) × (self.old ≡ field ∷ self.new) × IsWholeValue field z) }
    {
        let (number, left) = whole_cut(self.left?)?;
        self.left = left;
        Some(number)
    }
}

/// The first field, and what follows its comma, which is None where it is the last one.
fn cut(rest: &[u8]) -> (&[u8], Option<&[u8]>)
    ensures { fields rest.now ≡ result.0.now ∷ fields_left (option_map (λ r. r.now) result.1) }
{
    let end = position_of(rest, b',');
    let first = trimmed(&rest[..end]);
    if end == rest.len() {
        (first, None)
    } else {
        (first, Some(&rest[end + 1..]))
    }
}

/// The first field's number where it is a whole number of the usual form, and what follows its comma, which is None
/// where it is the last one.
#[inline(always)]
fn whole_cut(rest: &[u8]) -> Option<(i64, Option<&[u8]>)>
    ensures { IfSome result (λ w. (field : List ℕ)
        × (fields rest.now ≡ field ∷ fields_left (option_map (λ r. r.now) w.1)) × IsWholeValue field w.0) }
{
    let (minus, digits) = sign(rest);
    let (size, end) = digits_to_comma(digits)?;
    if end == 0 {
        return None;
    }
    let left = if end == digits.len() {
        None
    } else {
        Some(&digits[end + 1..])
    };
    Some((signed(minus, size), left))
}

/// The number that the digits in front write, and how many they are, where a comma follows them or nothing. None where
/// another byte follows, or where the number isn't below 10^12.
#[inline(always)]
fn digits_to_comma(bytes: &[u8]) -> Option<(u64, usize)>
    ensures within { IfSome result (λ d. d.1 ≤ length bytes.now) }
    ensures are { IfSome result (λ d. AreDigits (take d.1 bytes.now)) }
    ensures value { IfSome result (λ d. d.0 ≡ number_from 0 (take d.1 bytes.now)) }
    ensures small { IfSome result (λ d. d.0 < 10 ^ 12) }
    ensures comma { IfSome result (λ d. d.1 < length bytes.now → get_or bytes.now d.1 0 ≡ 44) }
{
    let mut size = 0;
    let mut count = 0;
    for byte in bytes {
        if !is_digit(*byte) {
            return (*byte == b',').then_some((size, count));
        }
        if size >= 100_000_000_000 {
            return None;
        }
        size = size * 10 + u64::from(*byte - b'0');
        count += 1;
    }
    Some((size, count))
}
