//! Dates and times.

ghost use Rattle.std.specs.Prelude.{◌≡◌, ◌↔◌, ◌+◌, ◌<◌, ◌≤◌, ◌^◌, ◌-◌, ◌*◌, ◌≤ℤ◌, pos, length, Some, None, option_map, IfSome, IsTrue, MatchResult};
ghost use Rattle.std.specs.List.{list_all};
ghost use Rattle.jiff.specs.Words.{IsDate};
ghost use Rattle.flk_text.specs.Numeral.{is_digit as digit_byte, AreDigits, number_from};
ghost use Rattle.flk_field.specs.Dates.{IsDateOf, IsTimeOf};
ghost use Rattle.flk_field.specs.DateParts.{short_of, two_of, after_of, date_of, nanos_of, time_of};
ghost use Rattle.flk_field.specs.Sets.{Date as DateSet, Time as TimeSet, Refuses};

use crate::kind::Kind;
use flk_text::{is_digit, number_up_to};
use jiff::civil::Date;

/// The numbers of a date's text.
#[derive(Clone, Copy)]
pub struct DateNumbers {
    pub day: u8,
    pub month: u8,
    pub year: u16,
}

/// The numbers of a time's text. Those that [`crate::Columns::time`] answers are of a day.
#[derive(Clone, Copy)]
pub struct TimeNumbers {
    /// Of a day: from 0 to 23.
    pub hour: u8,
    /// Of a day: from 0 to 59.
    pub minute: u8,
    /// Of a day: from 0 to 59.
    pub second: u8,
    /// Nanoseconds of the second, from 0 to 999999999.
    pub nanos: u32,
}

/// A date of the proleptic Gregorian calendar.
#[derive(Clone, Copy)]
pub struct Day {
    /// From 1 to 9999.
    pub year: i16,
    /// From 1 to 12.
    pub month: u8,
    /// From 1 to the month's last day.
    pub day: u8,
}

/// One or two digits in front: their number, and what follows.
#[tactic(auto, unfolding(crate::specs::DateParts::short_of))]
fn short_number(bytes: &[u8]) -> Option<(u8, &[u8])>
    ensures value { option_map (λ x. (x.0, x.1.now)) result ≡ short_of bytes.now }
    ensures small { IfSome result (λ x. x.0 < 100) }
{
    match bytes {
        [a, rest @ ..] if is_digit(*a) => match rest {
            [b, after @ ..] if is_digit(*b) => Some(((*a - b'0') * 10 + (*b - b'0'), after)),
            _ => Some((*a - b'0', rest)),
        },
        _ => None,
    }
}

/// Two digits in front: their number, and what follows.
#[tactic(auto, unfolding(crate::specs::DateParts::two_of))]
fn two_digits(bytes: &[u8]) -> Option<(u8, &[u8])>
    ensures value { option_map (λ x. (x.0, x.1.now)) result ≡ two_of bytes.now }
    ensures small { IfSome result (λ x. x.0 < 100) }
{
    match bytes {
        [a, b, rest @ ..] if is_digit(*a) && is_digit(*b) => Some((
            (*a - b'0') * 10 + (*b - b'0'),
            rest,
        )),
        _ => None,
    }
}

/// What follows the byte in front.
#[tactic(auto, unfolding(crate::specs::DateParts::after_of))]
fn after(bytes: &[u8], mark: u8) -> Option<&[u8]>
    ensures { option_map (λ r. r.now) result ≡ after_of mark bytes.now }
{
    match bytes {
        [first, rest @ ..] if *first == mark => Some(rest),
        _ => None,
    }
}

/// The numbers of `dd/mm/yyyy`, or None where the text isn't of this form.
#[tactic(auto, unfolding(crate::specs::DateParts::date_of))]
fn date_numbers(text: &[u8]) -> Option<DateNumbers>
    ensures value { option_map (λ x. record { day = x.day; month = x.month; year = x.year }) result ≡ date_of text.now }
    ensures small { IfSome result (λ x. (x.day < 100) × (x.month < 100) × (x.year < 10000)) }
{
    let (day, rest) = short_number(text)?;
    let (month, rest) = short_number(after(rest, b'/')?)?;
    let (century, rest) = two_digits(after(rest, b'/')?)?;
    let (year, rest) = two_digits(rest)?;
    if !rest.is_empty() {
        return None;
    }
    Some(DateNumbers {
        day,
        month,
        year: u16::from(century) * 100 + u16::from(year),
    })
}

/// Whether the date is one of the proleptic Gregorian calendar, in a year from 1 on.
pub fn is_date(year: i16, month: u8, day: u8) -> bool
    ensures { IsTrue result ↔ ((pos 1 ≤ℤ year) × IsDate year (pos month) (pos day)) }
{
    year >= 1 && month < 100 && day < 100 && Date::new(year, month as i8, day as i8).is_ok()
}

/// The date that the field writes.
pub fn date(field: &[u8]) -> Result<Day, Kind>
    ensures { MatchResult result (λ d. IsDateOf field.now d.year d.month d.day)
        (λ kind. Refuses DateSet field.now kind) }
{
    let Some(numbers) = date_numbers(field) else {
        return Err(Kind::Number);
    };
    let year = numbers.year as i16;
    if is_date(year, numbers.month, numbers.day) {
        Ok(Day {
            year,
            month: numbers.month,
            day: numbers.day,
        })
    } else {
        Err(Kind::Range)
    }
}

/// Whether all bytes are digits.
fn are_digits(bytes: &[u8]) -> bool
    ensures { result ≡ list_all digit_byte bytes.now }
{
    for byte in bytes {
        if !is_digit(*byte) {
            return false;
        }
    }
    true
}

/// The number that at most nine digits write.
#[tactic(auto, using(crate::proofs::DateJudges::number_nine))]
fn number_of(digits: &[u8]) -> u32
    requires are { AreDigits digits.now }
    requires few { length digits.now ≤ 9 }
    ensures value { result ≡ number_from 0 digits.now }
    ensures small { result < 10 ^ length digits.now }
{
    number_up_to(digits, 1_000_000_000) as u32
}

/// The number, which has so many digits, with zeros behind it up to nine digits.
fn padded(number: u32, digits: usize) -> u32
    requires few { digits ≤ 9 }
    requires small { number < 10 ^ digits }
    ensures value { result ≡ number * 10 ^ (9 - digits) }
    ensures below { result < 10 ^ 9 }
{
    number * 10u32.pow(9 - digits as u32)
}

/// The nanoseconds of a fraction, which is nothing, or a point and one to nine digits.
#[tactic(auto, unfolding(crate::specs::DateParts::nanos_of))]
fn nanos(bytes: &[u8]) -> Option<u32>
    ensures { result ≡ nanos_of bytes.now }
{
    match bytes {
        [] => Some(0),
        [b'.', digits @ ..] if are_digits(digits) && !digits.is_empty() && digits.len() <= 9 => {
            Some(padded(number_of(digits), digits.len()))
        }
        _ => None,
    }
}

/// The numbers of `hh:mm:ss` with or without a fraction, or None where the text isn't of this form.
#[tactic(auto, unfolding(crate::specs::DateParts::time_of))]
fn time_numbers(text: &[u8]) -> Option<TimeNumbers>
    ensures { option_map (λ x. record { hour = x.hour; minute = x.minute; second = x.second; nanos = x.nanos }) result
        ≡ time_of text.now }
{
    let (hour, rest) = short_number(text)?;
    let (minute, rest) = two_digits(after(rest, b':')?)?;
    let (second, rest) = two_digits(after(rest, b':')?)?;
    let nanos = nanos(rest)?;
    Some(TimeNumbers {
        hour,
        minute,
        second,
        nanos,
    })
}

/// Whether the hour, the minute and the second are those of a day: from 0 to 23, 59 and 59.
pub fn is_of_a_day(hour: u8, minute: u8, second: u8) -> bool
    ensures { IsTrue result ↔ ((hour ≤ 23) × (minute ≤ 59) × (second ≤ 59)) }
{
    hour <= 23 && minute <= 59 && second <= 59
}

/// The time of a day that the field writes.
pub fn time(field: &[u8]) -> Result<TimeNumbers, Kind>
    ensures { MatchResult result (λ t. IsTimeOf field.now t.hour t.minute t.second t.nanos)
        (λ kind. Refuses TimeSet field.now kind) }
{
    let Some(numbers) = time_numbers(field) else {
        return Err(Kind::Number);
    };
    if is_of_a_day(numbers.hour, numbers.minute, numbers.second) {
        Ok(numbers)
    } else {
        Err(Kind::Range)
    }
}
