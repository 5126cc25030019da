//! Single fields against the sets of the table.

ghost use Rattle.std.specs.Prelude.{◌≡◌, ◌<◌, ◌^◌, ◌-◌, ◌*◌, ℕ, List, codes, MatchResult, MatchOption, Err, Ok};
ghost use Rattle.std.specs.List.{list_all};
ghost use Rattle.flk_text.specs.Decimal.{IsDecimal};
ghost use Rattle.flk_field.specs.Values.{is_text_byte as text_byte, IsText, IsWholeFrom, EndsIn, IsCounted, IsDecimalOrZero, IsFrequency, IsRate, IsSide, IsBit, IsFormWord};
ghost use Rattle.flk_field.specs.Sets.{Text, Revision, Total, Counted, Position, Decimal, DecimalOrZero, Side, Bit, Frequency, OneRate, SamplingRate, SampleCount, FormWord, NoWhole, Refuses};
ghost use Rattle.flk_field.specs.declared.kind.Kind.TheVariants as kinds;

use crate::form::Form;
use crate::kind::Kind;
use flk_num::Rate;
use flk_text::{DecimalValue, NumFault, decimal, whole};

/// The most bytes of a text.
pub const LONGEST_TEXT: usize = 64;

/// 2400 and 4800 in units of 10^-24.
const LOW_RATE: i128 = 2_400_000_000_000_000_000_000_000_000;

const HIGH_RATE: i128 = 4_800_000_000_000_000_000_000_000_000;

/// Whether neither a CR nor a byte 1A is among the bytes.
fn are_text_bytes(bytes: &[u8]) -> bool
    ensures { result ≡ list_all text_byte bytes.now }
{
    for byte in bytes {
        if *byte == b'\r' || *byte == 0x1a {
            return false;
        }
    }
    true
}

/// Whether the field is a text: of at most 64 bytes, without CR and 1A.
#[tactic(auto, unfolding(crate::specs::Sets::Refuses))]
pub fn text(field: &[u8]) -> Result<(), Kind>
    ensures { MatchResult result (λ _. IsText field.now) (λ kind. Refuses Text field.now kind) }
{
    if field.len() > LONGEST_TEXT {
        return Err(Kind::Length);
    }
    if are_text_bytes(field) {
        Ok(())
    } else {
        Err(Kind::Word)
    }
}

/// Whether the field is the revision year of the standard.
#[tactic(auto, unfolding(crate::specs::Sets::Refuses))]
pub fn revision(field: &[u8]) -> Result<(), Kind>
    ensures { MatchResult result (λ _. field.now ≡ codes "1999") (λ kind. Refuses Revision field.now kind) }
{
    match field {
        b"1999" => Ok(()),
        _ => Err(Kind::Revision),
    }
}

/// The whole number from the least to the most; `outside` is the kind of a whole number that isn't.
fn whole_or(field: &[u8], least: u32, most: u32, outside: Kind) -> Result<u32, Kind>
    ensures { MatchResult result (λ n. IsWholeFrom least most field.now n)
        (λ kind. NoWhole outside least most field.now kind) }
{
    match whole(field) {
        Ok(value) if i64::from(least) <= value && value <= i64::from(most) => Ok(value as u32),
        Ok(_) => Err(outside),
        Err(NumFault::Range) => Err(outside),
        Err(NumFault::Syntax) => Err(Kind::Number),
    }
}

/// The whole number from the least to the most.
fn whole_from(field: &[u8], least: u32, most: u32) -> Result<u32, Kind>
    ensures { MatchResult result (λ n. IsWholeFrom least most field.now n)
        (λ kind. NoWhole kinds.Range least most field.now kind) }
{
    whole_or(field, least, most, Kind::Range)
}

/// The number of channels in all, from 1 to 512.
#[tactic(auto, unfolding(crate::specs::Sets::Refuses))]
pub fn total(field: &[u8]) -> Result<u32, Kind>
    ensures { MatchResult result (λ n. IsWholeFrom 1 512 field.now n) (λ kind. Refuses Total field.now kind) }
{
    whole_from(field, 1, 512)
}

/// Whether the field is the position.
#[tactic(auto, unfolding(crate::specs::Sets::Refuses))]
pub fn is_position(field: &[u8], position: u32) -> Result<(), Kind>
    ensures { MatchResult result (λ _. IsWholeFrom position position field.now position)
        (λ kind. Refuses (Position position) field.now kind) }
{
    match whole_from(field, position, position) {
        Ok(_) => Ok(()),
        Err(kind) => Err(kind),
    }
}

/// The number of records, from 1 to 4294967295.
#[tactic(auto, unfolding(crate::specs::Sets::Refuses))]
pub fn sample_count(field: &[u8]) -> Result<u32, Kind>
    ensures { MatchResult result (λ n. IsWholeFrom 1 (2 ^ 32 - 1) field.now n)
        (λ kind. Refuses SampleCount field.now kind) }
{
    whole_from(field, 1, u32::MAX)
}

/// Whether the field is the number of sampling rates, 1.
#[tactic(auto, unfolding(crate::specs::Sets::Refuses))]
pub fn one_rate(field: &[u8]) -> Result<(), Kind>
    ensures { MatchResult result (λ _. IsWholeFrom 1 1 field.now 1) (λ kind. Refuses OneRate field.now kind) }
{
    match whole_or(field, 1, 1, Kind::Rates) {
        Ok(_) => Ok(()),
        Err(kind) => Err(kind),
    }
}

/// The bit 0 or 1.
#[tactic(auto, unfolding(crate::specs::Sets::Refuses))]
pub fn bit(field: &[u8]) -> Result<bool, Kind>
    ensures { MatchResult result (λ b. IsBit field.now b) (λ kind. Refuses Bit field.now kind) }
{
    match whole_from(field, 0, 1) {
        Ok(value) => Ok(value == 1),
        Err(kind) => Err(kind),
    }
}

/// What stands before the letter, a capital or a small one, with which the field ends, or None where it doesn't.
fn before_letter(field: &[u8], capital: u8) -> Option<&[u8]>
    requires letter { capital < 128 }
    ensures { MatchOption result ((front : List ℕ) → EndsIn capital field.now front → ⊥)
        (λ front. EndsIn capital field.now front.now) }
{
    match field {
        [front @ .., letter] if *letter == capital || *letter == capital + 32 => Some(front),
        _ => None,
    }
}

/// The count of channels from the least to the most, which stands before a letter.
#[tactic(auto, unfolding(crate::specs::Sets::Refuses))]
pub fn counted(field: &[u8], capital: u8, least: u32, most: u32) -> Result<u32, Kind>
    requires letter { capital < 128 }
    ensures { MatchResult result (λ n. IsCounted capital least most field.now n)
        (λ kind. Refuses (Counted capital least most) field.now kind) }
{
    let Some(front) = before_letter(field, capital) else {
        return Err(Kind::Word);
    };
    match whole_from(front, least, most) {
        Ok(count) => Ok(count),
        Err(kind) => Err(kind),
    }
}

/// The decimal.
#[tactic(auto, unfolding(crate::specs::Sets::Refuses))]
pub fn number(field: &[u8]) -> Result<DecimalValue, Kind>
    ensures { MatchResult result (λ v. IsDecimal field.now v.n) (λ kind. Refuses Decimal field.now kind) }
{
    match decimal(field) {
        Ok(value) => Ok(value),
        Err(NumFault::Syntax) => Err(Kind::Number),
        Err(NumFault::Range) => Err(Kind::Range),
    }
}

/// The decimal, or 0 where the field is empty.
#[tactic(auto, unfolding(crate::specs::Sets::Refuses))]
pub fn number_or_zero(field: &[u8]) -> Result<DecimalValue, Kind>
    ensures { MatchResult result (λ v. IsDecimalOrZero field.now v.n) (λ kind. Refuses DecimalOrZero field.now kind) }
{
    if field.is_empty() {
        return Ok(DecimalValue { n: 0 });
    }
    match decimal(field) {
        Ok(value) => Ok(value),
        Err(NumFault::Syntax) => Err(Kind::Number),
        Err(NumFault::Range) => Err(Kind::Range),
    }
}

/// The decimal above 0.
#[tactic(auto, unfolding(crate::specs::Sets::Refuses))]
pub fn frequency(field: &[u8]) -> Result<DecimalValue, Kind>
    ensures { MatchResult result (λ v. IsFrequency field.now v.n) (λ kind. Refuses Frequency field.now kind) }
{
    match decimal(field) {
        Ok(value) if value.n > 0 => Ok(value),
        Ok(_) => Err(Kind::Range),
        Err(NumFault::Syntax) => Err(Kind::Number),
        Err(NumFault::Range) => Err(Kind::Range),
    }
}

/// The sampling rate, 2400 or 4800.
#[tactic(auto, unfolding(crate::specs::Sets::Refuses))]
pub fn sampling_rate(field: &[u8]) -> Result<Rate, Kind>
    ensures { MatchResult result (λ rate. IsRate field.now rate) (λ kind. Refuses SamplingRate field.now kind) }
{
    match decimal(field) {
        Ok(value) if value.n == LOW_RATE => Ok(Rate::R2400),
        Ok(value) if value.n == HIGH_RATE => Ok(Rate::R4800),
        Ok(_) => Err(Kind::Rates),
        Err(NumFault::Syntax) => Err(Kind::Number),
        Err(NumFault::Range) => Err(Kind::Rates),
    }
}

/// The letter `P`, `p`, `S` or `s`.
#[tactic(auto, unfolding(crate::specs::Sets::Refuses))]
pub fn side(field: &[u8]) -> Result<u8, Kind>
    ensures { MatchResult result (λ b. IsSide field.now b) (λ kind. Refuses Side field.now kind) }
{
    match field {
        [b'P'] => Ok(b'P'),
        [b'p'] => Ok(b'p'),
        [b'S'] => Ok(b'S'),
        [b's'] => Ok(b's'),
        _ => Err(Kind::Word),
    }
}

/// The form of the data file: `ASCII` or `BINARY`, in any case.
#[tactic(auto, unfolding(crate::specs::Sets::Refuses))]
pub fn form_word(field: &[u8]) -> Result<Form, Kind>
    ensures { MatchResult result (λ form. IsFormWord field.now form) (λ kind. Refuses FormWord field.now kind) }
{
    if field.eq_ignore_ascii_case(b"ASCII") {
        return Ok(Form::Ascii);
    }
    if field.eq_ignore_ascii_case(b"BINARY") {
        return Ok(Form::Binary);
    }
    Err(Kind::Word)
}
