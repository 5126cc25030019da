//! Single fields of an ASCII record against their sets.

ghost use Rattle.std.specs.Prelude.{◌≡◌, ◌<◌, ◌≤◌, ◌^◌, ◌↔◌, ◌≢◌, ℕ, List, [], IfOk, IsTrue, MatchResult};
ghost use Rattle.flk_text.specs.WholeNumber.{IsWholeAnswer};
ghost use Rattle.flk_text.specs.declared.decimals.NumFault.TheVariants as faults;
ghost use Rattle.flk_field.specs.Values.{IsWholeFrom, IsBit};
ghost use Rattle.flk_dat.specs.Records.{Follows};
ghost use Rattle.flk_dat.specs.SampleFields.{IsNumber, IsStamp, IsSample, IsThere, Number, Stamp, Analog, Digital, NoWhole, NoSample, Refuses};
ghost use Rattle.flk_dat.specs.declared.kind.Kind.TheVariants as kinds;

use crate::kind::Kind;
use flk_text::{NumFault, whole};

/// The greatest time stamp.
const MOST_STAMP: u64 = 9_999_999_999;

/// The greatest analog value; the least is as far below 0.
const MOST_SAMPLE: i64 = 99_999;

/// The analog value that marks a missing sample.
const MISSING: i32 = 99_999;

/// Whether the number is the one before plus 1; the first number is free.
pub fn follows(before: Option<u32>, number: u32) -> bool
    ensures { IsTrue result ↔ Follows before number }
{
    match before {
        Some(last) => number.checked_sub(1) == Some(last),
        None => true,
    }
}

/// The kind of a field that is read as no whole number.
fn kind_of(fault: NumFault) -> Kind
    ensures syntax { fault ≡ faults.Syntax → result ≡ kinds.Number }
    ensures range { fault ≡ faults.Range → result ≡ kinds.Range }
{
    match fault {
        NumFault::Syntax => Kind::Number,
        NumFault::Range => Kind::Range,
    }
}

/// The whole number from 0 to the most, of the field that was read so.
fn whole_up_to(read: Result<i64, NumFault>, most: u64) -> Result<u64, Kind>
    requires { most ≤ 10 ^ 12 }
    ensures value { (field : List ℕ) → IsWholeAnswer field read
        → MatchResult result (λ n. IsWholeFrom 0 most field n) (λ kind. NoWhole most field kind) }
    ensures within { IfOk result (λ n. n ≤ most) }
{
    match read {
        Ok(value) if 0 <= value && value <= most as i64 => Ok(value as u64),
        Ok(_) => Err(Kind::Range),
        Err(fault) => Err(kind_of(fault)),
    }
}

/// The sample number, which follows the one before, of the field that was read so.
#[tactic(auto, unfolding(crate::specs::SampleFields::Refuses))]
pub fn sample_number(read: Result<i64, NumFault>, before: Option<u32>) -> Result<u32, Kind>
    ensures { (field : List ℕ) → IsWholeAnswer field read
        → MatchResult result (λ n. IsNumber field n × Follows before n)
        (λ kind. Refuses (Number before) field kind) }
{
    let number = match whole_up_to(read, 4_294_967_295) {
        Ok(value) => value as u32,
        Err(kind) => return Err(kind),
    };
    if follows(before, number) {
        Ok(number)
    } else {
        Err(Kind::Order)
    }
}

/// The time stamp, or None where the field is empty.
#[tactic(auto, unfolding(crate::specs::SampleFields::Refuses))]
pub fn time_stamp(field: &[u8]) -> Result<Option<u64>, Kind>
    ensures { MatchResult result (λ s. IsStamp field.now s) (λ kind. Refuses Stamp field.now kind) }
{
    if field.is_empty() {
        return Ok(None);
    }
    stamp_of(whole(field))
}

/// The time stamp, of the field that was read so and isn't empty.
#[tactic(auto, unfolding(crate::specs::SampleFields::Refuses))]
pub fn stamp_of(read: Result<i64, NumFault>) -> Result<Option<u64>, Kind>
    ensures { (field : List ℕ) → IsWholeAnswer field read → field ≢ []
        → MatchResult result (λ s. IsStamp field s) (λ kind. Refuses Stamp field kind) }
{
    match whole_up_to(read, MOST_STAMP) {
        Ok(value) => Ok(Some(value)),
        Err(kind) => Err(kind),
    }
}

/// The whole number from -99999 to 99999, of the field that was read so.
fn sample(read: Result<i64, NumFault>) -> Result<i32, Kind>
    ensures { (field : List ℕ) → IsWholeAnswer field read
        → MatchResult result (λ z. IsSample field z) (λ kind. NoSample field kind) }
{
    match read {
        Ok(value) if -MOST_SAMPLE <= value && value <= MOST_SAMPLE => Ok(value as i32),
        Ok(_) => Err(Kind::Range),
        Err(fault) => Err(kind_of(fault)),
    }
}

/// The analog value, which may not be missing in a selected channel, of the field that was read so.
#[tactic(auto, unfolding(crate::specs::SampleFields::Refuses))]
pub fn analog_value(read: Result<i64, NumFault>, selected: bool) -> Result<i32, Kind>
    ensures value { (field : List ℕ) → IsWholeAnswer field read
        → MatchResult result (λ z. IsSample field z) (λ kind. Refuses (Analog selected) field kind) }
    ensures there { IfOk result (λ z. IsThere selected z) }
{
    match sample(read) {
        Ok(value) if selected && value == MISSING => Err(Kind::Missing),
        Ok(value) => Ok(value),
        Err(kind) => Err(kind),
    }
}

/// The digital value, of the field that was read so.
#[tactic(auto, unfolding(crate::specs::SampleFields::Refuses))]
pub fn digital_value(read: Result<i64, NumFault>) -> Result<bool, Kind>
    ensures { (field : List ℕ) → IsWholeAnswer field read
        → MatchResult result (λ b. IsBit field b) (λ kind. Refuses Digital field kind) }
{
    match whole_up_to(read, 1) {
        Ok(value) => Ok(value == 1),
        Err(kind) => Err(kind),
    }
}
