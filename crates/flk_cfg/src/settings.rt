//! The lines after those of the channels: line frequency, sampling, stamps and file type.

ghost use Rattle.std.specs.Prelude.{◌≡◌, ◌+◌, ◌<◌, ◌≤◌, ℕ, List, length, OnOk, MatchResult};
ghost use Rattle.flk_field.specs.Sets.{LineFault};
ghost use Rattle.flk_cfg.specs.Table.{frequency_row, rates_row, sampling_row, stamp_row, form_row};
ghost use Rattle.flk_cfg.specs.Rows.{IsLineFrequency, IsOneRate, IsSampling, IsStamp, IsFileType};
ghost use Rattle.flk_cfg.specs.Places.{HasLine, FaultAt};
ghost use Rattle.flk_field.specs.Columns.{parts_of, RunFault};
ghost use Rattle.flk_cfg.specs.Reading.{StandsAt, FirstOf};
ghost use Rattle.flk_cfg.specs.SettingParts.{setting_at, AreSettingLines};

use crate::config::Stamp;
use crate::reader::Reader;
use flk_field::{Columns, Fault, Form};
use flk_num::Rate;
use flk_text::DecimalValue;

/// What these lines say.
#[derive(Clone, Copy)]
pub struct Settings {
    pub lf: DecimalValue,
    pub rate: Rate,
    pub endsamp: u32,
    pub first: Stamp,
    pub trigger: Stamp,
    pub form: Form,
}

/// The sampling rate, and the number of records.
#[derive(Clone, Copy)]
pub struct Sampling {
    pub rate: Rate,
    pub endsamp: u32,
}

/// The line frequency.
fn frequency(columns: &Columns<'_>) -> Result<DecimalValue, Fault>
    requires { length (parts_of columns.now) ≡ 1 }
    ensures { MatchResult result (λ v. IsLineFrequency (parts_of columns.now) v.n)
        (λ f. RunFault 1 frequency_row columns.now f) }
{
    columns.frequency(1)
}

/// The number of sampling rates, which is 1.
fn rates(columns: &Columns<'_>) -> Result<(), Fault>
    requires { length (parts_of columns.now) ≡ 1 }
    ensures { MatchResult result (λ _. IsOneRate (parts_of columns.now)) (λ f. RunFault 1 rates_row columns.now f) }
{
    columns.one_rate(1)
}

/// The sampling rate and the number of records.
fn check_sampling(columns: &Columns<'_>) -> Result<Sampling, Fault>
    requires { length (parts_of columns.now) ≡ 2 }
    ensures { MatchResult result (λ s. IsSampling (parts_of columns.now) s.rate s.endsamp)
        (λ f. RunFault 1 sampling_row columns.now f) }
{
    let rate = columns.sampling_rate(1)?;
    let endsamp = columns.sample_count(2)?;
    Ok(Sampling { rate, endsamp })
}

/// A date and a time.
fn stamp(columns: &Columns<'_>) -> Result<Stamp, Fault>
    requires { length (parts_of columns.now) ≡ 2 }
    ensures { MatchResult result (λ s. IsStamp (parts_of columns.now) s) (λ f. RunFault 1 stamp_row columns.now f) }
{
    let day = columns.date(1)?;
    let time = columns.time(2)?;
    Ok(Stamp {
        year: day.year,
        month: day.month,
        day: day.day,
        hour: time.hour,
        minute: time.minute,
        second: time.second,
        nanos: time.nanos,
    })
}

/// The file type.
fn file_type(columns: &Columns<'_>) -> Result<Form, Fault>
    requires { length (parts_of columns.now) ≡ 1 }
    ensures { MatchResult result (λ form. IsFileType (parts_of columns.now) form)
        (λ f. RunFault 1 form_row columns.now f) }
{
    columns.form_word(1)
}

/// The line of the line frequency.
fn read_frequency(reader: &mut Reader<'_>) -> Result<DecimalValue, Fault>
    requires { reader.old.number ≤ 1010 }
    ensures number { reader.new.number ≡ reader.old.number + 1 }
    ensures stands { (bytes : List ℕ) (k : ℕ) → StandsAt reader.old bytes k → StandsAt reader.new bytes (k + 1) }
    ensures line { (bytes : List ℕ) (k : ℕ) → StandsAt reader.old bytes k → MatchResult result
        (λ v. HasLine bytes k (λ parts. IsLineFrequency parts v.n))
        (λ f. (f.line ≡ k + 1) × FaultAt bytes k (LineFault frequency_row) f.field f.kind) }
{
    let columns = reader.columns(1)?;
    let lf = frequency(&columns)?;
    Ok(lf)
}

/// The line of the number of sampling rates.
fn read_rates(reader: &mut Reader<'_>) -> Result<(), Fault>
    requires { reader.old.number ≤ 1010 }
    ensures number { reader.new.number ≡ reader.old.number + 1 }
    ensures stands { (bytes : List ℕ) (k : ℕ) → StandsAt reader.old bytes k → StandsAt reader.new bytes (k + 1) }
    ensures line { (bytes : List ℕ) (k : ℕ) → StandsAt reader.old bytes k → MatchResult result
        (λ _. HasLine bytes k (λ parts. IsOneRate parts))
        (λ f. (f.line ≡ k + 1) × FaultAt bytes k (LineFault rates_row) f.field f.kind) }
{
    let columns = reader.columns(1)?;
    rates(&columns)?;
    Ok(())
}

/// The line of the sampling rate and the number of records.
fn read_sampling(reader: &mut Reader<'_>) -> Result<Sampling, Fault>
    requires { reader.old.number ≤ 1010 }
    ensures number { reader.new.number ≡ reader.old.number + 1 }
    ensures stands { (bytes : List ℕ) (k : ℕ) → StandsAt reader.old bytes k → StandsAt reader.new bytes (k + 1) }
    ensures line { (bytes : List ℕ) (k : ℕ) → StandsAt reader.old bytes k → MatchResult result
        (λ s. HasLine bytes k (λ parts. IsSampling parts s.rate s.endsamp))
        (λ f. (f.line ≡ k + 1) × FaultAt bytes k (LineFault sampling_row) f.field f.kind) }
{
    let columns = reader.columns(2)?;
    let sampling = check_sampling(&columns)?;
    Ok(sampling)
}

/// The line of a date and a time.
fn read_stamp(reader: &mut Reader<'_>) -> Result<Stamp, Fault>
    requires { reader.old.number ≤ 1010 }
    ensures number { reader.new.number ≡ reader.old.number + 1 }
    ensures stands { (bytes : List ℕ) (k : ℕ) → StandsAt reader.old bytes k → StandsAt reader.new bytes (k + 1) }
    ensures line { (bytes : List ℕ) (k : ℕ) → StandsAt reader.old bytes k → MatchResult result
        (λ s. HasLine bytes k (λ parts. IsStamp parts s))
        (λ f. (f.line ≡ k + 1) × FaultAt bytes k (LineFault stamp_row) f.field f.kind) }
{
    let columns = reader.columns(2)?;
    let found = stamp(&columns)?;
    Ok(found)
}

/// The line of the file type.
fn read_file_type(reader: &mut Reader<'_>) -> Result<Form, Fault>
    requires { reader.old.number ≤ 1010 }
    ensures number { reader.new.number ≡ reader.old.number + 1 }
    ensures stands { (bytes : List ℕ) (k : ℕ) → StandsAt reader.old bytes k → StandsAt reader.new bytes (k + 1) }
    ensures line { (bytes : List ℕ) (k : ℕ) → StandsAt reader.old bytes k → MatchResult result
        (λ form. HasLine bytes k (λ parts. IsFileType parts form))
        (λ f. (f.line ≡ k + 1) × FaultAt bytes k (LineFault form_row) f.field f.kind) }
{
    let columns = reader.columns(1)?;
    let form = file_type(&columns)?;
    Ok(form)
}

/// The six lines between those of the channels and the last one.
pub fn read_settings(reader: &mut Reader<'_>) -> Result<Settings, Fault>
    requires { reader.old.number ≤ 1000 }
    ensures number { OnOk result (reader.new.number ≡ reader.old.number + 6) }
    ensures stands { (bytes : List ℕ) (k : ℕ) → StandsAt reader.old bytes k
        → OnOk result (StandsAt reader.new bytes (k + 6)) }
    ensures settings { (bytes : List ℕ) (k : ℕ) → StandsAt reader.old bytes k → MatchResult result
        (λ s. AreSettingLines bytes k s) (λ f. FirstOf setting_at 6 bytes k f) }
{
    let lf = read_frequency(reader)?;
    read_rates(reader)?;
    let sampling = read_sampling(reader)?;
    let first = read_stamp(reader)?;
    let trigger = read_stamp(reader)?;
    let form = read_file_type(reader)?;
    Ok(Settings {
        lf,
        rate: sampling.rate,
        endsamp: sampling.endsamp,
        first,
        trigger,
        form,
    })
}
