//! The lines of the analog channels.

ghost use Rattle.std.specs.Prelude.{◌≡◌, ◌+◌, ◌<◌, ◌≤◌, ℕ, List as Sequence, length, OnOk, MatchResult};
ghost use Rattle.flk_field.specs.Sets.{LineFault};
ghost use Rattle.flk_cfg.specs.Table.{analog_row};
ghost use Rattle.flk_cfg.specs.Rows.{IsAnalog};
ghost use Rattle.flk_cfg.specs.File.{AreAnalogs};
ghost use Rattle.flk_cfg.specs.Places.{HasLine, FaultAt};
ghost use Rattle.flk_cfg.specs.Runs.{names_run, numbers_run, AreNames, AreNumbers, AreAnalogParts};
ghost use Rattle.flk_field.specs.Columns.{parts_of, RunFault};
ghost use Rattle.flk_cfg.specs.Reading.{StandsAt, FirstOf};
ghost use Rattle.flk_num.specs.Stop.{StopIs};

use crate::config::Analog;
use crate::reader::Reader;
use flk_field::{ANALOG_FIELDS, Columns, Fault};
use flk_num::{List, Stop};
use flk_text::DecimalValue;
use std::alloc::Global;

/// The numbers of an analog channel, in the order of its line, and whether they are of primary or secondary values.
#[derive(Clone, Copy)]
pub struct Numbers {
    pub a: DecimalValue,
    pub b: DecimalValue,
    pub skew: DecimalValue,
    pub min: DecimalValue,
    pub max: DecimalValue,
    pub primary: DecimalValue,
    pub secondary: DecimalValue,
    pub ps: u8,
}

/// Whether the texts that each channel has are texts: name, phase and component.
pub fn check_names(columns: &Columns<'_>) -> Result<(), Fault>
    requires { 4 ≤ length (parts_of columns.now) }
    ensures { MatchResult result (λ _. AreNames (parts_of columns.now)) (λ f. RunFault 2 names_run columns.now f) }
{
    columns.text(2)?;
    columns.text(3)?;
    columns.text(4)?;
    Ok(())
}

/// The numbers of the line, and the letter at its end.
fn check_numbers(columns: &Columns<'_>) -> Result<Numbers, Fault>
    requires { length (parts_of columns.now) ≡ 13 }
    ensures { MatchResult result (λ n. AreNumbers (parts_of columns.now) n)
        (λ f. RunFault 6 numbers_run columns.now f) }
{
    Ok(Numbers {
        a: columns.decimal(6)?,
        b: columns.decimal(7)?,
        skew: columns.decimal_or_zero(8)?,
        min: columns.decimal(9)?,
        max: columns.decimal(10)?,
        primary: columns.decimal(11)?,
        secondary: columns.decimal(12)?,
        ps: columns.side(13)?,
    })
}

/// The numbers of the line of the channel at a position, where all its fields are in their sets.
#[tactic(auto, unfolding(flk_field::specs::Sets::IsIn))]
fn check_analog(position: u32, columns: &Columns<'_>) -> Result<Numbers, Fault>
    requires { length (parts_of columns.now) ≡ 13 }
    ensures { MatchResult result (λ n. AreAnalogParts position (parts_of columns.now) n)
        (λ f. RunFault 1 (analog_row position) columns.now f) }
{
    columns.position(1, position)?;
    check_names(columns)?;
    columns.text(5)?;
    check_numbers(columns)
}

/// The channel at a position, counted from 1, from the next line.
fn read_analog(alloc: Global, position: u32, reader: &mut Reader<'_>) -> Result<Analog, Stop<Fault>>
    requires { reader.old.number ≤ 1300 }
    ensures number { reader.new.number ≡ reader.old.number + 1 }
    ensures stands { (bytes : Sequence ℕ) (k : ℕ) → StandsAt reader.old bytes k → StandsAt reader.new bytes (k + 1) }
    ensures channel { (bytes : Sequence ℕ) (k : ℕ) → StandsAt reader.old bytes k → MatchResult result
        (λ c. HasLine bytes k (λ parts. IsAnalog position parts c))
        (λ s. StopIs (λ f. (f.line ≡ k + 1) × FaultAt bytes k (LineFault (analog_row position)) f.field f.kind) s) }
{
    let columns = reader.columns(ANALOG_FIELDS)?;
    let numbers = check_analog(position, &columns)?;
    Ok(Analog {
        id: List::from_slice(alloc, columns.field(2))?,
        ph: List::from_slice(alloc, columns.field(3))?,
        ccbm: List::from_slice(alloc, columns.field(4))?,
        uu: List::from_slice(alloc, columns.field(5))?,
        a: numbers.a,
        b: numbers.b,
        skew: numbers.skew,
        min: numbers.min,
        max: numbers.max,
        primary: numbers.primary,
        secondary: numbers.secondary,
        ps: numbers.ps,
    })
}

/// The analog channels, which are so many.
pub fn read_analogs(
    alloc: Global,
    count: u32,
    reader: &mut Reader<'_>,
) -> Result<List<Analog>, Stop<Fault>>
    requires few { (reader.old.number ≤ 1000) × (count ≤ 256) }
    ensures number { OnOk result (reader.new.number ≡ reader.old.number + count) }
    ensures stands { (bytes : Sequence ℕ) (k : ℕ) → StandsAt reader.old bytes k
        → OnOk result (StandsAt reader.new bytes (k + count)) }
    ensures channels { (bytes : Sequence ℕ) (k : ℕ) → StandsAt reader.old bytes k → MatchResult result
        (λ cs. (length cs ≡ count) × AreAnalogs bytes k cs)
        (λ s. StopIs (λ f. FirstOf (λ i. analog_row (i + 1)) count bytes k f) s) }
{
    let mut channels = List::new(alloc);
    for i in 0..count {
        channels.push(read_analog(alloc, i + 1, reader)?)?;
    }
    Ok(channels)
}
