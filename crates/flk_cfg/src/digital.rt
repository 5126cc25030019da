//! The lines of the digital channels.

ghost use Rattle.std.specs.Prelude.{◌≡◌, ◌+◌, ◌<◌, ◌≤◌, ℕ, List as Sequence, length, OnOk, MatchResult};
ghost use Rattle.flk_field.specs.Sets.{LineFault};
ghost use Rattle.flk_cfg.specs.Table.{digital_row};
ghost use Rattle.flk_cfg.specs.Rows.{IsDigital};
ghost use Rattle.flk_cfg.specs.File.{AreDigitals};
ghost use Rattle.flk_cfg.specs.Places.{HasLine, FaultAt};
ghost use Rattle.flk_cfg.specs.Runs.{AreDigitalParts};
ghost use Rattle.flk_field.specs.Columns.{parts_of, RunFault};
ghost use Rattle.flk_cfg.specs.Reading.{StandsAt, FirstOf};
ghost use Rattle.flk_num.specs.Stop.{StopIs};

use crate::analog::check_names;
use crate::config::Digital;
use crate::reader::Reader;
use flk_field::{Columns, Fault};
use flk_num::{List, Stop};
use std::alloc::Global;

/// The normal state of the line of the channel at a position, where all its fields are in their sets.
#[tactic(auto, unfolding(flk_field::specs::Sets::IsIn))]
fn check_digital(position: u32, columns: &Columns<'_>) -> Result<bool, Fault>
    requires { length (parts_of columns.now) ≡ 5 }
    ensures { MatchResult result (λ b. AreDigitalParts position (parts_of columns.now) b)
        (λ f. RunFault 1 (digital_row position) columns.now f) }
{
    columns.position(1, position)?;
    check_names(columns)?;
    columns.bit(5)
}

/// The channel at a position, counted from 1, from the next line.
fn read_digital(
    alloc: Global,
    position: u32,
    reader: &mut Reader<'_>,
) -> Result<Digital, Stop<Fault>>
    requires { reader.old.number ≤ 1300 }
    ensures number { reader.new.number ≡ reader.old.number + 1 }
    ensures stands { (bytes : Sequence ℕ) (k : ℕ) → StandsAt reader.old bytes k → StandsAt reader.new bytes (k + 1) }
    ensures channel { (bytes : Sequence ℕ) (k : ℕ) → StandsAt reader.old bytes k → MatchResult result
        (λ c. HasLine bytes k (λ parts. IsDigital position parts c))
        (λ s. StopIs (λ f. (f.line ≡ k + 1) × FaultAt bytes k (LineFault (digital_row position)) f.field f.kind) s) }
{
    let columns = reader.columns(5)?;
    let normal = check_digital(position, &columns)?;
    Ok(Digital {
        id: List::from_slice(alloc, columns.field(2))?,
        ph: List::from_slice(alloc, columns.field(3))?,
        ccbm: List::from_slice(alloc, columns.field(4))?,
        normal,
    })
}

/// The digital channels, which are so many.
pub fn read_digitals(
    alloc: Global,
    count: u32,
    reader: &mut Reader<'_>,
) -> Result<List<Digital>, Stop<Fault>>
    requires few { (reader.old.number ≤ 1000) × (count ≤ 256) }
    ensures number { OnOk result (reader.new.number ≡ reader.old.number + count) }
    ensures stands { (bytes : Sequence ℕ) (k : ℕ) → StandsAt reader.old bytes k
        → OnOk result (StandsAt reader.new bytes (k + count)) }
    ensures channels { (bytes : Sequence ℕ) (k : ℕ) → StandsAt reader.old bytes k → MatchResult result
        (λ cs. (length cs ≡ count) × AreDigitals bytes k cs)
        (λ s. StopIs (λ f. FirstOf (λ i. digital_row (i + 1)) count bytes k f) s) }
{
    let mut channels = List::new(alloc);
    for i in 0..count {
        channels.push(read_digital(alloc, i + 1, reader)?)?;
    }
    Ok(channels)
}
