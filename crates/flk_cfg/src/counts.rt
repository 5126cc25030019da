//! The second line: the numbers of channels.

ghost use Rattle.std.specs.Prelude.{◌≡◌, ◌+◌, ◌≤◌, ℕ, List, length, IfOk, MatchResult};
ghost use Rattle.flk_cfg.specs.Places.{HasLine, FaultAt};
ghost use Rattle.flk_cfg.specs.Rows.{AreCounts, IsCounts, CountsFault};
ghost use Rattle.flk_cfg.specs.Table.{counts_row};
ghost use Rattle.flk_field.specs.Columns.{parts_of, RunFault};
ghost use Rattle.flk_cfg.specs.Reading.{StandsAt};

use crate::config::MOST_CHANNELS;
use crate::reader::Reader;
use flk_field::{Columns, Fault, Kind};

/// The numbers of analog and of digital channels, and what the first field says of both.
#[derive(Clone, Copy)]
pub struct Counts {
    pub total: u32,
    pub analog: u32,
    pub digital: u32,
}

/// The fields of the second line, each in its set.
fn check_counts(columns: &Columns<'_>) -> Result<Counts, Fault>
    requires { length (parts_of columns.now) ≡ 3 }
    ensures { MatchResult result (λ c. AreCounts (parts_of columns.now) c.total c.analog c.digital)
        (λ f. RunFault 1 counts_row columns.now f) }
{
    let total = columns.total(1)?;
    let analog = columns.counted(2, b'A', 1, MOST_CHANNELS)?;
    let digital = columns.counted(3, b'D', 0, MOST_CHANNELS)?;
    Ok(Counts {
        total,
        analog,
        digital,
    })
}

/// The second line. Its first field is the sum of the two counts.
pub fn read_counts(reader: &mut Reader<'_>) -> Result<Counts, Fault>
    requires { reader.old.number ≤ 1000 }
    ensures number { reader.new.number ≡ reader.old.number + 1 }
    ensures stands { (bytes : List ℕ) (k : ℕ) → StandsAt reader.old bytes k → StandsAt reader.new bytes (k + 1) }
    ensures counts { (bytes : List ℕ) (k : ℕ) → StandsAt reader.old bytes k → MatchResult result
        (λ c. HasLine bytes k (λ parts. IsCounts parts c.analog c.digital))
        (λ f. (f.line ≡ k + 1) × FaultAt bytes k CountsFault f.field f.kind) }
    ensures few { IfOk result (λ c. (c.analog ≤ 256) × (c.digital ≤ 256)) }
{
    let columns = reader.columns(3)?;
    let counts = check_counts(&columns)?;
    if counts.total != counts.analog + counts.digital {
        return Err(columns.fault(1, Kind::Range));
    }
    Ok(counts)
}
