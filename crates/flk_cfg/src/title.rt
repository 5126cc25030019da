//! The first line: the station, the recording device and the revision year.

ghost use Rattle.std.specs.Prelude.{◌≡◌, ◌+◌, ◌≤◌, ℕ, List as Sequence, length, codes, MatchResult};
ghost use Rattle.flk_field.specs.Values.{IsText};
ghost use Rattle.flk_cfg.specs.Places.{HasLine, FaultAt};
ghost use Rattle.flk_cfg.specs.Rows.{IsTitle, TitleFault};
ghost use Rattle.flk_field.specs.Sets.{at as part_at};
ghost use Rattle.flk_cfg.specs.Table.{title_row};
ghost use Rattle.flk_field.specs.Columns.{parts_of, RunFault};
ghost use Rattle.flk_cfg.specs.Reading.{StandsAt};
ghost use Rattle.flk_num.specs.Stop.{StopIs};

use crate::reader::Reader;
use flk_field::{Columns, Fault, Kind};
use flk_num::{List, Stop};
use flk_text::field_count;
use std::alloc::Global;

/// The station and the recording device.
#[derive(Drop)]
pub struct Title {
    pub station: List<u8>,
    pub device: List<u8>,
}

/// Whether the fields are those of a first line.
fn check_title(columns: &Columns<'_>) -> Result<(), Fault>
    requires { length (parts_of columns.now) ≡ 3 }
    ensures { MatchResult result (λ _. IsText (part_at (parts_of columns.now) 1)
        × IsText (part_at (parts_of columns.now) 2) × (part_at (parts_of columns.now) 3 ≡ codes "1999"))
        (λ f. RunFault 1 title_row columns.now f) }
{
    columns.text(1)?;
    columns.text(2)?;
    columns.revision(3)?;
    Ok(())
}

/// The first line. A line of two fields has no revision year.
pub fn read_title(alloc: Global, reader: &mut Reader<'_>) -> Result<Title, Stop<Fault>>
    requires { reader.old.number ≤ 1000 }
    ensures number { reader.new.number ≡ reader.old.number + 1 }
    ensures stands { (bytes : Sequence ℕ) (k : ℕ) → StandsAt reader.old bytes k → StandsAt reader.new bytes (k + 1) }
    ensures title { (bytes : Sequence ℕ) (k : ℕ) → StandsAt reader.old bytes k → MatchResult result
        (λ t. HasLine bytes k (λ parts. IsTitle parts t.station t.device))
        (λ s. StopIs (λ f. (f.line ≡ k + 1) × FaultAt bytes k TitleFault f.field f.kind) s) }
{
    let line = reader.next_line()?;
    if field_count(line) == 2 {
        return Err(Stop::Fault(Fault {
            line: reader.number,
            field: 3,
            kind: Kind::Revision,
        }));
    }
    let columns = Columns::of(line, reader.number, 3)?;
    check_title(&columns)?;
    Ok(Title {
        station: List::from_slice(alloc, columns.field(1))?,
        device: List::from_slice(alloc, columns.field(2))?,
    })
}
