//! The last line, and what follows it.

ghost use Rattle.std.specs.Prelude.{◌≡◌, ◌+◌, ◌<◌, ◌≤◌, ℕ, List, length, MatchResult};
ghost use Rattle.flk_text.specs.Tail.{IsTail};
ghost use Rattle.flk_cfg.specs.Table.{last_row};
ghost use Rattle.flk_cfg.specs.Rows.{IsMultiplier};
ghost use Rattle.flk_cfg.specs.Places.{HasLastLine, tail_at};
ghost use Rattle.flk_cfg.specs.File.{FaultFromLast};
ghost use Rattle.flk_field.specs.Columns.{parts_of, RunFault};
ghost use Rattle.flk_cfg.specs.Reading.{StandsAt};

use crate::reader::Reader;
use flk_field::{Columns, Fault, Kind};
use flk_text::{DecimalValue, is_tail};

/// The factor of the time stamps.
fn multiplier(columns: &Columns<'_>) -> Result<DecimalValue, Fault>
    requires { length (parts_of columns.now) ≡ 1 }
    ensures { MatchResult result (λ v. IsMultiplier (parts_of columns.now) v.n)
        (λ f. RunFault 1 last_row columns.now f) }
{
    columns.decimal(1)
}

/// The last line, behind which a tail stands.
pub fn read_last(reader: &mut Reader<'_>) -> Result<DecimalValue, Fault>
    requires { reader.old.number ≤ 1000 }
    ensures { (bytes : List ℕ) (k : ℕ) → StandsAt reader.old bytes k → MatchResult result
        (λ v. HasLastLine bytes k (λ parts. IsMultiplier parts v.n) × IsTail (tail_at bytes k))
        (λ f. FaultFromLast bytes k f.line f.field f.kind) }
{
    let line = reader.last_line()?;
    let value = multiplier(&Columns::of(line, reader.number, 1)?)?;
    if is_tail(reader.lines.rest()) {
        Ok(value)
    } else {
        Err(Fault {
            line: reader.number + 1,
            field: 0,
            kind: Kind::Length,
        })
    }
}
