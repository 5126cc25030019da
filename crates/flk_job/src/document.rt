//! The document of a job file.

ghost use Rattle.std.specs.Prelude.{◌≡◌, MatchResult, true};
ghost use Rattle.toml.specs.View.{table_view};
ghost use Rattle.flk_job.specs.Table.{are_known};
ghost use Rattle.flk_job.specs.Job.{IsDocument, IsFirstFault};
ghost use Rattle.flk_num.specs.Stop.{StopIs};

use crate::key::is_known;
use crate::kind::{Fault, Kind};
use flk_num::Stop;
use std::alloc::Global;
use toml::Table;

// The most bytes of a job file.
const LONGEST_JOB: usize = 65_536;

// Whether each key of the document is one of a job.
fn keys_known(table: &Table) -> bool
    ensures { result ≡ are_known (table_view table.now) }
{
    for (key, _) in table {
        if !is_known(key.as_str()) {
            return false;
        }
    }
    true
}

/// The table of a document whose keys are those of a job, or the fault of the document as a whole.
pub fn table_of(alloc: Global, bytes: &[u8]) -> Result<Table, Stop<Fault>>
    ensures { MatchResult result (λ t. IsDocument bytes.now (table_view t) × (are_known (table_view t) ≡ true))
        (λ s. StopIs (λ f. IsFirstFault bytes.now f.key f.kind) s) }
{
    if bytes.len() > LONGEST_JOB {
        let kind = Kind::Length;
        return Err(Stop::Fault(Fault { key: 0, kind }));
    }
    let table = match toml::table_from_slice(alloc, bytes) {
        Ok(table) => table,
        Err(error) if error.is_memory() => return Err(Stop::OutOfMemory),
        Err(_) => {
            let kind = Kind::Toml;
            return Err(Stop::Fault(Fault { key: 0, kind }));
        }
    };
    if !keys_known(&table) {
        let kind = Kind::Unknown;
        return Err(Stop::Fault(Fault { key: 0, kind }));
    }
    Ok(table)
}
