//! The whole configuration file.

ghost use Rattle.std.specs.Prelude.{MatchResult};
ghost use Rattle.flk_cfg.specs.File.{IsConfig, IsFirstFault, IsFileAnswer};
ghost use Rattle.flk_num.specs.Stop.{StopIs};

use crate::analog::read_analogs;
use crate::config::Config;
use crate::counts::read_counts;
use crate::digital::read_digitals;
use crate::kind::CfgFault;
use crate::last::read_last;
use crate::reader::Reader;
use crate::settings::read_settings;
use crate::title::read_title;
use flk_field::Fault;
use flk_num::Stop;
use std::alloc::Global;

/// The configuration that the bytes write, or their first fault.
fn read_config(alloc: Global, bytes: &[u8]) -> Result<Config, Stop<Fault>>
    ensures { MatchResult result (λ c. IsConfig bytes.now c)
        (λ s. StopIs (λ f. IsFirstFault bytes.now f.line f.field f.kind) s) }
{
    let mut reader = Reader::new(bytes);
    let title = read_title(alloc, &mut reader)?;
    let counts = read_counts(&mut reader)?;
    let analog = read_analogs(alloc, counts.analog, &mut reader)?;
    let digital = read_digitals(alloc, counts.digital, &mut reader)?;
    let settings = read_settings(&mut reader)?;
    let timemult = read_last(&mut reader)?;
    Ok(Config {
        station: title.station,
        device: title.device,
        analog,
        digital,
        lf: settings.lf,
        rate: settings.rate,
        endsamp: settings.endsamp,
        first: settings.first,
        trigger: settings.trigger,
        form: settings.form,
        timemult,
    })
}

/// The configuration that the bytes of a file write, as IEEE C37.111-1999, clause 5, lays it down, with one sampling
/// rate, of 2400 or 4800 samples a second.
///
/// A line ends with LF or at the end of the file, and one CR before that end is dropped; its fields stand between
/// commas, and spaces at both their ends are dropped. The fault is the first faulty line's, and in a line its count of
/// fields comes first and then its fields from the left; [`CfgFault`] has the numbers. `OutOfMemory` says nothing of
/// the bytes.
pub fn read_cfg(alloc: Global, bytes: &[u8]) -> Result<Config, Stop<CfgFault>>
    ensures { IsFileAnswer bytes.now result }
{
    match read_config(alloc, bytes) {
        Ok(config) => Ok(config),
        Err(Stop::Fault(fault)) => Err(Stop::Fault(CfgFault {
            line: fault.line,
            field: fault.field,
            kind: fault.kind.number(),
        })),
        Err(Stop::OutOfMemory) => Err(Stop::OutOfMemory),
    }
}
