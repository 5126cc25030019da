//! The job file.

ghost use Rattle.std.specs.Prelude.{MatchResult, IfOk};
ghost use Rattle.toml.specs.View.{table_view};
ghost use Rattle.flk_job.specs.Job.{HasJob, IsJob, IsFirstFault, IsJobAnswer, AreInSets};
ghost use Rattle.flk_job.specs.Reading.{IsKeyFault};
ghost use Rattle.flk_num.specs.Stop.{StopIs};

use crate::channels::channels_in;
use crate::document::table_of;
use crate::key::Key;
use crate::kind::{Fault, JobFault};
use crate::values::{dmax_in, integer_in, lamp_in};
use flk_num::{Lamp, List, Rate, Stop};
use flk_scale::Supply;
use std::alloc::Global;
use toml::Table;

/// What is to be measured of a recording.
#[derive(Drop)]
pub struct Job {
    /// The reference lamp, with the nominal frequency of its supply.
    pub lamp: Lamp,
    /// The nominal voltage and the declared uncertainty.
    pub supply: Supply,
    /// The analog channels to measure, counted from 1: 1 to 6 different numbers, each from 1 to 256.
    pub channels: List<u16>,
    /// The limit of dmax in percent of nominal: 4, 6 or 7.
    pub dmax_percent: u8,
    /// The seconds before the first interval, from 0 to 60.
    pub run_in_s: u16,
    /// The seconds of an interval, from 1 to 600.
    pub interval_s: u16,
}

impl Job {
    ghost use Rattle.std.specs.Prelude.{◌≡◌};
    ghost use Rattle.flk_job.specs.Times.{run_in_samples as samples_of_run_in, interval_samples as samples_of_interval};

    /// The samples of the run-in, which come before the first interval.
    pub fn run_in_samples(&self, rate: Rate) -> u32
        ensures { result ≡ samples_of_run_in self.now rate }
    {
        rate.samples_in(self.run_in_s)
    }

    /// The samples of an interval.
    pub fn interval_samples(&self, rate: Rate) -> u32
        ensures { result ≡ samples_of_interval self.now rate }
    {
        rate.samples_in(self.interval_s)
    }
}

// The job of a document whose keys are those of a job, or the first fault of a key.
fn job_of(alloc: Global, table: &Table) -> Result<Job, Stop<Fault>>
    ensures { MatchResult result (λ j. HasJob (table_view table.now) j)
        (λ s. StopIs (λ f. IsKeyFault (table_view table.now) f) s) }
{
    let lamp = lamp_in(table, Key::Lamp)?;
    let nominal_mv = integer_in(table, Key::Nominal, 1000, 1_000_000)?;
    let uncertainty_uv = integer_in(table, Key::Uncertainty, 0, 10 * nominal_mv)?;
    let channels = channels_in(alloc, table, Key::Channels)?;
    let dmax_percent = dmax_in(table, Key::Dmax)?;
    let run_in_s = integer_in(table, Key::RunIn, 0, 60)?;
    let interval_s = integer_in(table, Key::Interval, 1, 600)?;
    Ok(Job {
        lamp,
        supply: Supply {
            nominal_mv,
            uncertainty_uv,
        },
        channels,
        dmax_percent,
        run_in_s: run_in_s as u16,
        interval_s: interval_s as u16,
    })
}

// The job that the bytes write, or their first fault.
fn read_document(alloc: Global, bytes: &[u8]) -> Result<Job, Stop<Fault>>
    ensures { MatchResult result (λ j. IsJob bytes.now j) (λ s. StopIs (λ f. IsFirstFault bytes.now f.key f.kind) s) }
{
    let table = table_of(alloc, bytes)?;
    job_of(alloc, &table)
}

/// The job that the bytes of a file write, a TOML document of at most 65,536 bytes.
///
/// The fault is the first one in this order: a file above the limit (`Length`, key 0), bytes that are no TOML document
/// (`Toml`, key 0), a key that isn't in the table (`Unknown`, key 0); and then, for the keys in the order of [`Key`],
/// one without value and default (`Absent`), of another TOML type (`OtherType`), out of its set (`Range`). [`JobFault`]
/// has the numbers. `OutOfMemory` says nothing of the bytes.
pub fn read_job(alloc: Global, bytes: &[u8]) -> Result<Job, Stop<JobFault>>
    ensures answer { IsJobAnswer bytes.now result }
    ensures sets { IfOk result AreInSets }
{
    match read_document(alloc, bytes) {
        Ok(job) => Ok(job),
        Err(Stop::Fault(fault)) => Err(Stop::Fault(JobFault {
            key: fault.key,
            kind: fault.kind.number(),
        })),
        Err(Stop::OutOfMemory) => Err(Stop::OutOfMemory),
    }
}
