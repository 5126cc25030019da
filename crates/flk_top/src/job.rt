//! The job that the words of a command name.

ghost use Rattle.std.specs.Prelude.{◌≡◌, ◌≢◌, ℕ, List, IfOk, IfErr, string_bytes};
ghost use Rattle.flk_io.specs.Told.{OnlyReads, ReadsUnder};
ghost use Rattle.flk_num.specs.Stop.{StopIs};
ghost use Rattle.flk_job.specs.Job.{IsJob, IsFirstFault, AreInSets};
ghost use Rattle.flk_job.specs.Kinds.{kind_number};
ghost use Rattle.flk_job.specs.declared.kind.Kind.TheVariants as kinds;
ghost use Rattle.flk_top.specs.Faults.{job_line};
ghost use Rattle.flk_top.specs.ReportDue.{IsJobFault};
ghost use Rattle.flk_top.specs.Outcome.{refusal};
ghost use Rattle.flk_top.specs.Replies.{outcome_of, IsHonest};
ghost use Rattle.flk_top.specs.Told.{MayHold};
ghost use Rattle.flk_top.specs.declared.reply.Status.TheVariants as statuses;

use crate::faults::{job_reply, read_reply};
use crate::reply::Reply;
use flk_io::{OutOfMemory, ReadStop, Shelf, read_all};
use flk_job::{Job, JobFault, Kind, read_job};
use flk_num::Stop;
use std::alloc::Global;

/// The greatest job file, in bytes.
const JOB_LIMIT: usize = 65_536;

// The reply to a job file above its limit: a fault of its length, which no key has.
fn too_long_reply(alloc: Global) -> Result<Reply, OutOfMemory>
    ensures { IfOk result (λ r. (r.status ≡ statuses.Refused)
        × (string_bytes r.text ≡ job_line 0 (kind_number kinds.Length))) }
{
    let kind = Kind::Length.number();
    job_reply(alloc, JobFault { key: 0, kind })
}

/// Reads the job under a name. What stops is the reply to its first fault, or to a failed read.
pub fn read_job_file<F: Shelf>(alloc: Global, shelf: &mut F, name: &str) -> Result<Job, Stop<Reply>>
    ensures sets { IfOk result AreInSets }
    ensures job { IfOk result (λ j. (bytes : List ℕ)
        × MayHold ((F.told shelf.old).left name.now) bytes × IsJob bytes j) }
    ensures refusal { IfErr result (StopIs (λ r. r.status ≢ statuses.ReadFailed → (bytes : List ℕ) × (line : List ℕ)
        × MayHold ((F.told shelf.old).left name.now) bytes × IsJobFault bytes line
        × (outcome_of r ≡ refusal line))) }
    ensures honest { IfErr result (StopIs (IsHonest (F.told shelf.old) (F.told shelf.new))) }
    ensures quiet { IfOk result (λ j. (F.told shelf.new).read_faults ≡ (F.told shelf.old).read_faults) }
    ensures only_reads { OnlyReads (F.told shelf.old) (F.told shelf.new) }
    ensures others { ReadsUnder name.now (F.told shelf.old) (F.told shelf.new) }
{
    let bytes = match read_all(alloc, shelf, name, JOB_LIMIT) {
        Ok(bytes) => bytes,
        Err(ReadStop::TooLong) => return Err(Stop::Fault(too_long_reply(alloc)?)),
        Err(ReadStop::Failed) => return Err(Stop::Fault(read_reply(alloc)?)),
        Err(ReadStop::OutOfMemory) => return Err(Stop::OutOfMemory),
    };
    match read_job(alloc, &bytes) {
        Ok(job) => Ok(job),
        Err(Stop::Fault(fault)) => Err(Stop::Fault(job_reply(alloc, fault)?)),
        Err(Stop::OutOfMemory) => Err(Stop::OutOfMemory),
    }
}
