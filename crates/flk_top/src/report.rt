//! The command `report`.

ghost use Rattle.std.specs.Prelude.{◌≡◌, ◌≢◌, ℕ, ◌<◌, ◌≤◌, List, length, slice_index_or, IfOk, true, string_bytes};
ghost use Rattle.flk_io.specs.Told.{OnlyReads, ReadsUnder};
ghost use Rattle.flk_num.specs.Rate.{sampling_interval};
ghost use Rattle.flk_cfg.specs.Valid.{IsValid};
ghost use Rattle.flk_job.specs.Job.{AreInSets};
ghost use Rattle.flk_job.specs.Matching.{IsMatch};
ghost use Rattle.flk_dat.specs.Records.{DataRecord, Layout};
ghost use Rattle.flk_design.specs.Lamp.{constants_of};
ghost use Rattle.flk_design.specs.Design.{IsDesign};
ghost use Rattle.flk_section.specs.Filter.{FilterNumbers};
ghost use Rattle.flk_section.specs.Whole.{numbers_of};
ghost use Rattle.flk_result.specs.Conditions.{AreEnough};
ghost use Rattle.flk_result.specs.declared.result.PhaseResult.{PhaseResult as PhaseResultView};
ghost use Rattle.flk_top.specs.Blocks.{HasRead, ReadsOn};
ghost use Rattle.flk_top.specs.Certified.{IsCertifiedLamp};
ghost use Rattle.flk_top.specs.Command.{Asks, inputs_of};
ghost use Rattle.flk_top.specs.Faults.{range_line};
ghost use Rattle.flk_top.specs.ReportDue.{conditions_in, verdict_status, AreResults, reported_outcome};
ghost use Rattle.flk_top.specs.ReportDue.{IsDueForPhases, IsDueForJob};
ghost use Rattle.flk_top.specs.Replies.{outcome_of, IsExplained, IsHonest, ReadsOnly, AwaitsTurns};
ghost use Rattle.flk_top.specs.Status.{status_number};
ghost use Rattle.flk_top.specs.Told.{MayHold};
ghost use Rattle.flk_top.specs.Working.{HaveWorked, CanWork, AreWorked, AreLast};
ghost use Rattle.flk_top.specs.declared.certified.CertifiedSection.{CertifiedSection as CertifiedSectionView};
ghost use Rattle.flk_top.specs.declared.command.Command.TheVariants as commands;
ghost use Rattle.flk_top.specs.declared.reply.Status.TheVariants as statuses;

use crate::blocks::{Blocks, Progress, empty_block};
use crate::certified::certify_lamp;
use crate::command::{JOB_WORD, REPORT_CONFIGURATION_WORD, REPORT_DATA_WORD, ReportCommand};
use crate::configuration::read_configuration;
use crate::faults::{data_reply, lamp_reply, match_reply, range_reply, read_reply};
use crate::job::read_job_file;
use crate::phases::{phases_of, results_of, work_block, work_block_beside};
use crate::reply::{Reply, Status};
use flk_cfg::Config;
use flk_dat::Block;
use flk_io::{Failed, OutOfMemory, Shelf, Words};
use flk_job::{Job, match_job};
use flk_num::Stop;
use flk_phase::{Gate, Phase};
use flk_report::{Verdict, overall, report_text};
use flk_section::Whole;
use std::alloc::Global;
use std::thread::Threads;

fn status_of(verdict: Verdict) -> Status
    ensures number { status_number result ≡ verdict_status verdict }
    ensures read { result ≢ statuses.ReadFailed }
{
    match verdict {
        Verdict::Pass => Status::Done,
        Verdict::Fail => Status::Failed,
        Verdict::Undecided => Status::Undecided,
    }
}

// The report of phases that have taken all records of a recording that is long enough.
fn report_done(
    alloc: Global,
    job: &Job,
    config: &Config,
    phases: &[Phase],
) -> Result<Reply, OutOfMemory>
    requires sets { AreInSets job.now }
    requires worked { (filter : FilterNumbers) × (rs : List DataRecord)
        × HaveWorked job.now config.now filter phases.now rs
        × AreEnough (conditions_in job.now config.now filter) (length rs) }
    ensures reported { IfOk result (λ r. (filter : FilterNumbers) (rs : List DataRecord)
        → HaveWorked job.now config.now filter phases.now rs
        → (results : List PhaseResultView) × AreResults job.now config.now filter rs results
        × (outcome_of r ≡ reported_outcome job.now config.now results)) }
    ensures read { IfOk result (λ r. r.status ≢ statuses.ReadFailed) }
{
    let results = results_of(alloc, phases)?;
    let text = report_text(alloc, job, config.rate, config.endsamp, &results)?;
    Ok(Reply {
        status: status_of(overall(job, &results)),
        text: String::from_utf8(text).unwrap(),
    })
}

// The answer for a sample over range in this record, from 1, of the channel with this place in the job, from 0.
fn over_reply(alloc: Global, job: &Job, number: u32, turn: usize) -> Result<Reply, OutOfMemory>
    requires sets { AreInSets job.now }
    requires some { 1 ≤ number }
    requires there { turn < length job.now.channels }
    ensures { IfOk result (λ r. (r.status ≡ statuses.Refused)
        × (string_bytes r.text ≡ range_line number (slice_index_or job.now.channels turn 0))) }
{
    let channel = job.channels.as_slice()[turn];
    range_reply(alloc, number - 1, u32::from(channel))
}

// The phases take the last block, and the answer is composed.
fn last_reply<R: Threads + Sync, G: Gate + Sync>(
    rt: &R,
    alloc: Global,
    job: &Job,
    config: &Config,
    phases: &mut Vec<Phase>,
    block: &Block,
    progress: Progress,
    workers: usize,
    gate: &G,
) -> Result<Reply, OutOfMemory>
    requires sets { AreInSets job.now }
    requires matches { IsMatch job.now config.now }
    requires workers { (1 ≤ workers) × (workers ≤ 16) }
    requires ready { CanWork phases.old.items block.now }
    requires gate { (i : ℕ) → i < length phases.old.items → G.admits gate.now i ≡ true }
    requires last { (filter : FilterNumbers) × (bytes : List ℕ)
        × AreLast progress job.now config.now filter phases.old.items block.now.records bytes }
    ensures due { IfOk result (λ r. (filter : FilterNumbers) (bytes : List ℕ)
        → AreLast progress job.now config.now filter phases.old.items block.now.records bytes
        → IsDueForPhases job.now config.now filter bytes (outcome_of r)) }
    ensures read { IfOk result (λ r. r.status ≢ statuses.ReadFailed) }
{
    if let Some((record, turn)) = work_block(rt, phases, block, workers, gate)? {
        return over_reply(alloc, job, record, turn);
    }
    match progress {
        Progress::Full => unreachable!(),
        Progress::Ended => report_done(alloc, job, config, phases),
        Progress::Fault(fault) => data_reply(alloc, fault),
    }
}

// The phases take a block, and the next one is read: at the same time, where there are two workers or more.
fn work_and_read<R: Threads + Sync, F: Shelf, G: Gate + Sync>(
    rt: &R,
    phases: &mut Vec<Phase>,
    block: &Block,
    blocks: &mut Blocks,
    shelf: &mut F,
    name: &str,
    workers: usize,
    gate: &G,
) -> (
    Result<Option<(u32, usize)>, OutOfMemory>,
    Result<Progress, Failed>,
)
    requires workers { (1 ≤ workers) × (workers ≤ 16) }
    requires ready { CanWork phases.old.items block.now }
    requires gate { (i : ℕ) → i < length phases.old.items → G.admits gate.now i ≡ true }
    requires read { (l : Layout) × (bytes : List ℕ) × (rs : List DataRecord) × HasRead l blocks.old bytes rs }
    ensures worked { IfOk result.0 (AreWorked phases.old.items phases.new.items block.now.records) }
    ensures read { ReadsOn name.now blocks.old blocks.new (F.told shelf.old) (F.told shelf.new) result.1 }
{
    if workers == 1 {
        let over = work_block(rt, phases, block, workers, gate);
        return (over, blocks.next(shelf, name));
    }
    work_block_beside(
        rt,
        phases,
        block,
        workers,
        gate,
        &mut || -> Result<Progress, Failed>
            requires { (l : Layout) × (bytes : List ℕ) × (rs : List DataRecord) × HasRead l blocks.now bytes rs }
            ensures { ReadsOn name.entry.now blocks.entry.now blocks.exit.now
                (F.told shelf.entry.now) (F.told shelf.exit.now) result }
        { blocks.next(shelf, name) },
    )
}

// Reads the data of channels that can be measured, works them, and composes the answer.
fn phases_reply<R: Threads + Sync, F: Shelf, G: Gate + Sync>(
    rt: &R,
    alloc: Global,
    shelf: &mut F,
    name: &str,
    job: &Job,
    config: &Config,
    whole: &Whole,
    workers: usize,
    gate: &G,
) -> Result<Reply, OutOfMemory>
    requires valid { IsValid config.now }
    requires sets { AreInSets job.now }
    requires matches { IsMatch job.now config.now }
    requires design { IsDesign (sampling_interval config.now.rate) (constants_of job.now.lamp)
        (numbers_of whole.now).coefs }
    requires workers { (1 ≤ workers) × (workers ≤ 16) }
    requires gate { (i : ℕ) → i < 6 → G.admits gate.now i ≡ true }
    ensures due { IfOk result (λ r. r.status ≢ statuses.ReadFailed → (bytes : List ℕ)
        × MayHold ((F.told shelf.old).left name.now) bytes
        × IsDueForPhases job.now config.now (numbers_of whole.now) bytes (outcome_of r)) }
    ensures honest { IfOk result (IsHonest (F.told shelf.old) (F.told shelf.new)) }
    ensures only_reads { OnlyReads (F.told shelf.old) (F.told shelf.new) }
    ensures others { ReadsUnder name.now (F.told shelf.old) (F.told shelf.new) }
{
    let mut phases = phases_of(alloc, job, config, whole)?;
    let mut blocks = Blocks::new(alloc, config, job.channels.as_slice())?;
    let mut other = empty_block(alloc, config)?;
    let Ok(mut progress) = blocks.next(shelf, name) else {
        return read_reply(alloc);
    };
    while let Progress::Full = progress {
        blocks.exchange(&mut other);
        let (over, next) = work_and_read(
            rt,
            &mut phases,
            &other,
            &mut blocks,
            shelf,
            name,
            workers,
            gate,
        );
        let Ok(next) = next else {
            return read_reply(alloc);
        };
        if let Some((record, turn)) = over? {
            return over_reply(alloc, job, record, turn);
        }
        progress = next;
    }
    last_reply(
        rt,
        alloc,
        job,
        config,
        &mut phases,
        blocks.block(),
        progress,
        workers,
        gate,
    )
}

// The answer for a job and a configuration that are accepted: whether they match, whether the lamp is certified, and
// then the data.
fn job_reply<R: Threads + Sync, F: Shelf, G: Gate + Sync>(
    rt: &R,
    alloc: Global,
    shelf: &mut F,
    name: &str,
    job: &Job,
    config: &Config,
    workers: usize,
    gate: &G,
) -> Result<Reply, OutOfMemory>
    requires valid { IsValid config.now }
    requires sets { AreInSets job.now }
    requires workers { (1 ≤ workers) × (workers ≤ 16) }
    requires gate { (i : ℕ) → i < 6 → G.admits gate.now i ≡ true }
    ensures due { IfOk result (λ r. r.status ≢ statuses.ReadFailed → (bytes : List ℕ)
        × MayHold ((F.told shelf.old).left name.now) bytes × IsDueForJob job.now config.now bytes (outcome_of r)) }
    ensures honest { IfOk result (IsHonest (F.told shelf.old) (F.told shelf.new)) }
    ensures only_reads { OnlyReads (F.told shelf.old) (F.told shelf.new) }
    ensures others { ReadsUnder name.now (F.told shelf.old) (F.told shelf.new) }
    ensures turn { ((ss : List CertifiedSectionView) → IsMatch job.now config.now
        → ¬ IsCertifiedLamp job.now.lamp config.now.rate ss)
        → (F.told shelf.new).left name.now ≡ (F.told shelf.old).left name.now }
{
    if let Err(fault) = match_job(job, config) {
        return match_reply(alloc, fault);
    }
    match certify_lamp(alloc, job.lamp, config.rate) {
        Ok(certified) => phases_reply(
            rt,
            alloc,
            shelf,
            name,
            job,
            config,
            &certified.whole,
            workers,
            gate,
        ),
        Err(Stop::Fault(fault)) => lamp_reply(alloc, fault),
        Err(Stop::OutOfMemory) => Err(OutOfMemory),
    }
}

/// Reads the three files that the words name, and composes the answer.
pub fn report_reply<R: Threads + Sync, F: Shelf, G: Gate + Sync>(
    rt: &R,
    alloc: Global,
    words: &Words,
    command: ReportCommand,
    shelf: &mut F,
    gate: &G,
) -> Result<Reply, OutOfMemory>
    requires asks { Asks words.now (commands.Report command) }
    requires gate { (i : ℕ) → i < 6 → G.admits gate.now i ≡ true }
    ensures due { IfOk result
        (IsExplained (commands.Report command) (inputs_of (commands.Report command) words.now) (F.told shelf.old)) }
    ensures honest { IfOk result (IsHonest (F.told shelf.old) (F.told shelf.new)) }
    ensures only_reads { OnlyReads (F.told shelf.old) (F.told shelf.new) }
    ensures names { ReadsOnly (inputs_of (commands.Report command) words.now) (F.told shelf.old) (F.told shelf.new) }
    ensures turn { AwaitsTurns (commands.Report command) (inputs_of (commands.Report command) words.now)
        (F.told shelf.old) (F.told shelf.new) }
{
    let job = match read_job_file(alloc, shelf, words.word(JOB_WORD)) {
        Ok(job) => job,
        Err(Stop::Fault(reply)) => return Ok(reply),
        Err(Stop::OutOfMemory) => return Err(OutOfMemory),
    };
    let config = match read_configuration(alloc, shelf, words.word(REPORT_CONFIGURATION_WORD)) {
        Ok(config) => config,
        Err(Stop::Fault(reply)) => return Ok(reply),
        Err(Stop::OutOfMemory) => return Err(OutOfMemory),
    };
    let workers = command.workers as usize;
    job_reply(
        rt,
        alloc,
        shelf,
        words.word(REPORT_DATA_WORD),
        &job,
        &config,
        workers,
        gate,
    )
}
