//! The phases of a report: one for each channel of the job.

ghost use Rattle.std.specs.Prelude.{◌≡◌, ℕ, ◌+◌, ◌^◌, ◌<◌, ◌≤◌, List, [], length, slice_index_or, IfOk, OnOk, true};
ghost use Rattle.std.specs.List.{AllZip};
ghost use Rattle.flk_num.specs.Rate.{sampling_interval};
ghost use Rattle.flk_job.specs.Job.{AreInSets};
ghost use Rattle.flk_job.specs.Matching.{IsMatch};
ghost use Rattle.flk_design.specs.Lamp.{constants_of};
ghost use Rattle.flk_design.specs.Design.{IsDesign};
ghost use Rattle.flk_section.specs.Whole.{numbers_of};
ghost use Rattle.flk_phase.specs.Phase.{channel_of, over_of, taken_of};
ghost use Rattle.flk_phase.specs.declared.phase.Phase.{Phase as PhaseView};
ghost use Rattle.flk_top.specs.ReportDue.{setup_of as setup_in};
ghost use Rattle.flk_top.specs.Working.{HaveWorked, AreReserved, TakeRecords, IsFirstOverOfPhases};
ghost use Rattle.flk_top.specs.Working.{CanWork, AreWorked, IsReady, IsEndOf};

use flk_cfg::Config;
use flk_dat::Block;
use flk_io::OutOfMemory;
use flk_job::Job;
use flk_phase::{Gate, Phase, PhaseResult, Setup, work, work_beside};
use flk_report::interval_count;
use flk_scale::match_channel;
use flk_section::Whole;
use std::alloc::Global;
use std::thread::Threads;

// The run-in and the intervals of a job, in samples, and how many intervals are judged.
fn setup_of(job: &Job, config: &Config) -> Setup
    requires { AreInSets job.now }
    ensures { result ≡ setup_in job.now config.now }
{
    Setup {
        lamp: job.lamp,
        rate: config.rate,
        run_in: job.run_in_samples(config.rate),
        interval: job.interval_samples(config.rate),
        count: interval_count(job, config.rate, config.endsamp),
    }
}

/// One phase for each channel of a job, in its order, of which none has taken a sample. The filter is that of the job's
/// lamp at the configuration's rate.
pub fn phases_of(
    alloc: Global,
    job: &Job,
    config: &Config,
    whole: &Whole,
) -> Result<Vec<Phase>, OutOfMemory>
    requires sets { AreInSets job.now }
    requires matches { IsMatch job.now config.now }
    requires design { IsDesign (sampling_interval config.now.rate) (constants_of job.now.lamp)
        (numbers_of whole.now).coefs }
    ensures { IfOk result (λ phases. HaveWorked job.now config.now (numbers_of whole.now) phases.items []) }
{
    let setup = setup_of(job, config);
    let mut phases = Vec::new(alloc);
    for channel in job.channels.as_slice() {
        let Ok(scale) = match_channel(*channel, &job.supply, config) else {
            unreachable!();
        };
        let place = usize::from(*channel) - 1;
        phases.push(Phase::new(alloc, scale, place, &setup, *whole)?)?;
    }
    Ok(phases)
}

// Makes room for so many samples in each phase.
fn reserve_all(phases: &mut [Phase], samples: usize) -> Result<(), OutOfMemory>
    ensures { OnOk result (AreReserved samples phases.old phases.new) }
{
    for i in 0..phases.len() {
        phases[i].reserve(samples)?;
    }
    Ok(())
}

// Each phase takes the records of a block, in as many parts side by side as there are workers.
fn take_block<R: Threads + Sync, G: Gate + Sync>(
    rt: &R,
    phases: &mut [Phase],
    block: &Block,
    workers: usize,
    gate: &G,
) -> Result<(), OutOfMemory>
    requires some { 0 < length phases.old }
    requires workers { (1 ≤ workers) × (workers ≤ 16) }
    requires channels { (i : ℕ) (d : PhaseView) → i < length phases.old
        → channel_of (slice_index_or phases.old i d) < block.now.analog }
    requires few { (i : ℕ) (d : PhaseView) → i < length phases.old
        → taken_of (slice_index_or phases.old i d) + length block.now.records < 2 ^ 32 }
    requires gate { (i : ℕ) → i < length phases.old → G.admits gate.now i ≡ true }
    ensures { OnOk result (TakeRecords phases.old phases.new block.now.records) }
{
    if block.rows() == 0 {
        return Ok(());
    }
    reserve_all(phases, block.rows())?;
    work(rt, phases, block, workers, gate);
    Ok(())
}

// The first over range of the phases so far, and of one phase more.
fn lesser(first: Option<(u32, usize)>, over: Option<u32>, turn: usize) -> Option<(u32, usize)>
    ensures { (phases : List PhaseView) → IsFirstOverOfPhases phases turn first
        → ((d : PhaseView) → over_of (slice_index_or phases turn d) ≡ over)
        → IsFirstOverOfPhases phases (turn + 1) result }
{
    let Some(number) = over else {
        return first;
    };
    match first {
        None => Some((number, turn)),
        Some(found) => {
            if number < found.0 {
                Some((number, turn))
            } else {
                Some(found)
            }
        }
    }
}

// The least record, from 1, in which a phase has a sample over range, with the place of the first such phase, from 0.
fn first_over(phases: &[Phase]) -> Option<(u32, usize)>
    ensures { IsFirstOverOfPhases phases.now (length phases.now) result }
{
    let mut first = None;
    for i in 0..phases.len() {
        first = lesser(first, phases[i].over(), i);
    }
    first
}

/// The phases of a job take the records of a block, in as many parts side by side as there are workers. The answer is
/// the least record, from 1, in which a channel is over range, with the first such channel's place in the job, from 0;
/// None where none is.
pub fn work_block<R: Threads + Sync, G: Gate + Sync>(
    rt: &R,
    phases: &mut Vec<Phase>,
    block: &Block,
    workers: usize,
    gate: &G,
) -> Result<Option<(u32, usize)>, OutOfMemory>
    requires workers { (1 ≤ workers) × (workers ≤ 16) }
    requires ready { CanWork phases.old.items block.now }
    requires gate { (i : ℕ) → i < length phases.old.items → G.admits gate.now i ≡ true }
    ensures { IfOk result (AreWorked phases.old.items phases.new.items block.now.records) }
{
    take_block(rt, phases, block, workers, gate)?;
    Ok(first_over(phases))
}

/// As [`work_block`], and meanwhile `beside` is called once, in this thread; also where no memory is found. The parts
/// are worked in threads that this one starts.
pub fn work_block_beside<R: Threads + Sync, G: Gate + Sync, X, B: FnMut() -> X>(
    rt: &R,
    phases: &mut [Phase],
    block: &Block,
    workers: usize,
    gate: &G,
    beside: &mut B,
) -> (Result<Option<(u32, usize)>, OutOfMemory>, X)
    requires workers { (1 ≤ workers) × (workers ≤ 16) }
    requires ready { CanWork phases.old block.now }
    requires gate { (i : ℕ) → i < length phases.old → G.admits gate.now i ≡ true }
    requires beside { B.pre beside.old }
    ensures worked { IfOk result.0 (AreWorked phases.old phases.new block.now.records) }
    ensures beside { B.step beside.old result.1 beside.new }
{
    if reserve_all(phases, block.rows()).is_err() {
        return (Err(OutOfMemory), beside());
    }
    let answer = work_beside(rt, phases, block, workers, gate, beside);
    (Ok(first_over(phases)), answer)
}

/// The results of phases that have taken all records of a recording, in their order.
pub fn results_of(alloc: Global, phases: &[Phase]) -> Result<Vec<PhaseResult>, OutOfMemory>
    requires { (i : ℕ) (d : PhaseView) → i < length phases.now → IsReady (slice_index_or phases.now i d) }
    ensures { IfOk result (λ results. AllZip IsEndOf phases.now results.items) }
{
    let mut results = Vec::new(alloc);
    for phase in phases {
        results.push(phase.end())?;
    }
    Ok(results)
}
