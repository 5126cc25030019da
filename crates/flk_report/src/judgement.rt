//! The verdict on all channels together.

ghost use Rattle.std.specs.Prelude.{◌≡◌, ◌↔◌, List, map, take};
ghost use Rattle.std.specs.List.{AllZip};
ghost use Rattle.flk_result.specs.PhaseResult.{AreHeld};
ghost use Rattle.flk_result.specs.RunQuantities.{RunQuantities};
ghost use Rattle.flk_report.specs.Limits.{judged_by, pst_limit, judged_lines, judged_changes};
ghost use Rattle.flk_report.specs.Verdict.{line_verdict, worst, all_judged_lines, overall_of, AllLinesPass, SomeLineIs, IsOverallVerdictOn};
ghost use Rattle.flk_report.specs.declared.verdict.Verdict.TheVariants as verdicts;

use crate::limits::{DC, PLT, PST, dmax_limit, tmax_limit};
use crate::severities::severities_of;
use crate::verdict::{Verdict, judge};
use flk_change::ChangeSummary;
use flk_job::Job;
use flk_num::Interval;
use flk_result::PhaseResult;

// The verdict on dc, dmax and Tmax.
#[tactic(auto, using(crate::proofs::VerdictLemmas::worse_pass))]
fn changes_verdict(job: &Job, changes: &ChangeSummary) -> Verdict
    ensures { result ≡ worst (map line_verdict (judged_changes job.now changes.now)) }
{
    let dc = judge(changes.dc, DC);
    let dmax = judge(changes.dmax, dmax_limit(job));
    let t = judge(changes.t, tmax_limit(job.lamp));
    dc.joined(dmax.joined(t))
}

// The verdict on the short-term severities of all intervals.
fn severities_verdict(severities: &[Interval]) -> Verdict
    ensures { result ≡ worst (map line_verdict (map (judged_by pst_limit) severities.now)) }
{
    let mut verdict = Verdict::Pass;
    for severity in severities {
        verdict = verdict.joined(judge(*severity, PST));
    }
    verdict
}

// The verdict on one channel.
fn channel_verdict(job: &Job, channel: &PhaseResult) -> Verdict
    ensures { result ≡ worst (map line_verdict (judged_lines job.now channel.now)) }
{
    let changes = changes_verdict(job, &channel.changes);
    let severities = severities_verdict(severities_of(channel));
    let verdict = changes.joined(severities);
    match channel.plt {
        Some(plt) => verdict.joined(judge(plt, PLT)),
        None => verdict,
    }
}

/// The verdict on the results of all selected channels (IEC 61000-3-3, clause 5). Each judged line has the verdict of
/// [`judge`]: dc, dmax, Tmax, the Pst of each judged interval, and Plt where it stands. The verdict on all of them is
/// Fail exactly where one fails, Undecided exactly where none fails and one is undecided, and Pass exactly where each
/// passes, as where there is no result. Takes no memory.
///
/// It is the verdict on every exact run of all channels whose quantities the results hold.
pub fn overall(job: &Job, results: &[PhaseResult]) -> Verdict
    ensures value { result ≡ overall_of job.now results.now }
    ensures pass { (result ≡ verdicts.Pass) ↔ AllLinesPass (all_judged_lines job.now results.now) }
    ensures fail { (result ≡ verdicts.Fail) ↔ SomeLineIs verdicts.Fail (all_judged_lines job.now results.now) }
    ensures undecided { (result ≡ verdicts.Undecided)
        ↔ ((¬ SomeLineIs verdicts.Fail (all_judged_lines job.now results.now))
        × SomeLineIs verdicts.Undecided (all_judged_lines job.now results.now)) }
    ensures every { (qs : List RunQuantities) → AllZip AreHeld results.now qs → IsOverallVerdictOn result job.now qs }
{
    let mut verdict = Verdict::Pass;
    for result in results {
        verdict = verdict.joined(channel_verdict(job, result));
    }
    verdict
}
