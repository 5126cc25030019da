//! The text of a report.

ghost use Rattle.std.specs.Prelude.{◌≡◌, All, length, IfOk, string_bytes};
ghost use Rattle.std.specs.Str.{IsUtf8};
ghost use Rattle.flk_job.specs.Job.{AreInSets};
ghost use Rattle.flk_job.specs.Table.{lamp_name};
ghost use Rattle.flk_report.specs.Report.{interval_count as count_of, form_name, title_lines, recording_lines, report_text as text_of};
ghost use Rattle.flk_report.specs.Report.{value_line, count_line, severity_line, severity_lines, long_term_line};
ghost use Rattle.flk_report.specs.Report.{channel_head, changes_lines, channel_lines, all_channel_lines};

use crate::OutOfMemory;
use crate::judgement::overall;
use crate::limits::{DC, PLT, PST, dmax_limit, tmax_limit};
use crate::severities::severities_of;
use crate::verdict::judge;
use flk_change::ChangeSummary;
use flk_job::Job;
use flk_num::{Interval, Lamp, Rate};
use flk_result::PhaseResult;
use flk_text::{Billionths, Ends};
use std::alloc::Global;

/// The most intervals that are judged.
const MOST_INTERVALS: u32 = 12;

/// How many intervals of a recording of so many records are judged, from 0 to 12: the first twelve whole ones after
/// the run-in.
pub fn interval_count(job: &Job, rate: Rate, records: u32) -> u8
    requires { AreInSets job.now }
    ensures { result ≡ count_of job.now rate records }
{
    let whole = records.saturating_sub(job.run_in_samples(rate)) / job.interval_samples(rate);
    whole.min(MOST_INTERVALS) as u8
}

fn form_word(job: &Job) -> &'static str
    ensures { result.now ≡ form_name job.now }
{
    if job.run_in_s == 60 && job.interval_s == 600 {
        "standard"
    } else {
        "informative"
    }
}

fn lamp_word(lamp: Lamp) -> &'static str
    ensures { result.now ≡ lamp_name lamp }
{
    match lamp {
        Lamp::L230 => "230/50",
        Lamp::L120 => "120/60",
    }
}

// How the report judges.
fn title_text(alloc: Global, job: &Job, rate: Rate) -> Result<String, OutOfMemory>
    ensures { IfOk result (λ text. string_bytes text ≡ title_lines job.now rate) }
{
    let form = form_word(job);
    let lamp = lamp_word(job.lamp);
    let hertz = rate.hertz();
    format!(in alloc; "report\nprofile flicker-1\nform {form}\nlamp {lamp}\nrate {hertz}\n")
}

// What the report is of.
fn recording_text(alloc: Global, job: &Job, rate: Rate, records: u32) -> Result<String, OutOfMemory>
    requires { AreInSets job.now }
    ensures { IfOk result (λ text. string_bytes text ≡ recording_lines job.now rate records) }
{
    let nominal = job.supply.nominal_mv;
    let uncertainty = job.supply.uncertainty_uv;
    let intervals = interval_count(job, rate, records);
    format!(in alloc;
        "nominal-mv {nominal}\nuncertainty-uv {uncertainty}\nrecords {records}\nintervals {intervals}\n"
    )
}

// The line of a quantity in billionths.
fn value_text(alloc: Global, name: &str, v: Interval, limit: i128) -> Result<String, OutOfMemory>
    ensures { IfOk result (λ text. string_bytes text ≡ value_line name.now v limit) }
{
    let ends = Ends(v.lo.unsigned_abs(), v.hi.unsigned_abs());
    let most = Billionths(limit.unsigned_abs());
    let verdict = judge(v, limit);
    format!(in alloc; "{name} {ends} limit {most} {verdict}\n")
}

// The line of a count of half-periods.
fn count_text(alloc: Global, name: &str, v: Interval, limit: i128) -> Result<String, OutOfMemory>
    ensures { IfOk result (λ text. string_bytes text ≡ count_line name.now v limit) }
{
    let low = v.lo.unsigned_abs();
    let high = v.hi.unsigned_abs();
    let most = limit.unsigned_abs();
    let verdict = judge(v, limit);
    format!(in alloc; "{name} {low} to {high} limit {most} {verdict}\n")
}

// The line of a short-term severity.
fn severity_text(alloc: Global, number: usize, v: Interval) -> Result<String, OutOfMemory>
    ensures { IfOk result (λ text. string_bytes text ≡ severity_line number v) }
{
    let name = format!(in alloc; "pst {number}")?;
    value_text(alloc, name.as_str(), v, PST)
}

// The lines of the short-term severities.
fn severities_text(alloc: Global, severities: &[Interval]) -> Result<String, OutOfMemory>
    ensures { IfOk result (λ text. string_bytes text ≡ severity_lines 1 severities.now) }
{
    let mut text = String::new(alloc);
    for (i, severity) in severities.iter().enumerate() {
        let line = severity_text(alloc, i + 1, *severity)?;
        text.push_str(line.as_str())?;
    }
    Ok(text)
}

// The line of the long-term severity.
fn long_term_text(alloc: Global, plt: Option<Interval>) -> Result<String, OutOfMemory>
    ensures { IfOk result (λ text. string_bytes text ≡ long_term_line plt) }
{
    match plt {
        Some(v) => value_text(alloc, "plt", v, PLT),
        None => format!(in alloc; "plt none\n"),
    }
}

// The number of the channel, and how many half-periods and Doubtful windows it has.
fn channel_head_text(
    alloc: Global,
    number: u16,
    channel: &PhaseResult,
) -> Result<String, OutOfMemory>
    ensures { IfOk result (λ text. string_bytes text ≡ channel_head number channel.now) }
{
    let halves = channel.halves;
    let doubtful = channel.changes.doubtful;
    format!(in alloc; "channel {number}\nhalf-periods {halves}\ndoubtful {doubtful}\n")
}

// The lines of dc, dmax and Tmax.
fn changes_text(alloc: Global, job: &Job, changes: &ChangeSummary) -> Result<String, OutOfMemory>
    ensures { IfOk result (λ text. string_bytes text ≡ changes_lines job.now changes.now) }
{
    let dc = value_text(alloc, "dc", changes.dc, DC)?;
    let dmax = value_text(alloc, "dmax", changes.dmax, dmax_limit(job))?;
    let t = count_text(alloc, "t", changes.t, tmax_limit(job.lamp))?;
    format!(in alloc; "{dc}{dmax}{t}")
}

// The lines of one channel.
fn channel_text(
    alloc: Global,
    job: &Job,
    number: u16,
    channel: &PhaseResult,
) -> Result<String, OutOfMemory>
    ensures { IfOk result (λ text. string_bytes text ≡ channel_lines job.now number channel.now) }
{
    let head = channel_head_text(alloc, number, channel)?;
    let changes = changes_text(alloc, job, &channel.changes)?;
    let severities = severities_text(alloc, severities_of(channel))?;
    let long_term = long_term_text(alloc, channel.plt)?;
    format!(in alloc; "{head}{changes}{severities}{long_term}")
}

// The lines of all channels, in the job's order.
fn channels_text(alloc: Global, job: &Job, results: &[PhaseResult]) -> Result<String, OutOfMemory>
    requires count { length results.now ≡ length job.now.channels }
    ensures { IfOk result (λ text. string_bytes text ≡ all_channel_lines job.now job.now.channels results.now) }
{
    let mut text = String::new(alloc);
    let channels = job.channels.as_slice();
    for (i, channel) in results.iter().enumerate() {
        let lines = channel_text(alloc, job, channels[i], channel)?;
        text.push_str(lines.as_str())?;
    }
    Ok(text)
}

/// The text of the report of a job on a recording of so many records: what it is of, the judged lines of each channel
/// in the job's order, and the verdict of [`overall`]. It needs one result for each channel of the job, each with as
/// many intervals as [`interval_count`] says. `OutOfMemory` says nothing of them.
pub fn report_text(
    alloc: Global,
    job: &Job,
    rate: Rate,
    endsamp: u32,
    results: &[PhaseResult],
) -> Result<Vec<u8>, OutOfMemory>
    requires job { AreInSets job.now }
    requires count { length results.now ≡ length job.now.channels }
    requires intervals { All (λ r. r.count ≡ count_of job.now rate endsamp) results.now }
    ensures text { IfOk result (λ bytes. bytes.items ≡ text_of job.now rate endsamp results.now) }
    ensures utf8 { IfOk result (λ bytes. IsUtf8 bytes.items) }
{
    let title = title_text(alloc, job, rate)?;
    let recording = recording_text(alloc, job, rate, endsamp)?;
    let channels = channels_text(alloc, job, results)?;
    let verdict = overall(job, results);
    let text = format!(in alloc; "{title}{recording}{channels}verdict {verdict}\n")?;
    Ok(text.into_bytes())
}
