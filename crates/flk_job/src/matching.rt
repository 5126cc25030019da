//! Whether a configuration has what a job asks for.

ghost use Rattle.std.specs.Prelude.{◌≡◌, IfErr, OnOk};
ghost use Rattle.flk_num.specs.Rate.{most_records};
ghost use Rattle.flk_job.specs.Job.{AreInSets};
ghost use Rattle.flk_job.specs.Matching.{AllCanBeMeasured, IsFirstChannelFault, IsMatch, IsMatchFault, records_needed};

use crate::job::Job;
use flk_cfg::Config;
use flk_num::Rate;
use flk_scale::{MatchFault, is_frequency_of, match_channel};

// Tests the job's channels in their order.
fn match_channels(job: &Job, config: &Config) -> Result<(), MatchFault>
    requires { AreInSets job.now }
    ensures matched { OnOk result (AllCanBeMeasured config.now job.now.channels) }
    ensures fault { IfErr result (IsFirstChannelFault config.now job.now.channels) }
{
    for &channel in job.channels.as_slice() {
        match_channel(channel, &job.supply, config)?;
    }
    Ok(())
}

// The records that the run-in and one interval take.
#[tactic(auto, using(flk_num::proofs::RateLemmas::samples_at_most))]
fn needed_records(job: &Job, rate: Rate) -> u32
    ensures { result ≡ records_needed job.now rate }
{
    job.run_in_samples(rate) + job.interval_samples(rate)
}

// The most records.
fn limit_of(rate: Rate) -> u32
    ensures { result ≡ most_records rate }
{
    match rate {
        Rate::R2400 => 20_000_000,
        Rate::R4800 => 40_000_000,
    }
}

/// Tests whether a configuration has what a job asks for, a job whose values are in their sets, as those of
/// [`crate::read_job`] are. Takes no memory.
///
/// The channels come first, in the job's order: `Channel`, `Unit` and `Scale` for each. `Lamp`, `TooShort` (fewer
/// records than the run-in and one interval have at the sampling rate) and `TooLong` (above 20,000,000 records at 2400
/// samples a second, and above 40,000,000 at 4800) follow.
pub fn match_job(job: &Job, c: &Config) -> Result<(), MatchFault>
    requires { AreInSets job.now }
    ensures matched { OnOk result (IsMatch job.now c.now) }
    ensures fault { IfErr result (IsMatchFault job.now c.now) }
{
    match_channels(job, c)?;
    if !is_frequency_of(job.lamp, c.lf) {
        return Err(MatchFault::Lamp {
            hertz: job.lamp.hertz(),
            lf: c.lf,
        });
    }
    let needed = needed_records(job, c.rate);
    let there = c.endsamp;
    if there < needed {
        return Err(MatchFault::TooShort { needed, there });
    }
    let limit = limit_of(c.rate);
    if there > limit {
        return Err(MatchFault::TooLong { limit, there });
    }
    Ok(())
}
