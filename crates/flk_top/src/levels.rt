//! The command `levels`.

ghost use Rattle.std.specs.Prelude.{◌≡◌, ◌≢◌, ℕ, List, IfOk, string_bytes};
ghost use Rattle.flk_io.specs.Told.{OnlyReads, ReadsUnder};
ghost use Rattle.flk_cfg.specs.Valid.{IsValid};
ghost use Rattle.flk_cfg.specs.declared.config.Analog.{Analog};
ghost use Rattle.flk_top.specs.Command.{Asks, inputs_of};
ghost use Rattle.flk_top.specs.LevelsDue.{IsDueForRecording};
ghost use Rattle.flk_top.specs.Measuring.{IsMatched};
ghost use Rattle.flk_top.specs.Replies.{outcome_of, IsExplained, IsHonest, ReadsOnly, AwaitsTurns};
ghost use Rattle.flk_top.specs.Text.{levels_text};
ghost use Rattle.flk_top.specs.Told.{MayHold};
ghost use Rattle.flk_top.specs.declared.command.Command.TheVariants as commands;
ghost use Rattle.flk_top.specs.declared.reply.Status.TheVariants as statuses;

use crate::blocks::{Blocks, Progress};
use crate::command::{CONFIGURATION_WORD, DATA_WORD, LevelsCommand};
use crate::configuration::read_configuration;
use crate::faults::{data_reply, match_reply, range_reply, read_reply};
use crate::matching::{Matched, match_levels};
use crate::measure::{Levels, Measure};
use crate::reply::{Reply, Status};
use crate::text::levels_lines;
use flk_cfg::Config;
use flk_io::{OutOfMemory, Shelf, Words};
use flk_num::Stop;
use std::alloc::Global;

// The answer of these levels.
fn levels_done(alloc: Global, channel: u32, levels: Levels) -> Result<Reply, OutOfMemory>
    ensures { IfOk result (λ r. (r.status ≡ statuses.Done) × (string_bytes r.text ≡ levels_text channel levels)) }
{
    let text = levels_lines(alloc, channel, levels)?;
    Ok(Reply {
        status: Status::Done,
        text,
    })
}

// Reads the data of a channel that can be measured, and composes the answer.
fn measured_reply<F: Shelf>(
    alloc: Global,
    shelf: &mut F,
    name: &str,
    config: &Config,
    command: LevelsCommand,
    matched: Matched,
) -> Result<Reply, OutOfMemory>
    requires valid { IsValid config.now }
    requires matched { (a : Analog) × IsMatched config.now command a matched }
    ensures due { IfOk result (λ r. r.status ≢ statuses.ReadFailed → (bytes : List ℕ)
        × MayHold ((F.told shelf.old).left name.now) bytes × ((a : Analog) → IsMatched config.now command a matched
        → IsDueForRecording command.channel command.supply.nominal_mv command.supply.uncertainty_uv
        config.now a matched.lamp bytes (outcome_of r))) }
    ensures honest { IfOk result (IsHonest (F.told shelf.old) (F.told shelf.new)) }
    ensures only_reads { OnlyReads (F.told shelf.old) (F.told shelf.new) }
    ensures others { ReadsUnder name.now (F.told shelf.old) (F.told shelf.new) }
{
    let channel = command.channel;
    let mut blocks = Blocks::new(alloc, config, &[channel as u16])?;
    let mut measure = Measure::new(matched, channel as usize - 1);
    loop {
        let Ok(progress) = blocks.next(shelf, name) else {
            return read_reply(alloc);
        };
        if let Err(record) = measure.take(blocks.block()) {
            return range_reply(alloc, record, channel);
        }
        match progress {
            Progress::Full => {}
            Progress::Ended => return levels_done(alloc, channel, measure.levels()),
            Progress::Fault(fault) => return data_reply(alloc, fault),
        }
    }
}

/// Reads the two files that the words name, and composes the answer.
pub fn levels_reply<F: Shelf>(
    alloc: Global,
    words: &Words,
    command: LevelsCommand,
    shelf: &mut F,
) -> Result<Reply, OutOfMemory>
    requires { Asks words.now (commands.Levels command) }
    ensures due { IfOk result
        (IsExplained (commands.Levels command) (inputs_of (commands.Levels command) words.now) (F.told shelf.old)) }
    ensures honest { IfOk result (IsHonest (F.told shelf.old) (F.told shelf.new)) }
    ensures only_reads { OnlyReads (F.told shelf.old) (F.told shelf.new) }
    ensures names { ReadsOnly (inputs_of (commands.Levels command) words.now) (F.told shelf.old) (F.told shelf.new) }
    ensures turn { AwaitsTurns (commands.Levels command) (inputs_of (commands.Levels command) words.now)
        (F.told shelf.old) (F.told shelf.new) }
{
    let config = match read_configuration(alloc, shelf, words.word(CONFIGURATION_WORD)) {
        Ok(config) => config,
        Err(Stop::Fault(reply)) => return Ok(reply),
        Err(Stop::OutOfMemory) => return Err(OutOfMemory),
    };
    match match_levels(command.channel as u16, &command.supply, &config) {
        Ok(matched) => measured_reply(
            alloc,
            shelf,
            words.word(DATA_WORD),
            &config,
            command,
            matched,
        ),
        Err(fault) => match_reply(alloc, fault),
    }
}
