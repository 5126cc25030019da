//! The command `check`.

ghost use Rattle.std.specs.Prelude.{◌≡◌, ◌≢◌, ℕ, List, ◌++◌, IsSome, IfSome, IfOk, string_bytes};
ghost use Rattle.flk_io.specs.Told.{OnlyReads, ReadsUnder};
ghost use Rattle.flk_cfg.specs.Valid.{IsValid};
ghost use Rattle.flk_dat.specs.Records.{DataRecord};
ghost use Rattle.flk_top.specs.CheckDue.{IsDueForSummary};
ghost use Rattle.flk_top.specs.Checking.{IsFirstNumber};
ghost use Rattle.flk_top.specs.Command.{IsCheck, inputs_of};
ghost use Rattle.flk_top.specs.Replies.{outcome_of, IsExplained, IsHonest, ReadsOnly, AwaitsTurns};
ghost use Rattle.flk_top.specs.Text.{check_text};
ghost use Rattle.flk_top.specs.Told.{MayHold};
ghost use Rattle.flk_top.specs.declared.command.Command.TheVariants as commands;
ghost use Rattle.flk_top.specs.declared.reply.Status.TheVariants as statuses;

use crate::blocks::{Blocks, Progress};
use crate::command::{CONFIGURATION_WORD, DATA_WORD};
use crate::configuration::read_configuration;
use crate::faults::{data_reply, read_reply};
use crate::reply::{Reply, Status};
use crate::text::check_lines;
use flk_cfg::Config;
use flk_dat::Block;
use flk_io::{OutOfMemory, Shelf, Words};
use flk_num::Stop;
use std::alloc::Global;

// The sample number of the first record, after one block more.
fn first_number(first: Option<u32>, block: &Block) -> Option<u32>
    ensures { (rs : List DataRecord) → IsFirstNumber first rs → IsFirstNumber result (rs ++ block.now.records) }
{
    if first.is_none() && block.rows() > 0 {
        return Some(block.number(0));
    }
    first
}

// The answer of data that are accepted, from the sample number of their first record.
fn summary_done(alloc: Global, config: &Config, first: Option<u32>) -> Result<Reply, OutOfMemory>
    requires { IsSome first }
    ensures { IfOk result (λ r. (r.status ≡ statuses.Done)
        × IfSome first (λ n. string_bytes r.text ≡ check_text config.now n)) }
{
    let Some(number) = first else {
        unreachable!();
    };
    let text = check_lines(alloc, config, number)?;
    Ok(Reply {
        status: Status::Done,
        text,
    })
}

// Reads the data, and composes the answer.
fn summary_reply<F: Shelf>(
    alloc: Global,
    shelf: &mut F,
    name: &str,
    config: &Config,
) -> Result<Reply, OutOfMemory>
    requires { IsValid config.now }
    ensures due { IfOk result (λ r. r.status ≢ statuses.ReadFailed → (bytes : List ℕ)
        × MayHold ((F.told shelf.old).left name.now) bytes × IsDueForSummary config.now bytes (outcome_of r)) }
    ensures honest { IfOk result (IsHonest (F.told shelf.old) (F.told shelf.new)) }
    ensures only_reads { OnlyReads (F.told shelf.old) (F.told shelf.new) }
    ensures others { ReadsUnder name.now (F.told shelf.old) (F.told shelf.new) }
{
    let mut blocks = Blocks::new(alloc, config, &[])?;
    let mut first = None;
    loop {
        let Ok(progress) = blocks.next(shelf, name) else {
            return read_reply(alloc);
        };
        first = first_number(first, blocks.block());
        match progress {
            Progress::Full => {}
            Progress::Ended => return summary_done(alloc, config, first),
            Progress::Fault(fault) => return data_reply(alloc, fault),
        }
    }
}

/// Reads the two files that the words name, and composes the answer.
pub fn check_reply<F: Shelf>(
    alloc: Global,
    words: &Words,
    shelf: &mut F,
) -> Result<Reply, OutOfMemory>
    requires { IsCheck words.now }
    ensures due { IfOk result (IsExplained commands.Check (inputs_of commands.Check words.now) (F.told shelf.old)) }
    ensures honest { IfOk result (IsHonest (F.told shelf.old) (F.told shelf.new)) }
    ensures only_reads { OnlyReads (F.told shelf.old) (F.told shelf.new) }
    ensures names { ReadsOnly (inputs_of commands.Check words.now) (F.told shelf.old) (F.told shelf.new) }
    ensures turn { AwaitsTurns commands.Check (inputs_of commands.Check words.now)
        (F.told shelf.old) (F.told shelf.new) }
{
    match read_configuration(alloc, shelf, words.word(CONFIGURATION_WORD)) {
        Ok(config) => summary_reply(alloc, shelf, words.word(DATA_WORD), &config),
        Err(Stop::Fault(reply)) => Ok(reply),
        Err(Stop::OutOfMemory) => Err(OutOfMemory),
    }
}
