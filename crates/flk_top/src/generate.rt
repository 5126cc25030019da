//! The command `gen`: the two files of a generated recording, and a summary.

ghost use Rattle.std.specs.Prelude.{◌≡◌, ◌≢◌, ◌⊎◌, ℕ, ◌-◌, ◌<◌, List, IfOk, IfErr, OnOk, OnErr, IsErrOf, string_bytes};
ghost use Rattle.std.specs.Io.KnownBytes.{Appends};
ghost use Rattle.flk_io.specs.Causes.{Rose, AddsFront};
ghost use Rattle.flk_io.specs.Told.{OnlyAppends, AppendsUnder};
ghost use Rattle.flk_gen.specs.Progress.{HasGiven};
ghost use Rattle.flk_gen.specs.Recording.{records_in, IsGenerated, generated_data};
ghost use Rattle.flk_gen.specs.Workload.{values};
ghost use Rattle.flk_top.specs.Command.{Asks, gen_configuration_name, gen_data_name, outputs_of};
ghost use Rattle.flk_top.specs.GenDue.{gen_text, gen_outcome};
ghost use Rattle.flk_top.specs.Replies.{Tells, HasAppendCause, AppendsOnly};
ghost use Rattle.flk_top.specs.Told.{AreAppended, AreBegun};
ghost use Rattle.flk_top.specs.declared.command.Command.TheVariants as commands;

use crate::command::{GEN_CONFIGURATION_WORD, GEN_DATA_WORD, GenCommand};
use crate::reply::{CutOff, Reply, Status};
use flk_cfg::{Config, write_cfg};
use flk_gen::{Recording, generated_configuration};
use flk_io::{OutOfMemory, Shelf, Words, append_all};
use std::alloc::Global;

// The three lines of the summary.
fn gen_lines(alloc: Global, records: u32, last: [i32; 3]) -> Result<String, OutOfMemory>
    ensures { (seed : ℕ) → last ≡ values seed (records - 1)
        → IfOk result (λ text. string_bytes text ≡ gen_text seed records) }
{
    let [first, second, third] = last;
    format!(in alloc; "gen\nrecords {records}\nlast {first} {second} {third}\n")
}

// Appends all records, piece by piece.
fn append_records<F: Shelf>(
    alloc: Global,
    shelf: &mut F,
    name: &str,
    configuration: &Config,
    recording: &mut Recording,
) -> Result<(), CutOff>
    requires { IsGenerated configuration.now }
    ensures whole { (seed seconds : ℕ) → HasGiven recording.old seed seconds 0
        → OnOk result (HasGiven recording.new seed seconds (records_in seconds)
        × Appends ((F.told shelf.old).added name.now) ((F.told shelf.new).added name.now)
        (generated_data seed seconds)) }
    ensures front { (seed seconds : ℕ) → HasGiven recording.old seed seconds 0
        → OnErr result
        (AddsFront ((F.told shelf.old).added name.now) ((F.told shelf.new).added name.now)
        (generated_data seed seconds)) }
    ensures cause { HasAppendCause (F.told shelf.old) (F.told shelf.new) result }
    ensures others { AppendsUnder name.now (F.told shelf.old) (F.told shelf.new) }
    ensures only_appends { OnlyAppends (F.told shelf.old) (F.told shelf.new) }
{
    let mut piece = Vec::with_capacity(alloc, Recording::PIECE)?;
    while recording.next_piece(configuration, &mut piece)? {
        append_all(shelf, name, &piece)?;
    }
    Ok(())
}

/// Appends the configuration whole and then the records, and composes the summary.
pub fn gen_reply<F: Shelf>(
    alloc: Global,
    words: &Words,
    command: GenCommand,
    shelf: &mut F,
) -> Result<Reply, CutOff>
    requires { Asks words.now (commands.Gen command) }
    ensures whole { IfOk result (λ r.
        Tells r (gen_outcome command (gen_configuration_name words.now) (gen_data_name words.now))
        × AreAppended (F.told shelf.old).added (F.told shelf.new).added
        (gen_outcome command (gen_configuration_name words.now) (gen_data_name words.now)).pieces) }
    ensures front { OnErr result (AreBegun (F.told shelf.old).added (F.told shelf.new).added
        (gen_outcome command (gen_configuration_name words.now) (gen_data_name words.now)).pieces) }
    ensures cause { HasAppendCause (F.told shelf.old) (F.told shelf.new) result }
    ensures names { AppendsOnly (outputs_of (commands.Gen command) words.now) (F.told shelf.old) (F.told shelf.new) }
    ensures only_appends { OnlyAppends (F.told shelf.old) (F.told shelf.new) }
{
    let configuration = generated_configuration(alloc, command.seconds)?;
    let mut recording = Recording::new(alloc, &configuration, command.seed, command.seconds)?;
    let text = write_cfg(alloc, &configuration)?;
    append_all(shelf, words.word(GEN_CONFIGURATION_WORD), &text)?;
    append_records(
        alloc,
        shelf,
        words.word(GEN_DATA_WORD),
        &configuration,
        &mut recording,
    )?;
    let text = gen_lines(alloc, configuration.endsamp, recording.last())?;
    Ok(Reply {
        status: Status::Done,
        text,
    })
}
