//! The program's top call: from the words of the command line to a status and a text.
//!
//! The words are those of a command (`command`), which `answer` calls. Each command is one module, and what it answers
//! is one relation: `report` (`specs/ReportDue`), `levels` (`specs/LevelsDue`), `check` (`specs/CheckDue`), `tables`
//! (`specs/Tables`) and `gen` (`specs/GenDue`); `specs/Answer` is their table. `report` reads a job first (`job`). A
//! command reads its configuration (`configuration`) and then its data, in pieces and blocks of records (`blocks`).
//! `report` has one phase for each channel of the job, and all take each block, in threads (`phases`), while the next
//! block is read. `levels` finds how its channel is measured (`matching`), turns each sample into the interval of its
//! voltages by the channel's scale, and keeps the least and the greatest value (`measure`) of the half-periods into
//! which `flk_half` cuts them. `tables` reads nothing: it makes the certificates of a lamp's sections, and bounds the
//! sections in a row (`certified`). `gen` reads nothing either: it appends the files of a generated recording
//! (`generate`). The answer is composed whole (`text`, `faults`, `reply`) before `run` writes it.
//!
//! What is promised of a run, whatever its command is, stands in `specs/Run`: what is written and appended is due for
//! some files that agree with all that is told of them. That some answer is due, and one alone, that the promises on
//! levels and on a report speak of some run, and that what is generated is accepted, are laws (`laws`).
#![tactic(auto)]

ghost use Rattle.std.specs.Prelude.{◌≡◌, ℕ, ◌<◌, ◌≤◌, List, true};
ghost use Rattle.std.specs.Io.KnownBytes.{Appends};
ghost use Rattle.flk_top.specs.Headline.{MeasuredRecording, AreAccepted, TellsLevels, ReportedRecording, AreAcceptedForReport, TellsReport};
ghost use Rattle.flk_top.specs.Run.{DoneIsDue, CutIsDue, IsCounted, IsConfined, ReadsInTurn};
ghost use Rattle.flk_top.specs.Told.{TellsInputs};

mod answer;
mod blocks;
mod certified;
mod check;
mod command;
mod configuration;
mod faults;
mod generate;
mod job;
mod laws;
mod levels;
mod matching;
mod measure;
mod phases;
mod reply;
mod report;
mod tables;
mod text;

use crate::answer::answer;
use flk_io::{Shelf, Sink, Words, write_all};
pub use flk_phase::Gate;
pub use laws::{
    an_answer_is_due, answer_is_one, generated_files_are_accepted, inputs_decide,
    promise_is_not_empty, report_promise_is_not_empty, words_ask_one_command,
    workers_change_no_answer,
};
pub use measure::{Extremes, Levels};
use std::alloc::Global;
use std::thread::Threads;

/// The status where a write or an append failed.
pub const WRITE_FAILED: u8 = 5;

/// The status where no memory was found.
pub const OUT_OF_MEMORY: u8 = 6;

/// Runs the command that `words` name (those after the program's name), and answers the status.
///
/// It reads the command's files from `shelf`, or appends them there, composes the whole text, and then writes it to
/// `sink`. The status is 0 where the text is that of the command, or a report whose verdict is pass; 1 or 3 where it is
/// a report whose verdict is fail or undecided; 2 where it is one fault line, 4 where a read failed (the line
/// `fault read`), 5 where a write failed, or an append, which writes nothing, and 6 where no memory was found, which
/// writes nothing either. A report works its channels in threads of `rt`, and calls `gate` as it begins to work a
/// channel's samples of a block, with the channel's place in the job, from 0. No other command uses the two.
pub fn run<R: Threads + Sync, F: Shelf, K: Sink, G: Gate + Sync>(
    rt: &R,
    alloc: Global,
    words: &Words,
    shelf: &mut F,
    sink: &mut K,
    gate: &G,
) -> u8
    requires gate { (i : ℕ) → i < 6 → G.admits gate.now i ≡ true }
    ensures known { result ≤ 6 }

    // Below 4: what is due for some files that agree with all that is told is done whole.
    ensures done { DoneIsDue words.now result
        (F.told shelf.old) (F.told shelf.new) (K.told sink.old) (K.told sink.new) }

    // From 4 on: it is cut off, by a failed read, append or write, or for want of memory.
    ensures cut { CutIsDue words.now result
        (F.told shelf.old) (F.told shelf.new) (K.told sink.old) (K.told sink.new) }

    // Failed calls are told, and nothing else raises a count.
    ensures counts { IsCounted result (F.told shelf.old) (F.told shelf.new) (K.told sink.old) (K.told sink.new) }

    // Only the files that the words name are touched, and where they tell their bytes, each in its turn.
    ensures names { IsConfined words.now (F.told shelf.old) (F.told shelf.new) }
    ensures turn { ReadsInTurn words.now (F.told shelf.old) (F.told shelf.new) }

    // Files that are accepted: their levels are told, with intervals that hold every exact run and keep the stated
    // width.
    ensures levels { result < 4 → (files : List ℕ → List ℕ) → TellsInputs words.now (F.told shelf.old) files
        → (m : MeasuredRecording) → AreAccepted words.now files m
        → (text : List ℕ) × TellsLevels m result text
        × Appends (K.told sink.old).written (K.told sink.new).written text }

    // Files that are accepted for a report: it is told, with intervals that hold every exact run of all channels, and
    // verdicts on every one.
    ensures report { result < 4 → (files : List ℕ → List ℕ) → TellsInputs words.now (F.told shelf.old) files
        → (m : ReportedRecording) → AreAcceptedForReport words.now files m
        → (text : List ℕ) × TellsReport m result text
        × Appends (K.told sink.old).written (K.told sink.new).written text }
{
    match answer(rt, alloc, words, shelf, gate) {
        Err(cut_off) => cut_off.number(),
        Ok(reply) => match write_all(sink, reply.text.as_bytes()) {
            Ok(()) => reply.status.number(),
            Err(_) => WRITE_FAILED,
        },
    }
}
