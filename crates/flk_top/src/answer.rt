//! From the words of a command to its answer.

ghost use Rattle.std.specs.Prelude.{◌≡◌, ◌≢◌, ℕ, ◌<◌, List, [], IfOk, IfErr, OnOk, true};
ghost use Rattle.flk_io.specs.Told.{OnlyReads};
ghost use Rattle.flk_top.specs.Command.{Asks, IsInput, outputs_of};
ghost use Rattle.flk_top.specs.Replies.{outcome_of, IsHonest, IsDueSomewhere, IsTold, IsBegun, IsCutOff, CountOn};
ghost use Rattle.flk_top.specs.Run.{IsConfined, ReadsInTurn};
ghost use Rattle.flk_top.specs.declared.reply.Status.TheVariants as statuses;

use crate::check::check_reply;
use crate::command::{Command, command_of};
use crate::faults::usage_reply;
use crate::generate::gen_reply;
use crate::levels::levels_reply;
use crate::reply::{CutOff, Reply};
use crate::report::report_reply;
use crate::tables::tables_reply;
use flk_io::{OutOfMemory, Shelf, Words};
use flk_phase::Gate;
use std::alloc::Global;
use std::thread::Threads;

// Reads what the words name, and composes the answer of a command that appends nothing.
fn told_reply<R: Threads + Sync, F: Shelf, G: Gate + Sync>(
    rt: &R,
    alloc: Global,
    words: &Words,
    asked: Command,
    shelf: &mut F,
    gate: &G,
) -> Result<Reply, OutOfMemory>
    requires gate { (i : ℕ) → i < 6 → G.admits gate.now i ≡ true }
    requires asks { Asks words.now asked }
    requires silent { outputs_of asked words.now ≡ [] }
    ensures due { IfOk result (λ r. r.status ≢ statuses.ReadFailed
        → IsDueSomewhere words.now (F.told shelf.old) (outcome_of r)) }
    ensures failed { IfOk result (λ r. r.status ≡ statuses.ReadFailed → (name : List ℕ) × IsInput words.now name) }
    ensures honest { IfOk result (IsHonest (F.told shelf.old) (F.told shelf.new)) }
    ensures only_reads { OnlyReads (F.told shelf.old) (F.told shelf.new) }
    ensures names { IsConfined words.now (F.told shelf.old) (F.told shelf.new) }
    ensures turn { ReadsInTurn words.now (F.told shelf.old) (F.told shelf.new) }
{
    match asked {
        Command::Levels(command) => levels_reply(alloc, words, command, shelf),
        Command::Check => check_reply(alloc, words, shelf),
        Command::Tables(lamp, rate) => tables_reply(alloc, lamp, rate),
        Command::Report(command) => report_reply(rt, alloc, words, command, shelf, gate),
        Command::Gen(_) => unreachable!(),
    }
}

/// Does what the words ask for, and composes the answer.
pub fn answer<R: Threads + Sync, F: Shelf, G: Gate + Sync>(
    rt: &R,
    alloc: Global,
    words: &Words,
    shelf: &mut F,
    gate: &G,
) -> Result<Reply, CutOff>
    requires gate { (i : ℕ) → i < 6 → G.admits gate.now i ≡ true }
    ensures whole { IfOk result (λ r. r.status ≢ statuses.ReadFailed
        → IsTold words.now (F.told shelf.old) (F.told shelf.new) r) }
    ensures failed { IfOk result (λ r. r.status ≡ statuses.ReadFailed
        → ((name : List ℕ) × IsInput words.now name) × IsBegun words.now (F.told shelf.old) (F.told shelf.new)) }
    ensures honest { IfOk result (IsHonest (F.told shelf.old) (F.told shelf.new)) }
    ensures cut { IfErr result (IsCutOff words.now (F.told shelf.old) (F.told shelf.new)) }
    ensures quiet { OnOk result ((F.told shelf.new).append_faults ≡ (F.told shelf.old).append_faults) }
    ensures counts { CountOn (F.told shelf.old) (F.told shelf.new) }
    ensures names { IsConfined words.now (F.told shelf.old) (F.told shelf.new) }
    ensures turn { ReadsInTurn words.now (F.told shelf.old) (F.told shelf.new) }
{
    let Some(asked) = command_of(words) else {
        return Ok(usage_reply(alloc)?);
    };
    match asked {
        Command::Gen(command) => gen_reply(alloc, words, command, shelf),
        _ => Ok(told_reply(rt, alloc, words, asked, shelf, gate)?),
    }
}
