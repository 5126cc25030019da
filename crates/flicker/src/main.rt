//! The program: the words of the command line, files and standard output, handed to the top call.
#![tactic(auto)]

ghost use Rattle.std.specs.Prelude.{◌≡◌, ℕ, ◌<◌, List, true};
ghost use Rattle.std.specs.Process.{exit_status};
ghost use Rattle.std.specs.Io.KnownBytes.{Appends};
ghost use Rattle.flk_top.specs.Headline.{MeasuredRecording, AreAccepted, TellsLevels, ReportedRecording, AreAcceptedForReport, TellsReport};
ghost use Rattle.flk_top.specs.Run.{IsRun};
ghost use Rattle.flk_top.specs.Told.{TellsInputs};

use flk_io::{FileShelf, Shelf, Sink, StdSink, Words};
use flk_top::{Gate, OUT_OF_MEMORY, run};
use std::alloc::Global;
use std::fs::File;
use std::process::ExitCode;
use std::thread::Threads;
use std::{env, fs, io};

/// A gate at which nothing is done.
struct Open;

impl Gate for Open {
    ghost use Rattle.std.specs.Prelude.{true};

    ghost admits = { λ gate phase. true };

    fn enter(&self, phase: usize) {
        let _ = phase;
    }
}

// Opens the null device three times, to be read. A file that is opened gets the least number that is free, so these
// take the places of closed standard streams, and no file of a command can get the number of standard output. What is
// written to them fails. Where a stream isn't closed, they do nothing, and whether one can be opened matters not.
fn take_closed_places(rt: &HostRuntime) -> [io::Result<File>; 3] {
    let null = "/dev/null";
    [fs::open(rt, null), fs::open(rt, null), fs::open(rt, null)]
}

// The words of the command line after the program's name. The error is InvalidData where one isn't UTF-8 text.
fn words_of(rt: &HostRuntime, alloc: Global) -> io::Result<Words> {
    let mut words = Words::new(alloc);
    for word in env::args(rt)?.skip(1) {
        words.push(word.as_str())?;
    }
    Ok(words)
}

// Runs the command that the words name, and ends with the status that the top call answers. All that is promised of a
// run holds of the number with which the program ends.
fn exit_code_of<R: Threads + Sync, F: Shelf, K: Sink, G: Gate + Sync>(
    rt: &R,
    alloc: Global,
    words: &Words,
    shelf: &mut F,
    sink: &mut K,
    gate: &G,
) -> ExitCode
    requires { (i : ℕ) → i < 6 → G.admits gate.now i ≡ true }
    ensures run { IsRun words.now (exit_status result)
        (F.told shelf.old) (F.told shelf.new) (K.told sink.old) (K.told sink.new) }
    ensures levels { exit_status result < 4 → (files : List ℕ → List ℕ) → TellsInputs words.now (F.told shelf.old) files
        → (m : MeasuredRecording) → AreAccepted words.now files m
        → (text : List ℕ) × TellsLevels m (exit_status result) text
        × Appends (K.told sink.old).written (K.told sink.new).written text }
    ensures report { exit_status result < 4 → (files : List ℕ → List ℕ) → TellsInputs words.now (F.told shelf.old) files
        → (m : ReportedRecording) → AreAcceptedForReport words.now files m
        → (text : List ℕ) × TellsReport m (exit_status result) text
        × Appends (K.told sink.old).written (K.told sink.new).written text }
{
    let status = run(rt, alloc, words, shelf, sink, gate);
    ExitCode::from(status)
}

fn main(rt: HostRuntime) -> ExitCode {
    let _places = take_closed_places(&rt);
    let alloc = rt.alloc();
    let words = match words_of(&rt, alloc) {
        Ok(words) => words,
        // What isn't text is no word of any command.
        Err(error) if error.kind() == io::ErrorKind::InvalidData => Words::new(alloc),
        // As where no memory is found in the top call.
        Err(_) => return ExitCode::from(OUT_OF_MEMORY),
    };
    let mut shelf = FileShelf::new(&rt, alloc);
    let mut sink = StdSink::new(&rt);
    exit_code_of(&rt, alloc, &words, &mut shelf, &mut sink, &Open)
}
