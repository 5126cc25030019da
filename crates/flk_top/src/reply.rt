//! A whole answer.

ghost use Rattle.std.specs.Prelude.{◌≡◌, IfOk, string_bytes};
ghost use Rattle.flk_top.specs.Status.{status_number, cut_off_number};

use crate::{OUT_OF_MEMORY, WRITE_FAILED};
use flk_io::{Failed, OutOfMemory};
use std::alloc::Global;

/// How a command ends whose whole text is composed.
#[derive(Clone, Copy, Debug, PartialEq, Eq)]
pub enum Status {
    /// The text is that of the command; of a report whose verdict is pass, where the command is one.
    Done,
    /// The text is a report whose verdict is fail.
    Failed,
    /// The text is a report whose verdict is undecided.
    Undecided,
    /// The words, or a file, are refused: the text is one fault line.
    Refused,
    /// A read failed: the text is the line `fault read`.
    ReadFailed,
}

impl Status {
    /// The number with which the program ends: 0 to 4.
    pub fn number(self) -> u8
        ensures { result ≡ status_number self }
    {
        match self {
            Status::Done => 0,
            Status::Failed => 1,
            Status::Undecided => 3,
            Status::Refused => 2,
            Status::ReadFailed => 4,
        }
    }
}

/// Why a command ends without a text.
#[derive(Clone, Copy, Debug, PartialEq, Eq)]
pub enum CutOff {
    OutOfMemory,
    /// An append failed.
    AppendFailed,
}

impl CutOff {
    /// The number with which the program ends: 5 or 6.
    pub fn number(self) -> u8
        ensures { result ≡ cut_off_number self }
    {
        match self {
            CutOff::OutOfMemory => OUT_OF_MEMORY,
            CutOff::AppendFailed => WRITE_FAILED,
        }
    }
}

impl From<OutOfMemory> for CutOff {
    ghost use Rattle.flk_top.specs.declared.reply.CutOff.TheVariants as cut_offs;

    ghost from_gives = { λ _ e. e ≡ cut_offs.OutOfMemory };

    fn from(_: OutOfMemory) -> CutOff {
        CutOff::OutOfMemory
    }
}

impl From<Failed> for CutOff {
    ghost use Rattle.flk_top.specs.declared.reply.CutOff.TheVariants as cut_offs;

    ghost from_gives = { λ _ e. e ≡ cut_offs.AppendFailed };

    fn from(_: Failed) -> CutOff {
        CutOff::AppendFailed
    }
}

/// A status and its whole text.
#[derive(Drop)]
pub struct Reply {
    pub status: Status,
    pub text: String,
}

/// One line as the whole answer.
pub fn line(alloc: Global, status: Status, text: &str) -> Result<Reply, OutOfMemory>
    ensures { IfOk result (λ r. (r.status ≡ status) × (string_bytes r.text ≡ text.now)) }
{
    let text = String::from_str(alloc, text)?;
    Ok(Reply { status, text })
}
