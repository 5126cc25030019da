// Whole files and whole texts, over calls that move a part.
ghost use Rattle.std.specs.Prelude.{◌≡◌, ◌⊎◌, ℕ, ◌+◌, ◌^◌, ◌<◌, ◌≤◌, length, vec_len, IsErrOf, OnOk, OnErr, IfOk, IfSome};
ghost use Rattle.std.specs.Io.KnownBytes.{Appends};
ghost use Rattle.flk_io.specs.Causes.{Rose, HasCause, TakesAll, TakesFront, AddsFront};
ghost use Rattle.flk_io.specs.Told.{OnlyReads, OnlyAppends, ReadsUnder, AppendsUnder};

use crate::{Failed, Shelf, Sink};
use std::alloc::Global;

/// Why a name was not read to its end.
#[derive(Clone, Copy, Debug, PartialEq, Eq)]
pub enum ReadStop {
    /// A read failed.
    Failed,
    /// More than `limit` bytes are there.
    TooLong,
    /// There is no memory for what was read.
    OutOfMemory,
}

/// How many bytes one call of `read` is asked for.
const PIECE: usize = 65536;

/// Reads what is left under a name, to its end: `limit` bytes at most, else `TooLong`, which has
/// then taken `limit + 1` bytes. A file is read in pieces, and memory is taken for what is there,
/// not for `limit`.
pub fn read_all<F: Shelf>(
    alloc: Global,
    shelf: &mut F,
    name: &str,
    limit: usize,
) -> Result<Vec<u8>, ReadStop>
    requires { limit < 2 ^ 40 }
    ensures all { IfOk result (λ bytes.
        TakesAll ((F.told shelf.old).left name.now) ((F.told shelf.new).left name.now) bytes.items) }
    ensures small { IfOk result (λ bytes. vec_len bytes ≤ limit) }

    // Of the answers but Failed and OutOfMemory it is TooLong exactly where more is there.
    ensures too_long { IsErrOf result ReadStop.TooLong
        → IfSome ((F.told shelf.old).left name.now) (λ bytes. limit < length bytes) }
    ensures taken { IsErrOf result ReadStop.TooLong
        → TakesFront ((F.told shelf.old).left name.now) ((F.told shelf.new).left name.now) (limit + 1) }
    ensures front { OnErr result ((n : ℕ) × (n ≤ limit + 1)
        × TakesFront ((F.told shelf.old).left name.now) ((F.told shelf.new).left name.now) n) }
    ensures others { ReadsUnder name.now (F.told shelf.old) (F.told shelf.new) }
    ensures only_reads { OnlyReads (F.told shelf.old) (F.told shelf.new) }

    ensures failed { IsErrOf result ReadStop.Failed
        → Rose (F.told shelf.old).read_faults (F.told shelf.new).read_faults }
    ensures kept { IsErrOf result ReadStop.Failed
        ⊎ ((F.told shelf.new).read_faults ≡ (F.told shelf.old).read_faults) }
{
    let mut bytes = Vec::new(alloc);
    let mut piece = [0; PIECE];
    while bytes.len() <= limit {
        let room = PIECE.min(limit + 1 - bytes.len());
        let count = match shelf.read(name, &mut piece[..room]) {
            Ok(count) => count,
            Err(_) => return Err(ReadStop::Failed),
        };
        if count == 0 {
            return Ok(bytes);
        }
        match bytes.extend_from_slice(&piece[..count]) {
            Ok(()) => {}
            Err(_) => return Err(ReadStop::OutOfMemory),
        }
    }
    Err(ReadStop::TooLong)
}

/// Adds all of the bytes under a name, over as many calls as it takes. `Failed` added a front of
/// them.
pub fn append_all<F: Shelf>(shelf: &mut F, name: &str, bytes: &[u8]) -> Result<(), Failed>
    ensures whole { OnOk result
        (Appends ((F.told shelf.old).added name.now) ((F.told shelf.new).added name.now) bytes.now) }
    ensures front { OnErr result
        (AddsFront ((F.told shelf.old).added name.now) ((F.told shelf.new).added name.now) bytes.now) }
    ensures others { AppendsUnder name.now (F.told shelf.old) (F.told shelf.new) }
    ensures only_appends { OnlyAppends (F.told shelf.old) (F.told shelf.new) }
    ensures cause { HasCause (F.told shelf.old).append_faults (F.told shelf.new).append_faults result }
{
    let mut done = 0;
    while done < bytes.len() {
        done += shelf.append(name, &bytes[done..])?;
    }
    Ok(())
}

/// Writes all of the bytes, over as many writes as it takes. `Failed` wrote a front of them.
pub fn write_all<K: Sink>(sink: &mut K, bytes: &[u8]) -> Result<(), Failed>
    ensures whole { OnOk result (Appends (K.told sink.old).written (K.told sink.new).written bytes.now) }
    ensures front { OnErr result (AddsFront (K.told sink.old).written (K.told sink.new).written bytes.now) }
    ensures cause { HasCause (K.told sink.old).faults (K.told sink.new).faults result }
{
    let mut done = 0;
    while done < bytes.len() {
        done += sink.write(&bytes[done..])?;
    }
    Ok(())
}
