// Calls of the system that a signal may interrupt.
ghost use Rattle.std.specs.Prelude.{◌<◌, length, IfOk};
ghost use Rattle.std.specs.Io.{ReadsAtMost, WritesAtMost};
ghost use Rattle.std.specs.Io.KnownBytes.{ReadConsumes, WriteAppends};

use std::io;
use std::io::{Error, ErrorKind, Read, Write};

/// How often a call that a signal interrupted is made again.
const TRIES: u32 = 1000;

/// Reads once, and again where a signal interrupted the call. An error took nothing.
pub(crate) fn read_some<R: Read>(from: &mut R, buf: &mut [u8]) -> io::Result<usize>
    ensures bound { ReadsAtMost result buf.new }
    ensures bytes { ReadConsumes (R.remaining from.old) (R.remaining from.new) result buf.new }
{
    for _ in 0..TRIES {
        match from.read(buf) {
            Err(error) if error.kind() == ErrorKind::Interrupted => {}
            Err(error) => return Err(error),
            Ok(count) => return Ok(count),
        }
    }
    Err(Error::from(ErrorKind::Interrupted))
}

/// Writes once, at least one byte, and again where a signal interrupted the call. An error wrote
/// nothing.
pub(crate) fn write_some<W: Write>(to: &mut W, bytes: &[u8]) -> io::Result<usize>
    ensures some { IfOk result (λ n. 0 < n) }
    ensures bound { WritesAtMost result bytes.now }
    ensures bytes { WriteAppends (W.contents to.old) (W.contents to.new) result bytes.now }
{
    for _ in 0..TRIES {
        match to.write(bytes) {
            Err(error) if error.kind() == ErrorKind::Interrupted => {}
            Ok(0) => return Err(Error::from(ErrorKind::WriteZero)),
            answer => return answer,
        }
    }
    Err(Error::from(ErrorKind::Interrupted))
}
