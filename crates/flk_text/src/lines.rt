//! The lines of a file.

ghost use Rattle.std.specs.Prelude.{◌≡◌, ◌<◌, [], length, IfSome, MatchOption};
ghost use Rattle.flk_text.specs.Lines.{without_cr as without_cr_of, without_lf as without_lf_of, line_of, after_line, last_line_of, tail_of};

use crate::scan::{last_line_end, position_of};
use std::marker::Model;

/// What is left of a file, from which the lines are taken one by one. Contracts see it as the bytes that are left.
#[derive(Drop)]
pub struct Lines<'a> {
    left: &'a [u8],
}

impl<'a> Model for Lines<'a> {
    ghost use Rattle.std.specs.Prelude.{ℕ, List};

    ghost Value = { List ℕ };

    ghost view = { λ lines. lines.left.now };
}

impl<'a> Lines<'a> {
    /// The lines of a file of these bytes.
    pub fn new(bytes: &'a [u8]) -> Lines<'a>
        ensures { result ≡ bytes.now }
    {
        Lines { left: bytes }
    }

    /// Takes the next line, which ends with LF or at the end of the file, without that LF and without one CR before
    /// that end. None exactly where no byte is left.
    pub fn next_line(&mut self) -> Option<&'a [u8]>
        ensures line { MatchOption result (self.old ≡ [])
            (λ line. (0 < length self.old) × (line.now ≡ line_of self.old)) }
        ensures left { self.new ≡ after_line self.old }
        ensures shorter { IfSome result (λ line. length self.new < length self.old) }
    {
        if self.left.is_empty() {
            return None;
        }
        let (line, left) = first_line(self.left);
        self.left = left;
        Some(line)
    }

    /// Takes the last line of a file, which ends with the first LF, before the first byte 1A, or at the end of the
    /// file, whichever comes first, without that LF and without one CR before that end. What is left then is the tail
    /// (`is_tail` judges it). None exactly where no byte is left.
    pub fn last_line(&mut self) -> Option<&'a [u8]>
        ensures line { MatchOption result (self.old ≡ [])
            (λ line. (0 < length self.old) × (line.now ≡ last_line_of self.old)) }
        ensures left { self.new ≡ tail_of self.old }
    {
        if self.left.is_empty() {
            return None;
        }
        let (line, tail) = line_and_tail(self.left);
        self.left = tail;
        Some(line)
    }

    /// The bytes that are left.
    pub fn rest(&self) -> &'a [u8]
        ensures { result.now ≡ self.now }
    {
        self.left
    }
}

/// The line without one CR at its end.
pub fn without_cr(line: &[u8]) -> &[u8]
    ensures { result.now ≡ without_cr_of line.now }
{
    let count = line.len();
    if count > 0 && line[count - 1] == b'\r' {
        &line[..count - 1]
    } else {
        line
    }
}

/// The bytes without one LF in front.
fn without_lf(bytes: &[u8]) -> &[u8]
    ensures { result.now ≡ without_lf_of bytes.now }
{
    match bytes {
        [10, rest @ ..] => rest,
        _ => bytes,
    }
}

/// The first line, and what follows it.
fn first_line(bytes: &[u8]) -> (&[u8], &[u8])
    ensures line { result.0.now ≡ line_of bytes.now }
    ensures left { result.1.now ≡ after_line bytes.now }
{
    let end = position_of(bytes, b'\n');
    let line = without_cr(&bytes[..end]);
    if end == bytes.len() {
        (line, &bytes[end..])
    } else {
        (line, &bytes[end + 1..])
    }
}

/// The last line, and what follows it.
fn line_and_tail(bytes: &[u8]) -> (&[u8], &[u8])
    ensures line { result.0.now ≡ last_line_of bytes.now }
    ensures tail { result.1.now ≡ tail_of bytes.now }
{
    let end = last_line_end(bytes);
    (without_cr(&bytes[..end]), without_lf(&bytes[end..]))
}
