//! What may follow the last line of a file.

ghost use Rattle.std.specs.Prelude.{◌≡◌, ◌≤◌, ◌↔◌, IsTrue, MatchOption, length, true, false};
ghost use Rattle.std.specs.List.{list_all, count_by};
ghost use Rattle.flk_text.specs.Lines.{is_byte};
ghost use Rattle.flk_text.specs.Tail.{IsTail, is_tail_byte};

/// How many bytes 1A are among bytes of a tail, or None exactly where one of them may not stand there: each is a CR, an
/// LF, a space or a byte 1A.
pub fn tail_marks(bytes: &[u8]) -> Option<usize>
    ensures { MatchOption result (list_all is_tail_byte bytes.now ≡ false)
        (λ n. (list_all is_tail_byte bytes.now ≡ true)
        × (n ≡ count_by (is_byte 26) bytes.now) × (n ≤ length bytes.now)) }
{
    let mut marks = 0;
    for byte in bytes {
        match *byte {
            b'\r' | b'\n' | b' ' => {}
            0x1a => marks += 1,
            _ => return None,
        }
    }
    Some(marks)
}

/// Whether the bytes may follow a file's last line: each is a CR, an LF, a space or a byte 1A, and at most one is a 1A.
pub fn is_tail(tail: &[u8]) -> bool
    ensures { IsTrue result ↔ IsTail tail.now }
{
    match tail_marks(tail) {
        Some(marks) => marks <= 1,
        None => false,
    }
}
