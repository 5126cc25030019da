//! What follows the last record of an ASCII file.

ghost use Rattle.std.specs.Prelude.{◌≡◌, ℕ, ◌+◌, ◌≤◌, ◌++◌, List, length, MatchOption};
ghost use Rattle.std.specs.List.{count_by};
ghost use Rattle.flk_text.specs.Lines.{is_byte};
ghost use Rattle.flk_dat.specs.DataFile.{MayFollow};
ghost use Rattle.flk_field.specs.declared.form.Form.TheVariants as forms;

use flk_text::tail_marks;

/// The most bytes of a tail.
const LONGEST_TAIL: usize = 65_536;

/// How many bytes of the tail there were so far, and how many of them were bytes 1A.
#[derive(Clone, Copy)]
pub struct Tail {
    pub bytes: usize,
    pub marks: usize,
}

impl Tail {
    ghost use Rattle.flk_dat.specs.Tails.{tail_after};

    /// No bytes.
    pub fn new() -> Tail
        ensures { result ≡ record { bytes = 0; marks = 0 } }
    {
        Tail { bytes: 0, marks: 0 }
    }

    /// What a byte with which a line ends belongs to the tail: a byte 1A does.
    pub fn after(byte: u8) -> Tail
        ensures { result ≡ tail_after byte }
    {
        if byte == b'\n' {
            Tail::new()
        } else {
            Tail { bytes: 1, marks: 1 }
        }
    }

    /// The tail with more bytes at its end, or None where that is no tail or is too long.
    pub fn with(self, piece: &[u8]) -> Option<Tail>
        ensures { (rest : List ℕ) → self.bytes ≡ length rest → self.marks ≡ count_by (is_byte 26) rest
            → MayFollow forms.Ascii rest
            → MatchOption result (MayFollow forms.Ascii (rest ++ piece.now) → ⊥)
            (λ t. (t.bytes ≡ length (rest ++ piece.now)) × (t.marks ≡ count_by (is_byte 26) (rest ++ piece.now))
            × MayFollow forms.Ascii (rest ++ piece.now)) }
    {
        let marks = tail_marks(piece)?;
        if self.bytes > LONGEST_TAIL
            || piece.len() > LONGEST_TAIL - self.bytes
            || self.marks > 1
            || marks > 1 - self.marks
        {
            return None;
        }
        Some(Tail {
            bytes: self.bytes + piece.len(),
            marks: self.marks + marks,
        })
    }
}
