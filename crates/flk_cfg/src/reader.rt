//! The lines of a configuration, one after another.

ghost use Rattle.std.specs.Prelude.{◌≡◌, ◌+◌, ◌<◌, ◌≤◌, ℕ, List, length, IfOk, MatchResult};
ghost use Rattle.flk_text.specs.Fields.{fields};
ghost use Rattle.flk_cfg.specs.Places.{IsLineAt, IsLastLineAt, tail_at};
ghost use Rattle.flk_field.specs.declared.kind.Kind.TheVariants as kinds;
ghost use Rattle.flk_field.specs.Columns.{parts_of};
ghost use Rattle.flk_cfg.specs.Reading.{StandsAt, NoLine, IsAt, WholeFault};

use flk_field::{Columns, Fault, Kind};
use flk_text::Lines;

/// What is left of a configuration, and the number of the line that was taken last.
#[derive(Drop)]
pub struct Reader<'a> {
    pub lines: Lines<'a>,
    pub number: u32,
}

impl<'a> Reader<'a> {
    /// The reader of these bytes, of which no line is taken yet.
    pub fn new(bytes: &'a [u8]) -> Reader<'a>
        ensures { StandsAt result bytes.now 0 }
    {
        Reader {
            lines: Lines::new(bytes),
            number: 0,
        }
    }

    /// The fault that the line that was to be taken last isn't there.
    fn ended(&self) -> Fault
        ensures { result ≡ record { line = self.now.number; field = 0; kind = kinds.End } }
    {
        Fault {
            line: self.number,
            field: 0,
            kind: Kind::End,
        }
    }

    /// Takes the next line. The fault is that there is none.
    pub fn next_line(&mut self) -> Result<&'a [u8], Fault>
        requires few { self.old.number < 2000 }
        ensures number { self.new.number ≡ self.old.number + 1 }
        ensures stands { (bytes : List ℕ) (k : ℕ) → StandsAt self.old bytes k → StandsAt self.new bytes (k + 1) }
        ensures line { (bytes : List ℕ) (k : ℕ) → StandsAt self.old bytes k → MatchResult result
            (λ line. IsLineAt bytes k (fields line.now)) (λ f. NoLine bytes k f) }
    {
        self.number += 1;
        match self.lines.next_line() {
            Some(line) => Ok(line),
            None => Err(self.ended()),
        }
    }

    /// Takes the last line. The fault is that there is none.
    pub fn last_line(&mut self) -> Result<&'a [u8], Fault>
        requires few { self.old.number < 2000 }
        ensures number { self.new.number ≡ self.old.number + 1 }
        ensures tail { (bytes : List ℕ) (k : ℕ) → StandsAt self.old bytes k → self.new.lines ≡ tail_at bytes k }
        ensures line { (bytes : List ℕ) (k : ℕ) → StandsAt self.old bytes k → MatchResult result
            (λ line. IsLastLineAt bytes k (fields line.now)) (λ f. NoLine bytes k f) }
    {
        self.number += 1;
        match self.lines.last_line() {
            Some(line) => Ok(line),
            None => Err(self.ended()),
        }
    }

    /// Takes the fields of the next line, which are to be so many.
    pub fn columns(&mut self, count: usize) -> Result<Columns<'a>, Fault>
        requires few { self.old.number < 2000 }
        requires count { count ≤ 13 }
        ensures number { self.new.number ≡ self.old.number + 1 }
        ensures stands { (bytes : List ℕ) (k : ℕ) → StandsAt self.old bytes k → StandsAt self.new bytes (k + 1) }
        ensures count { IfOk result (λ c. length (parts_of c) ≡ count) }
        ensures line { (bytes : List ℕ) (k : ℕ) → StandsAt self.old bytes k → MatchResult result
            (λ c. IsAt bytes k count c) (λ f. WholeFault bytes k count f) }
    {
        let line = self.next_line()?;
        Columns::of(line, self.number, count)
    }
}
