//! The fields of one line.

ghost use Rattle.std.specs.Prelude.{◌≡◌, ◌≢◌, ◌<◌, ◌≤◌, ◌^◌, length, MatchResult};
ghost use Rattle.flk_text.specs.Fields.{fields};
ghost use Rattle.flk_field.specs.Sets.{at as part_at};
ghost use Rattle.flk_field.specs.Columns.{parts_of};
ghost use Rattle.flk_field.specs.declared.kind.Kind.TheVariants as kinds;

use crate::kind::{Fault, Kind};
use flk_text::Fields;

/// The fields of the line of an analog channel, which are the most of any line.
pub const ANALOG_FIELDS: usize = 13;

/// The number of a line, counted from 1, and its fields without the spaces at both their ends.
#[derive(Clone, Copy)]
pub struct Columns<'a> {
    pub line: u32,
    pub count: usize,
    pub parts: [&'a [u8]; ANALOG_FIELDS],
}

impl<'a> Columns<'a> {
    /// The fields of a line, which are to be so many. The fault is that they aren't.
    pub fn of(line: &'a [u8], number: u32, count: usize) -> Result<Columns<'a>, Fault>
        requires { count ≤ 13 }
        ensures { MatchResult result (λ c. (parts_of c ≡ fields line.now) × (length (fields line.now) ≡ count)
            × (c.line ≡ number))
            (λ f. (length (fields line.now) ≢ count) × (f ≡ record { line = number; field = 0; kind = kinds.Fields })) }
    {
        let other = Fault {
            line: number,
            field: 0,
            kind: Kind::Fields,
        };
        let mut left = Fields::new(line);
        let mut parts = [&line[..0]; ANALOG_FIELDS];
        for place in 0..count {
            match left.next_field() {
                Some(part) => parts[place] = part,
                None => return Err(other),
            }
        }
        match left.next_field() {
            Some(_) => Err(other),
            None => Ok(Columns {
                line: number,
                count,
                parts,
            }),
        }
    }

    /// The field at a place, counted from 1.
    pub fn field(&self, place: usize) -> &'a [u8]
        requires some { 0 < place }
        requires there { place ≤ length (parts_of self.now) }
        ensures { result.now ≡ part_at (parts_of self.now) place }
    {
        self.parts[place - 1]
    }

    /// A fault of the field at a place.
    pub fn fault(&self, place: usize, kind: Kind) -> Fault
        requires { place < 2 ^ 32 }
        ensures { result ≡ record { line = self.now.line; field = place; kind = kind } }
    {
        Fault {
            line: self.line,
            field: place as u32,
            kind,
        }
    }
}
