//! The bytes of a record that isn't whole yet.

ghost use Rattle.std.specs.Prelude.{◌≡◌, ◌+◌, ◌≤◌, ◌++◌, [], IsTrue, ◌↔◌, length, IfOk, MatchResult, vec_capacity};
ghost use Rattle.flk_dat.specs.Streams.{MayBegin};
ghost use Rattle.flk_dat.specs.declared.kind.Kind.TheVariants as kinds;

use crate::kind::{Fault, Kind};
use crate::line::LONGEST_LINE;
use std::alloc::{AllocError, Global};
use std::marker::Model;

/// The most bytes that are held: a line of the greatest length and a CR behind it. A BINARY record is shorter.
const ROOM: usize = LONGEST_LINE + 1;

/// The bytes of a record that isn't whole yet. Contracts see it as the list of these bytes. It has room for any
/// record's bytes from its making on.
#[derive(Drop)]
pub struct Rest {
    bytes: Vec<u8>,
}

impl Model for Rest {
    ghost use Rattle.std.specs.Prelude.{ℕ, List, ◌≤◌, vec_capacity};

    ghost Value = { List ℕ };

    ghost view = { λ r. r.bytes.items };

    ghost invariant = { λ r. 16385 ≤ vec_capacity r.bytes };
}

impl Rest {
    /// No bytes, and room for those of a record.
    pub fn new(alloc: Global) -> Result<Rest, AllocError>
        ensures { IfOk result (λ r. r ≡ []) }
    {
        Ok(Rest {
            bytes: Vec::with_capacity(alloc, ROOM)?,
        })
    }

    /// The bytes.
    pub fn as_slice(&self) -> &[u8]
        ensures { result.now ≡ self.now }
    {
        &self.bytes
    }

    /// Puts more bytes at the end.
    pub fn hold(&mut self, piece: &[u8])
        requires { length self.old + length piece.now ≤ 16385 }
        ensures { self.new ≡ self.old ++ piece.now }
    {
        self.bytes.extend_from_slice(piece).unwrap();
    }

    /// Lets go of the bytes.
    pub fn clear(&mut self)
        ensures { self.new ≡ [] }
    {
        self.bytes.clear();
    }

    /// Puts more bytes of a line at the end. The fault is that the line is too long, whatever follows.
    pub fn hold_line(&mut self, piece: &[u8]) -> Result<(), Fault>
        ensures { MatchResult result
            (λ _. (self.new ≡ self.old ++ piece.now) × MayBegin (self.old ++ piece.now))
            (λ f. (f.field ≡ 0) × (f.kind ≡ kinds.Length) × (MayBegin (self.old ++ piece.now) → ⊥)) }
    {
        let count = self.bytes.len();
        if piece.len() > ROOM || count + piece.len() > ROOM {
            return Err(TOO_LONG);
        }
        self.hold(piece);
        if may_begin(&self.bytes) {
            Ok(())
        } else {
            Err(TOO_LONG)
        }
    }
}

/// A line that is too long.
const TOO_LONG: Fault = Fault {
    field: 0,
    kind: Kind::Length,
};

/// Whether the bytes may begin a line that isn't too long.
fn may_begin(bytes: &[u8]) -> bool
    ensures { IsTrue result ↔ MayBegin bytes.now }
{
    bytes.len() <= LONGEST_LINE || (bytes.len() == ROOM && bytes[LONGEST_LINE] == b'\r')
}
