//! The kinds of a fault of a job, and where the fault lies.

ghost use Rattle.std.specs.Prelude.{◌≡◌};
ghost use Rattle.flk_job.specs.Kinds.{kind_number};

use flk_num::Stop;
use thiserror::Error;

/// What is wrong with a job file or with a key's value.
#[derive(Clone, Copy, Debug, PartialEq, Eq)]
pub enum Kind {
    /// The bytes are no TOML document.
    Toml,
    /// The document has a key that isn't in the table.
    Unknown,
    /// The key has no value, and no default.
    Absent,
    /// The value is of another TOML type; an array of channels has an element that isn't an integer.
    OtherType,
    /// The value is of its type and out of its set.
    Range,
    /// The file is above 65,536 bytes.
    Length,
}

impl Kind {
    /// The number that is printed for the kind, from 1 to 6.
    pub fn number(self) -> u8
        ensures { result ≡ kind_number self }
    {
        match self {
            Kind::Toml => 1,
            Kind::Unknown => 2,
            Kind::Absent => 3,
            Kind::OtherType => 4,
            Kind::Range => 5,
            Kind::Length => 6,
        }
    }
}

/// The first fault of a job file: the number of its key, from 1 to 7 ([`crate::Key::number`]), and the number of its
/// kind, from 1 to 6 ([`Kind::number`]). The key is 0 where the document as a whole is at fault.
#[derive(Clone, Copy, Debug, PartialEq, Eq, Error)]
#[error("job fault")]
pub struct JobFault {
    pub key: u8,
    pub kind: u8,
}

/// A fault before its kind becomes a number.
#[derive(Clone, Copy, Debug, PartialEq, Eq)]
pub struct Fault {
    pub key: u8,
    pub kind: Kind,
}

impl From<Fault> for Stop<Fault> {
    ghost use Rattle.flk_num.specs.declared.stop.Stop.TheVariants as stop;

    ghost from_gives = { λ f e. e ≡ stop.Fault f };

    fn from(fault: Fault) -> Stop<Fault> {
        Stop::Fault(fault)
    }
}
