//! The kinds of a fault of a data file, and where the fault lies.

ghost use Rattle.std.specs.Prelude.{◌≡◌};
ghost use Rattle.flk_dat.specs.Kinds.{data_kind_number};

use thiserror::Error;

/// What is wrong with a record or a field of a data file.
#[derive(Clone, Copy, Debug, PartialEq, Eq)]
pub enum Kind {
    /// An ASCII line has another number of fields.
    Fields,
    /// A field that isn't a whole number.
    Number,
    /// A whole number out of its set.
    Range,
    /// A sample number that isn't the one before plus 1.
    Order,
    /// The input ends before the last record, or before that record is whole.
    Short,
    /// Bytes after the last record that are no tail, or a tail above 65,536 bytes.
    Long,
    /// A missing value in a selected channel.
    Missing,
    /// An ASCII line above 16,384 bytes.
    Length,
}

impl Kind {
    /// The number that is printed for the kind, from 1 to 8.
    pub fn number(self) -> u8
        ensures { result ≡ data_kind_number self }
    {
        match self {
            Kind::Fields => 1,
            Kind::Number => 2,
            Kind::Range => 3,
            Kind::Order => 4,
            Kind::Short => 5,
            Kind::Long => 6,
            Kind::Missing => 7,
            Kind::Length => 8,
        }
    }
}

/// The first fault of a data file: its record and its field, both counted from 1, and the number of its kind
/// ([`Kind::number`]). The field is 0 where the record as a whole is at fault.
#[derive(Clone, Copy, Debug, PartialEq, Eq, Error)]
#[error("data fault")]
pub struct DatFault {
    pub row: u64,
    pub field: u32,
    pub kind: u8,
}

/// A fault of a record before the record has its number and the kind has its own.
#[derive(Clone, Copy, Debug, PartialEq, Eq)]
pub struct Fault {
    pub field: u32,
    pub kind: Kind,
}
