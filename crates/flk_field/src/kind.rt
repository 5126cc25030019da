//! The kinds of a fault of a configuration, and where the fault lies.

ghost use Rattle.std.specs.Prelude.{◌≡◌};
ghost use Rattle.flk_field.specs.Kinds.{kind_number};

use flk_num::Stop;

/// What is wrong with a line or a field of a configuration.
#[derive(Clone, Copy, Debug, PartialEq, Eq)]
pub enum Kind {
    /// The file ends before this line.
    End,
    /// The line has another number of fields.
    Fields,
    /// A number, date or time that isn't of its form.
    Number,
    /// A number, position, sum, date or time of its form that is out of its set, other than nrates and samp.
    Range,
    /// A file type, a letter P or S, or the letter of a count that isn't one of the named words; or a text of at most
    /// 64 bytes with a CR or a byte 1A.
    Word,
    /// A revision year other than 1999; it is missing in a first line of two fields.
    Revision,
    /// A number of sampling rates other than 1, or a sampling rate other than 2400 and 4800.
    Rates,
    /// A text above 64 bytes, or bytes after the last line that are no tail.
    Length,
}

impl Kind {
    /// The number that is printed for the kind, from 1 to 8.
    pub fn number(self) -> u8
        ensures { result ≡ kind_number self }
    {
        match self {
            Kind::End => 1,
            Kind::Fields => 2,
            Kind::Number => 3,
            Kind::Range => 4,
            Kind::Word => 5,
            Kind::Revision => 6,
            Kind::Rates => 7,
            Kind::Length => 8,
        }
    }
}

/// A fault before its kind becomes a number.
#[derive(Clone, Copy, Debug, PartialEq, Eq)]
pub struct Fault {
    /// Counted from 1.
    pub line: u32,
    /// Counted from 1, and 0 where the line as a whole is at fault.
    pub field: u32,
    pub kind: Kind,
}

impl From<Fault> for Stop<Fault> {
    ghost use Rattle.flk_num.specs.declared.stop.Stop.TheVariants as stop;

    ghost from_gives = { λ f e. e ≡ stop.Fault f };

    fn from(fault: Fault) -> Stop<Fault> {
        Stop::Fault(fault)
    }
}
