//! Why a certificate is refused, and at which row.

ghost use Rattle.std.specs.Prelude.{◌≡◌};
ghost use Rattle.flk_cert.specs.Cause.{cause_number};

use thiserror::Error;

/// The condition of a certificate that fails.
#[derive(Clone, Copy, Debug, PartialEq, Eq)]
pub enum Cause {
    /// No row or more than 4096 rows; one row though b2 or a2 isn't 0; a number of a row that is out of its range; a
    /// first or a second row of another form.
    Shape,
    /// The rows take up too much of the forms of rows 0 and 1. It is named at the last row.
    Contraction,
    /// The form after a sample isn't the one that c, d and the next row say.
    Identity,
    /// The bound g doesn't cover the input's share.
    Input,
    /// The bound h doesn't cover the share of rounding.
    Rounding,
}

impl Cause {
    /// The number that is printed for the cause, from 1 to 5.
    pub fn number(self) -> u8
        ensures { result ≡ cause_number self }
    {
        match self {
            Cause::Shape => 1,
            Cause::Contraction => 2,
            Cause::Identity => 3,
            Cause::Input => 4,
            Cause::Rounding => 5,
        }
    }
}

/// The first condition of a certificate that fails: its row, counted from 0, and the number of its cause
/// ([`Cause::number`]).
#[derive(Clone, Copy, Debug, PartialEq, Eq, Error)]
#[error("certificate fault")]
pub struct CertFault {
    pub row: u32,
    pub kind: u8,
}

// A fault before its cause becomes a number.
#[derive(Clone, Copy, Debug, PartialEq, Eq)]
pub struct Fault {
    pub row: usize,
    pub cause: Cause,
}
