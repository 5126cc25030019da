//! Numbers of billionths, as the program prints them.

ghost use Rattle.std.specs.Prelude.{Some};
ghost use Rattle.flk_text.specs.Billionths.{billionths, ends_text};

use std::fmt;

const BILLION: u128 = 1_000_000_000;

/// A number of billionths, printed as its whole part, a point and nine digits.
#[derive(Clone, Copy, Debug)]
pub struct Billionths(pub u128);

impl fmt::Display for Billionths {
    ghost output = { λ value. Some (billionths value.0) };

    fn fmt<W: fmt::Write>(&self, f: &mut fmt::Formatter<W>) -> fmt::Result {
        let whole = self.0 / BILLION;
        let rest = self.0 % BILLION;
        write!(f, "{whole}.{rest:09}")
    }
}

/// The least and the greatest value of an interval, each a number of billionths, printed with the word `to` between
/// them.
#[derive(Clone, Copy, Debug)]
pub struct Ends(pub u128, pub u128);

impl fmt::Display for Ends {
    ghost output = { λ ends. Some (ends_text ends.0 ends.1) };

    fn fmt<W: fmt::Write>(&self, f: &mut fmt::Formatter<W>) -> fmt::Result {
        let least = Billionths(self.0);
        let greatest = Billionths(self.1);
        write!(f, "{least} to {greatest}")
    }
}
