//! Why a recording can't be measured as it is asked for.

ghost use Rattle.std.specs.Prelude.{◌≡◌};
ghost use Rattle.flk_scale.specs.Faults.{match_number};

use flk_text::DecimalValue;

/// Why a recording can't be measured as it is asked for: the first test that fails, in this order.
#[derive(Clone, Copy, Debug, PartialEq, Eq)]
pub enum MatchFault {
    /// A channel's number is above the count of analog channels.
    Channel { asked: u16, there: u16 },
    /// A channel's unit isn't `V` or `kV`, in letters of any case.
    Unit { channel: u16 },
    /// A channel's multiplier or offset is above 10000 in size.
    Scale { channel: u16 },
    /// The line frequency, in units of 10^-24 of a hertz, isn't that of the lamp's supply, 50 or 60 Hz. Where no lamp
    /// is asked for, it is neither of the two, and `hertz` is 0.
    Lamp { hertz: u8, lf: DecimalValue },
    /// The recording has fewer records than the run-in and one interval need.
    TooShort { needed: u32, there: u32 },
    /// The recording has more records than the limit.
    TooLong { limit: u32, there: u32 },
}

impl MatchFault {
    /// The number that is printed for the kind, from 1 to 6.
    pub fn number(self) -> u8
        ensures { result ≡ match_number self }
    {
        match self {
            MatchFault::Channel { .. } => 1,
            MatchFault::Unit { .. } => 2,
            MatchFault::Scale { .. } => 3,
            MatchFault::Lamp { .. } => 4,
            MatchFault::TooShort { .. } => 5,
            MatchFault::TooLong { .. } => 6,
        }
    }
}
