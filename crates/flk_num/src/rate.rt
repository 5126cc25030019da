//! The sampling rates of the recordings that can be measured.

ghost use Rattle.std.specs.Prelude.{◌≡◌};
ghost use Rattle.flk_num.specs.Rate.{samples_per_second, samples_in as samples_of};

/// The sampling rate of a recording. All that depends on it stands in `specs/Rate`.
#[derive(Clone, Copy, Debug, PartialEq, Eq)]
pub enum Rate {
    /// 2400 samples a second.
    R2400,
    /// 4800 samples a second.
    R4800,
}

impl Rate {
    /// The samples a second: 2400 or 4800.
    pub fn hertz(&self) -> u32
        ensures { result ≡ samples_per_second self.now }
    {
        match self {
            Rate::R2400 => 2400,
            Rate::R4800 => 4800,
        }
    }

    /// The samples of so many seconds.
    #[tactic(auto, using(crate::proofs::RateLemmas::samples_at_most))]
    pub fn samples_in(&self, seconds: u16) -> u32
        ensures { result ≡ samples_of self.now seconds }
    {
        self.hertz() * u32::from(seconds)
    }
}
