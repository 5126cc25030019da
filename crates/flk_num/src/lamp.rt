//! The two reference lamps, and the nominal periods that go with them.

ghost use Rattle.std.specs.Prelude.{◌≡◌};
ghost use Rattle.flk_num.specs.Lamp.{window_of, hertz_of};
ghost use Rattle.flk_num.specs.Rate.{half_at};
ghost use Rattle.flk_num.specs.declared.rate.Rate.TheVariants as rates;

use crate::rate::Rate;

/// The reference lamp of the flickermeter of IEC 61000-4-15, with the nominal frequency of its supply.
#[derive(Clone, Copy, Debug, PartialEq, Eq)]
pub enum Lamp {
    /// The 230 V lamp, on 50 Hz.
    L230,
    /// The 120 V lamp, on 60 Hz.
    L120,
}

impl Lamp {
    /// The samples of half a nominal period at 2400 samples a second: 24 or 20.
    pub fn half(&self) -> usize
        ensures { result ≡ half_at self.now rates.R2400 }
    {
        self.half_at(Rate::R2400)
    }

    /// The samples of half a nominal period: 24 or 20 at 2400 samples a second, 48 or 40 at 4800.
    pub fn half_at(&self, rate: Rate) -> usize
        ensures { result ≡ half_at self.now rate }
    {
        match (self, rate) {
            (Lamp::L230, Rate::R2400) => 24,
            (Lamp::L120, Rate::R2400) => 20,
            (Lamp::L230, Rate::R4800) => 48,
            (Lamp::L120, Rate::R4800) => 40,
        }
    }

    /// The half-periods of one second: 100 or 120.
    pub fn window(&self) -> usize
        ensures { result ≡ window_of self.now }
    {
        match self {
            Lamp::L230 => 100,
            Lamp::L120 => 120,
        }
    }

    /// The nominal frequency in hertz: 50 or 60.
    pub fn hertz(&self) -> u8
        ensures { result ≡ hertz_of self.now }
    {
        match self {
            Lamp::L230 => 50,
            Lamp::L120 => 60,
        }
    }
}
