//! The half-periods of a channel, with the flags of the windows that end with them.

ghost use Rattle.std.specs.Prelude.{◌≡◌, ℕ, ◌+◌, ◌-◌, ◌*◌, ◌/◌, ◌^◌, ◌<◌, ◌≤◌, Bool, List, [], ◌∷◌, ◌++◌, length, IfOk, OnOk, OnErr, vec_capacity};
ghost use Rattle.std.specs.List.{All};
ghost use Rattle.std.specs.Int.RustNames.{unsigned_abs};
ghost use Rattle.flk_num.specs.declared.interval.Interval.{Interval as IntervalView};
ghost use Rattle.flk_num.specs.Lamp.{window_of as window_of_lamp};
ghost use Rattle.flk_num.specs.Rate.{half_at};
ghost use Rattle.flk_num.specs.Values.{IsHalfPeriodRange};
ghost use Rattle.flk_half.specs.Cutter.{half_of as half_of_cutter, since_cut};
ghost use Rattle.flk_change.specs.Steady.{taken as taken_by, AreFlags};
ghost use Rattle.flk_change.specs.Resolutions.{IsSummary};

use flk_change::{ChangeSummary, Flag, OutOfMemory, Steady, changes};
use flk_half::Cutter;
use flk_num::{Interval, Lamp, Rate, crosses_threads};
use std::alloc::Global;

// Puts a half-period and its flag to the others. There is room for both.
fn push_half(halves: &mut Vec<Interval>, flags: &mut Vec<Flag>, half: Interval, flag: Flag)
    requires halves_room { length halves.old.items < vec_capacity halves.old }
    requires flags_room { length flags.old.items < vec_capacity flags.old }
    ensures halves { halves.new.items ≡ halves.old.items ++ half ∷ [] }
    ensures flags { flags.new.items ≡ flags.old.items ++ flag ∷ [] }
    ensures halves_capacity { vec_capacity halves.new ≡ vec_capacity halves.old }
    ensures flags_capacity { vec_capacity flags.new ≡ vec_capacity flags.old }
{
    halves.push_reserved(half);
    flags.push_reserved(flag);
}

/// The half-periods of the samples that were taken so far, with the flags of the windows that end with them.
#[derive(Drop)]
pub(crate) struct Halves {
    window: usize,
    // The least samples of a half-period.
    least: usize,
    // How many samples there is room for.
    spare: usize,
    cutter: Cutter,
    steady: Steady,
    halves: Vec<Interval>,
    flags: Vec<Flag>,
    ghost least_is: { least ≡ half_of_cutter cutter / 2 },
    ghost least_low: { 10 ≤ least },
    ghost window_low: { 1 ≤ window },
    ghost window_high: { window ≤ 240 },
    ghost counted: { taken_by steady ≡ length halves.items },
    ghost same: { length flags.items ≡ length halves.items },
    ghost few: { length halves.items < 2 ^ 32 },
    ghost in_range: { All IsHalfPeriodRange halves.items },
    ghost halves_fit: { least * length halves.items + since_cut cutter + spare < least * (1 + vec_capacity halves) },
    ghost flags_fit: { least * length halves.items + since_cut cutter + spare < least * (1 + vec_capacity flags) },
}

impl Halves {
    ghost use Rattle.flk_phase.specs.Halves.{half_of, window_of, spare_of, count_of, halves_in, flags_in, StandsFor, AreSameHalves};

    /// Of no sample yet, with room for none. The error comes only where no memory is found.
    pub(crate) fn new(alloc: Global, lamp: Lamp, rate: Rate) -> Result<Halves, OutOfMemory>
        ensures stands { IfOk result (λ h. StandsFor h [] []) }
        ensures half { IfOk result (λ h. half_of h ≡ half_at lamp rate) }
        ensures window { IfOk result (λ h. window_of h ≡ window_of_lamp lamp) }
        ensures spare { IfOk result (λ h. spare_of h ≡ 0) }
        ensures count { IfOk result (λ h. count_of h ≡ 0) }
    {
        let window = lamp.window();
        let half = lamp.half_at(rate);
        Ok(Halves {
            window,
            least: half / 2,
            spare: 0,
            cutter: Cutter::new(half),
            steady: Steady::new(alloc, window)?,
            halves: Vec::new(alloc),
            flags: Vec::new(alloc),
        })
    }

    /// For how many samples there is room.
    pub(crate) fn spare(&self) -> usize
        ensures { result ≡ spare_of self.now }
    {
        self.spare
    }

    /// Makes room for so many samples at least. The error comes only where no memory is found, and then there is room
    /// for as many as before.
    pub(crate) fn reserve(&mut self, samples: usize) -> Result<(), OutOfMemory>
        ensures same { AreSameHalves self.old self.new }
        ensures ok { OnOk result (samples ≤ spare_of self.new) }
        ensures more { OnOk result (spare_of self.old ≤ spare_of self.new) }
        ensures err { OnErr result (spare_of self.new ≡ spare_of self.old) }
    {
        if samples <= self.spare {
            return Ok(());
        }
        // at most four half-periods may end by the samples since the last cut
        let more = samples / self.least + 6;
        self.halves.try_reserve(more)?;
        self.flags.try_reserve(more)?;
        self.spare = samples;
        Ok(())
    }

    /// Gives back room, so that there is room for so many samples.
    pub(crate) fn lower(&mut self, spare: usize)
        requires { spare ≤ spare_of self.old }
        ensures same { AreSameHalves self.old self.new }
        ensures spare { spare_of self.new ≡ spare }
    {
        self.spare = spare;
    }

    /// How many half-periods ended.
    pub(crate) fn count(&self) -> u32
        ensures { result ≡ count_of self.now }
    {
        self.halves.len() as u32
    }

    /// The voltage changes of the half-periods that ended. Takes no memory.
    pub(crate) fn changes(&self) -> ChangeSummary
        requires { AreFlags (window_of self.now) (halves_in self.now) (flags_in self.now) }
        ensures { IsSummary (window_of self.now) (halves_in self.now) (flags_in self.now) result }
    {
        changes(&self.halves, &self.flags, self.window)
    }

    /// Takes the next sample: whether its recorded voltage is negative, and the interval of its voltages in units of
    /// 2^-48 of nominal, with ends of at most five times nominal in size. There is room for it. Takes no memory.
    #[inline(always)]
    pub(crate) fn push(&mut self, negative: bool, voltage: Interval)
        requires low { unsigned_abs voltage.lo ≤ 5 * 2 ^ 48 }
        requires high { unsigned_abs voltage.hi ≤ 5 * 2 ^ 48 }
        requires spare { 0 < spare_of self.old }
        requires few { count_of self.old < 2 ^ 32 - 1 }
        ensures half { half_of self.new ≡ half_of self.old }
        ensures window { window_of self.new ≡ window_of self.old }
        ensures spare { spare_of self.new + 1 ≡ spare_of self.old }
        ensures count { count_of self.new ≤ count_of self.old + 1 }
        ensures stands { (signs : List Bool) (voltages : List IntervalView) → StandsFor self.old signs voltages
            → StandsFor self.new (signs ++ negative ∷ []) (voltages ++ voltage ∷ []) }
    {
        let ended = self.cutter.push(negative, voltage);
        self.spare -= 1;
        if let Some(half) = ended {
            let flag = self.steady.push(half);
            push_half(&mut self.halves, &mut self.flags, half, flag);
        }
    }
}

// The half-periods can be handed to another thread, and be seen by several at once.
fn halves_cross_threads(halves: &Halves) {
    crosses_threads(halves);
}
