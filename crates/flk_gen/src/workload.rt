//! The samples, one after the other.

ghost use Rattle.std.specs.Prelude.{◌≡◌, ℕ, ◌+◌, ◌*◌, ◌/◌, ◌%◌, ◌<◌, ◌≤◌, All, unsigned_abs, IfSome, IfNone};
ghost use Rattle.flk_gen.specs.Workload.{draw, shift, value, values};

use crate::draws::{depth, next_draw};
use crate::wave::{lowered, wave};

/// How many samples lie between two draws of a channel: half a second.
const HALF_SECOND: u32 = 1200;

/// How many samples each channel is ahead of the first one.
const SHIFTS: [u32; 3] = [0, 32, 16];

fn shift(channel: u32) -> u32
    requires { channel < 3 }
    ensures value { result ≡ shift channel }
    ensures small { result ≤ 32 }
{
    SHIFTS[channel as usize]
}

/// The samples that are to come of a generated recording of 2400 samples a second.
#[derive(Clone, Copy, Debug)]
pub struct Workload {
    /// The draws of this half second and of the next one, for the first channel.
    this: u32,
    next: u32,
    /// How many samples of this half second were given.
    place: u32,
    given: u32,
    all: u32,
    ghost early: { place < 1200 },
    ghost within: { given ≤ all },
    ghost few: { all ≤ 19200000 },
}

impl Workload {
    ghost use Rattle.flk_gen.specs.Stands.{Stands, samples_left};

    /// The recording of this seed, of 1 to 8000 seconds.
    pub fn new(seed: u32, seconds: u32) -> Workload
        requires { (1 ≤ seconds) × (seconds ≤ 8000) }
        ensures { Stands result seed (2400 * seconds) 0 }
    {
        let this = next_draw(seed);
        Workload {
            this,
            next: next_draw(this),
            place: 0,
            given: 0,
            all: 2400 * seconds,
        }
    }

    /// The values of the three channels at the next sample, in units of 0.0125 V; `None` exactly where all samples were
    /// given.
    pub fn next_sample(&mut self) -> Option<[i32; 3]>
        ensures some { (seed all n : ℕ) → Stands self.old seed all n
            → IfSome result (λ v. (n < all) × (v ≡ values seed n) × Stands self.new seed all (n + 1)) }
        ensures none { (seed all n : ℕ) → Stands self.old seed all n
            → IfNone result ((n ≡ all) × Stands self.new seed all n) }
        ensures small { IfSome result (All (λ z. unsigned_abs z ≤ 65536)) }
        ensures fewer { IfSome result (λ v. samples_left self.new < samples_left self.old) }
        ensures kept { IfNone result (samples_left self.new ≡ samples_left self.old) }
    {
        if self.given == self.all {
            return None;
        }
        let sample = [self.value(0), self.value(1), self.value(2)];
        self.step();
        Some(sample)
    }

    /// How many samples were given.
    pub fn given(&self) -> u32
        ensures given { (seed all n : ℕ) → Stands self.now seed all n → result ≡ n }
        ensures few { result ≤ 19200000 }
    {
        self.given
    }

    // The value of a channel at the next sample.
    fn value(&self, channel: u32) -> i32
        requires { channel < 3 }
        ensures value { (seed all n : ℕ) → Stands self.now seed all n → result ≡ value seed channel n }
        ensures small { unsigned_abs result ≤ 65536 }
    {
        let ahead = shift(channel);
        let draw = self.draw_ahead(ahead);
        lowered(wave(self.place_ahead(ahead)), depth(draw, channel))
    }

    // The draw of the half second in which the sample stands that is so many after the next one.
    fn draw_ahead(&self, samples: u32) -> u32
        requires { samples ≤ 1200 }
        ensures { (seed all n : ℕ) → Stands self.now seed all n → result ≡ draw seed (1 + (n + samples) / 1200) }
    {
        if self.place + samples < HALF_SECOND {
            self.this
        } else {
            self.next
        }
    }

    // The place of that sample in its period.
    fn place_ahead(&self, samples: u32) -> usize
        requires { samples ≤ 1200 }
        ensures place { (seed all n : ℕ) → Stands self.now seed all n → result ≡ (n + samples) % 48 }
        ensures small { result < 48 }
    {
        ((self.place + samples) % 48) as usize
    }

    // Goes on to the sample after the next one.
    fn step(&mut self)
        requires { self.old.given < self.old.all }
        ensures stands { (seed all n : ℕ) → Stands self.old seed all n → Stands self.new seed all (n + 1) }
        ensures fewer { samples_left self.new < samples_left self.old }
    {
        self.given += 1;
        self.place += 1;
        if self.place == HALF_SECOND {
            self.place = 0;
            self.this = self.next;
            self.next = next_draw(self.next);
        }
    }
}
