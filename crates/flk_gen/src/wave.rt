//! A period of the sine, in 48 samples.

ghost use Rattle.std.specs.Prelude.{◌≡◌, ◌<◌, ◌≤◌, ◌^◌, pos, unsigned_abs};
ghost use Rattle.flk_gen.specs.Workload.{half_wave, wave, lowered};

/// A quarter of a period, from 0 to the crest of 230 V: 230 * sqrt(2) / 0.0125.
const QUARTER: [u16; 13] = [
    0, 3397, 6735, 9958, 13011, 15841, 18400, 20645, 22536, 24041, 25135, 25799, 26022,
];

// The half of a period that isn't negative.
fn half_wave(place: usize) -> i32
    requires { place ≤ 24 }
    ensures value { result ≡ pos (half_wave place) }
    ensures small { unsigned_abs result < 2 ^ 16 }
{
    let place = if place <= 12 { place } else { 24 - place };
    i32::from(QUARTER[place])
}

/// The sine at this place of its period.
pub(crate) fn wave(place: usize) -> i32
    requires { place < 48 }
    ensures value { result ≡ wave place }
    ensures small { unsigned_abs result < 2 ^ 16 }
{
    if place < 24 {
        half_wave(place)
    } else {
        -half_wave(place - 24)
    }
}

/// The value, lowered by so many thousandths and rounded down.
pub(crate) fn lowered(value: i32, depth: u32) -> i32
    requires value { unsigned_abs value < 2 ^ 16 }
    requires depth { depth < 10 }
    ensures value { result ≡ lowered value depth }
    ensures small { unsigned_abs result ≤ 65536 }
{
    (value * (1000 - depth as i32)).div_euclid(1000)
}
