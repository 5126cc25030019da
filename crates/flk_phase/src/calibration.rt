//! The flickermeter at the sine of 8.8 Hz by which IEC 61000-4-15 is calibrated: at 230 V and 50 Hz a relative change
//! of 0.250 percent from trough to peak gives an instantaneous flicker sensation of 1 at its peaks.

ghost use Rattle.flk_num.specs.Interval.{IsSmall};

use crate::meter::Meter;
use crate::tests::lamp_whole;
use flk_num::{Interval, Lamp, Rate};
use std::test::Fail;

// A sine in units of 2^-60: each value follows from the two before it.
#[derive(Clone, Copy)]
struct Sine {
    twice_cosine: i128,
    before: i128,
    now: i128,
}

impl Sine {
    // From 0 on, by twice the cosine and by the sine of the step.
    fn new(twice_cosine: i128, sine: i128) -> Sine {
        Sine {
            twice_cosine,
            before: sine.wrapping_neg(),
            now: 0,
        }
    }

    fn next(&mut self) -> i128 {
        let now = self.now;
        let product = self.twice_cosine.wrapping_mul(now) >> 60;
        self.now = product.wrapping_sub(self.before);
        self.before = now;
        now
    }
}

// Twice nominal, in units of 2^-48.
const TWICE: i128 = 562_949_953_421_312;

// The root of 2, in units of 2^-48.
const ROOT: i128 = 398_065_729_532_861;

// The voltage of an amplitude that is 1/800 of a sine away from nominal.
fn voltage(mains: i128, change: i128) -> Interval
    ensures { IsSmall result }
{
    let carrier = ROOT.wrapping_mul(mains) >> 60;
    let v = carrier.wrapping_add(carrier.wrapping_mul(change / 800) >> 60);
    let v = v.clamp(-TWICE, TWICE);
    Interval { lo: v, hi: v }
}

// The greatest upper end of the levels of the second of two minutes, in units of 2^-48.
fn greatest_level(meter: &mut Meter) -> i128 {
    let mut mains = Sine::new(2_286_116_202_619_640_643, 150_486_453_924_944_405);
    let mut change = Sine::new(2_305_231_105_444_580_500, 26_559_055_096_242_007);
    let mut greatest = 0;
    for n in 0..288_000 {
        let point = meter.adapt(voltage(mains.next(), change.next()));
        let level = meter.weigh(point);
        if n >= 144_000 {
            greatest = level.hi.max(greatest);
        }
    }
    greatest
}

#[test]
fn sine_of_8_8_hertz(rt: HostRuntime) -> Result<(), Fail> {
    let whole = lamp_whole(rt.alloc(), Lamp::L230, Rate::R2400)?;
    let mut meter = Meter::new(Rate::R2400, whole);
    let greatest = greatest_level(&mut meter);
    // 0.99 and 1.01, in units of 2^-48
    assert!(rt; 278_660_226_883_649 < greatest);
    assert!(rt; greatest < 284_289_726_417_863);
    Ok(())
}
