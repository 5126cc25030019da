//! Intervals that were computed by exact fractions elsewhere.

use crate::{MatchFault, Scale, ScaleFault, Supply, match_lamp};
use flk_cfg::Analog;
use flk_num::{Lamp, List};
use flk_text::DecimalValue;
use std::alloc::{AllocError, Global};
use std::test::Fail;

const ZERO: DecimalValue = DecimalValue { n: 0 };

// 230 V and a microvolt.
const MAINS: Supply = Supply {
    nominal_mv: 230_000,
    uncertainty_uv: 1,
};

// 1 V and a hundredth of it.
const LOW: Supply = Supply {
    nominal_mv: 1000,
    uncertainty_uv: 10_000,
};

// 10 V and a 128th of it.
const TEN: Supply = Supply {
    nominal_mv: 10_000,
    uncertainty_uv: 78_125,
};

// 1000 V and a millivolt.
const HIGH: Supply = Supply {
    nominal_mv: 1_000_000,
    uncertainty_uv: 1000,
};

// 0.01, and 10000, in units of 10^-24.
const HUNDREDTH: i128 = 10_000_000_000_000_000_000_000;

const TEN_THOUSAND: i128 = 10_000_000_000_000_000_000_000_000_000;

fn channel(alloc: Global, unit: &[u8], a: i128, b: i128) -> Result<Analog, AllocError> {
    Ok(Analog {
        id: List::new(alloc),
        ph: List::new(alloc),
        ccbm: List::new(alloc),
        uu: List::from_slice(alloc, unit)?,
        a: DecimalValue { n: a },
        b: DecimalValue { n: b },
        skew: ZERO,
        min: ZERO,
        max: ZERO,
        primary: ZERO,
        secondary: ZERO,
        ps: b'P',
    })
}

// What a sample is answered: the ends of its interval and whether it is negative, or None over range. A channel without
// a scale answers nothing.
fn answer(
    alloc: Global,
    unit: &[u8],
    (a, b): (i128, i128),
    supply: Supply,
    x: i32,
) -> Result<Option<(i128, i128, bool)>, AllocError> {
    let Ok(scale) = Scale::new(&channel(alloc, unit, a, b)?, &supply) else {
        return Ok(Some((0, 0, false)));
    };
    match scale.voltage(x) {
        Ok(voltage) => Ok(Some((voltage.lo, voltage.hi, scale.negative(x)))),
        Err(_) => Ok(None),
    }
}

// A hundredth of a volt a step: 920 V is four times nominal, and a unit of 10^-24 of a volt more is above it.
#[test]
fn volts(rt: HostRuntime) -> Result<(), Fail> {
    for (b, x, expected) in [
        (
            0,
            23_000,
            Some((281_474_975_486_851, 281_474_977_934_461, false)),
        ),
        (
            0,
            92_000,
            Some((1_125_899_905_618_819, 1_125_899_908_066_429, false)),
        ),
        (
            0,
            -92_000,
            Some((-1_125_899_908_066_429, -1_125_899_905_618_819, true)),
        ),
        (0, 92_001, None),
        (0, -92_001, None),
        (1, 92_000, None),
        (-1, -92_000, None),
    ] {
        let answered = answer(rt.alloc(), b"V", (HUNDREDTH, b), MAINS, x)?;
        assert_eq!(rt; answered, expected, "{b} {x}");
    }
    Ok(())
}

// Kilovolts: 1.220703125E-5 a step, and 10^-24 a step.
#[test]
fn kilovolts(rt: HostRuntime) -> Result<(), Fail> {
    for (a, x, expected) in [
        (
            12_207_031_250_000_000_000,
            26_843,
            Some((92_231_564_226_245, 92_232_127_176_200, false)),
        ),
        (1, 2_147_483_647, Some((-281_474_977, 281_474_978, false))),
        (1, -2_147_483_648, Some((-281_474_978, 281_474_977, true))),
    ] {
        let answered = answer(rt.alloc(), b"kV", (a, 0), HIGH, x)?;
        assert_eq!(rt; answered, expected, "{a} {x}");
    }
    Ok(())
}

// Ends that are whole numbers of units of 2^-48, and the two next to them. A tenth of a volt's share is no whole number
// of units of 2^-64, and that of a 1024th of 10 V is 0.
#[test]
fn whole_ends(rt: HostRuntime) -> Result<(), Fail> {
    for (a, x, expected) in [
        (
            TEN_THOUSAND / 10_000,
            10,
            Some((279_275_953_455_104, 283_673_999_966_208, false)),
        ),
        (
            TEN_THOUSAND / 10_000,
            9,
            Some((251_128_455_784_038, 255_526_502_295_143, false)),
        ),
        (
            9_765_625_000_000_000_000_000,
            512,
            Some((138_538_465_099_776, 142_936_511_610_880, false)),
        ),
        (
            9_765_625_000_000_000_000_000,
            -512,
            Some((-142_936_511_610_880, -138_538_465_099_776, true)),
        ),
    ] {
        let answered = answer(rt.alloc(), b"V", (a, 0), TEN, x)?;
        assert_eq!(rt; answered, expected, "{a} {x}");
    }
    Ok(())
}

// The offset is a unit of 10^-24 below -2.5 V, which sample 81920 makes up for all but that unit.
#[test]
fn offsets(rt: HostRuntime) -> Result<(), Fail> {
    for (x, expected) in [
        (-99_999, None),
        (-1, Some((-706_510_781_478_339, -700_881_281_944_125, true))),
        (81_920, Some((-2_814_749_767_107, 2_814_749_767_107, true))),
        (81_921, Some((-2_806_159_832_515, 2_823_339_701_699, false))),
        (
            99_999,
            Some((152_482_677_721_661, 158_112_177_255_875, false)),
        ),
        (213_000, None),
    ] {
        let line = (
            30_517_578_125_000_000_000,
            -2_500_000_000_000_000_000_000_001,
        );
        let answered = answer(rt.alloc(), b"V", line, LOW, x)?;
        assert_eq!(rt; answered, expected, "{x}");
    }
    Ok(())
}

// The greatest multiplier and offset, where sample 1 is at 0 or a unit of 10^-24 kV below it.
#[test]
fn greatest_scale(rt: HostRuntime) -> Result<(), Fail> {
    for (a, b, x, expected) in [
        (
            TEN_THOUSAND,
            -TEN_THOUSAND,
            1,
            Some((-2_814_749_767_107, 2_814_749_767_107, false)),
        ),
        (
            -TEN_THOUSAND,
            TEN_THOUSAND - 1,
            1,
            Some((-2_814_749_767_107, 2_814_749_767_107, true)),
        ),
        (TEN_THOUSAND, -TEN_THOUSAND, 2, None),
        (TEN_THOUSAND, TEN_THOUSAND, 2_147_483_647, None),
        (TEN_THOUSAND, -TEN_THOUSAND, -2_147_483_648, None),
    ] {
        let answered = answer(rt.alloc(), b"KV", (a, b), LOW, x)?;
        assert_eq!(rt; answered, expected, "{a} {b} {x}");
    }
    Ok(())
}

// Units in letters of any case, and each fault: the greatest size of a and b is 10000.
#[test]
fn refusals(rt: HostRuntime) -> Result<(), Fail> {
    for (unit, a, b, fault) in [
        (b"kv".as_slice(), HUNDREDTH, 0, None),
        (b"v".as_slice(), TEN_THOUSAND, -TEN_THOUSAND, None),
        (b"A".as_slice(), HUNDREDTH, 0, Some(ScaleFault::Unit)),
        (
            b"mV".as_slice(),
            TEN_THOUSAND + 1,
            0,
            Some(ScaleFault::Unit),
        ),
        (
            b"V".as_slice(),
            TEN_THOUSAND + 1_000_000_000,
            0,
            Some(ScaleFault::Scale),
        ),
        (
            b"kV".as_slice(),
            0,
            -TEN_THOUSAND - 1,
            Some(ScaleFault::Scale),
        ),
    ] {
        let answered = Scale::new(&channel(rt.alloc(), unit, a, b)?, &MAINS);
        assert_eq!(rt; answered.err(), fault, "{a} {b}");
    }
    Ok(())
}

#[test]
fn lamps(rt: HostRuntime) {
    let hertz = |n: i128| DecimalValue {
        n: n * 1_000_000_000_000_000_000_000_000,
    };
    assert_eq!(rt; match_lamp(hertz(50)), Ok(Lamp::L230));
    assert_eq!(rt; match_lamp(hertz(60)), Ok(Lamp::L120));
    let lf = hertz(55);
    assert_eq!(rt; match_lamp(lf), Err(MatchFault::Lamp { hertz: 0, lf }));
}
