//! Runs of a section and of a cascade. The answers were computed by long arithmetic elsewhere.

use crate::radius::{next_radius, starts_at_rest};
use crate::{Cascade, Section, Whole, fits, whole_of};
use flk_cert::{Coefs, Gain, check, make};
use flk_design::{design, design_at};
use flk_front::Point;
use flk_num::{Lamp, Rate};
use std::test::Fail;

// 1, in units.
const ONE: i128 = 281_474_976_710_656;

// The gain of the certificate that is made for the section.
fn gain_of(rt: &HostRuntime, k: &Coefs) -> Result<Gain, Fail> {
    let cert = make(rt.alloc(), k)?;
    match check(k, &cert) {
        Ok(gain) => Ok(gain),
        Err(_) => Err(Fail::new("the certificate is refused")),
    }
}

// The gains of the lamp's sections.
fn gains_of(rt: &HostRuntime, lamp: Lamp, rate: Rate) -> Result<[Gain; 7], Fail> {
    let sections = design_at(lamp, rate);
    let mut gains = [gain_of(rt, &sections[0])?; 7];
    for i in 1..7 {
        gains[i] = gain_of(rt, &sections[i])?;
    }
    Ok(gains)
}

// The bound of the whole cascade with these gains.
fn whole_with(gains: &[Gain; 7]) -> Result<Whole, Fail> {
    if !fits(gains) {
        return Err(Fail::new("the gains do not fit"));
    }
    match whole_of(gains) {
        Some(whole) => Ok(whole),
        None => Err(Fail::new("there is no bound of the whole cascade")),
    }
}

// The bound of the lamp's whole cascade.
fn lamp_whole(rt: &HostRuntime, lamp: Lamp, rate: Rate) -> Result<Whole, Fail> {
    let gains = gains_of(rt, lamp, rate)?;
    whole_with(&gains)
}

#[test]
fn high_pass_at_rest(rt: HostRuntime) -> Result<(), Fail> {
    let gain = gain_of(&rt, &design(Lamp::L230)[0])?;
    assert!(rt; starts_at_rest(&gain.coefs()));
    assert!(rt; gain.input() < 68_719_476_736);
    let mut section = Section::new(gain, true);
    for _ in 0..1000 {
        assert_eq!(rt; section.step(ONE), 0);
    }
    Ok(())
}

// A lamp at a rate: the inputs and the roundings of its gains, the radii that follow from 0 by them, the bound of the
// input's error that they give behind the last section, the input and the rounding of the sections behind the first in
// a row, and the radius that follows from 0.
#[derive(Clone, Copy)]
struct Row {
    lamp: Lamp,
    rate: Rate,
    inputs: [i128; 7],
    roundings: [i128; 7],
    radii: [i128; 7],
    own_input: i128,
    input: i128,
    rounding: i128,
    radius: i128,
}

const ROWS: [Row; 4] = [
    Row {
        lamp: Lamp::L230,
        rate: Rate::R2400,
        inputs: [
            8_589_372_418,
            10_805_343_346,
            4_725_168_167,
            4_359_395_411,
            10_987_079_482,
            4_294_967_296,
            4_294_967_279,
        ],
        roundings: [15_280, 924, 420, 396, 8_109, 625, 36],
        radii: [15_280, 39_366, 43_730, 44_782, 122_668, 123_293, 123_329],
        own_input: 30_866_315_035,
        input: 5_623_851_965,
        rounding: 7_593,
        radius: 27_601,
    },
    Row {
        lamp: Lamp::L230,
        rate: Rate::R4800,
        inputs: [
            8_589_653_496,
            10_800_086_371,
            4_741_867_983,
            4_361_172_101,
            10_987_163_940,
            4_294_967_920,
            4_294_967_296,
        ],
        roundings: [30_559, 3_640, 1_630, 1_517, 32_259, 1_248, 71],
        radii: [30_559, 80_484, 90_489, 93_401, 271_193, 272_442, 272_513],
        own_input: 30_973_194_279,
        input: 6_717_076_954,
        rounding: 30_523,
        radius: 78_316,
    },
    Row {
        lamp: Lamp::L120,
        rate: Rate::R2400,
        inputs: [
            8_589_372_418,
            10_809_811_738,
            4_749_044_982,
            4_357_308_644,
            10_011_724_524,
            4_294_967_296,
            4_294_967_296,
        ],
        roundings: [15_280, 646, 297, 280, 8_066, 549, 46],
        radii: [15_280, 39_104, 43_536, 44_448, 111_676, 112_225, 112_271],
        own_input: 28_266_500_524,
        input: 4_337_173_095,
        rounding: 6_755,
        radius: 22_186,
    },
    Row {
        lamp: Lamp::L120,
        rate: Rate::R4800,
        inputs: [
            8_589_653_496,
            10_801_838_437,
            4_736_037_231,
            4_359_667_573,
            9_945_482_157,
            4_294_967_296,
            4_294_967_296,
        ],
        roundings: [30_559, 2_535, 1_138, 1_062, 31_866, 1_097, 90],
        radii: [30_559, 79_391, 88_683, 91_081, 242_775, 243_872, 243_962],
        own_input: 27_997_059_435,
        input: 4_882_878_129,
        rounding: 26_437,
        radius: 61_180,
    },
];

#[test]
fn own_gains(rt: HostRuntime) -> Result<(), Fail> {
    for row in ROWS {
        let gains = gains_of(&rt, row.lamp, row.rate)?;
        assert!(rt; fits(&gains));
        let mut radius = 0;
        let mut own_input = 4_294_967_296;
        for i in 0..7 {
            let gain = gains[i];
            assert_eq!(rt; gain.input(), row.inputs[i]);
            assert_eq!(rt; gain.rounding(), row.roundings[i]);
            assert!(rt; gain.input() < 68_719_476_736);
            assert!(rt; radius >= 0 && radius < 1_000_000_000_000);
            radius = next_radius(gain.input(), gain.rounding(), radius);
            assert_eq!(rt; radius, row.radii[i]);
            if i > 0 {
                assert!(rt; own_input >= 0);
                assert!(rt; own_input < 1_000_000_000_000);
                own_input = next_radius(gain.input(), 0, own_input);
            }
        }
        assert_eq!(rt; own_input, row.own_input);
    }
    Ok(())
}

// The bound of the sections in a row is smaller than what their own gains give.
#[test]
fn whole_cascade(rt: HostRuntime) -> Result<(), Fail> {
    for row in ROWS {
        let whole = lamp_whole(&rt, row.lamp, row.rate)?;
        assert_eq!(rt; whole.input(), row.input);
        assert_eq!(rt; whole.rounding(), row.rounding);
        assert!(rt; whole.input() < row.own_input);
        assert_eq!(rt; whole.gains()[6].input(), row.inputs[6]);
        let mut cascade = Cascade::new(whole);
        for _ in 0..1000 {
            let answer = cascade.step(Point {
                mid: ONE,
                radius: 0,
            });
            assert_eq!(rt;
                answer,
                Point {
                    mid: 0,
                    radius: row.radius
                }
            );
        }
    }
    Ok(())
}

// A point's middle and radius, and those of the answer.
const CHANGING: [(i128, i128, i128, i128); 5] = [
    (0, 0, -678, 27_601),
    (3 * ONE, 1000, -9200, 30_220),
    (ONE, 10, -60_784, 30_220),
    (ONE / 2, 0, -261_950, 30_220),
    (0, 2000, -832_286, 32_839),
];

#[test]
fn changing_points(rt: HostRuntime) -> Result<(), Fail> {
    let mut cascade = Cascade::new(lamp_whole(&rt, Lamp::L230, Rate::R2400)?);
    for (mid, radius, last_mid, last_radius) in CHANGING {
        assert!(rt; mid >= 0 && mid <= 66 * ONE && radius >= 0 && radius <= 66 * ONE);
        let answer = cascade.step(Point { mid, radius });
        assert_eq!(rt;
            answer,
            Point {
                mid: last_mid,
                radius: last_radius
            }
        );
    }
    Ok(())
}

// A point's middle, and that of the answer where the band-pass and the last lag are exchanged.
const EXCHANGED: [(i128, i128); 5] = [
    (0, -678),
    (3 * ONE, -9200),
    (ONE, -60_784),
    (ONE / 2, -261_950),
    (0, -832_288),
];

// Sections in another order than a design's.
#[test]
fn exchanged_sections(rt: HostRuntime) -> Result<(), Fail> {
    let mut gains = gains_of(&rt, Lamp::L230, Rate::R2400)?;
    let band_pass = gains[4];
    gains[4] = gains[6];
    gains[6] = band_pass;
    let mut cascade = Cascade::new(whole_with(&gains)?);
    assert!(rt; !cascade.of_design);
    for (mid, last_mid) in EXCHANGED {
        assert!(rt; mid >= 0 && mid <= 66 * ONE);
        assert_eq!(rt; cascade.step(Point { mid, radius: 0 }).mid, last_mid);
    }
    Ok(())
}

// The same cascade, which takes its sections as of any kind.
fn of_any_kind(cascade: &Cascade) -> Cascade {
    let mut any = *cascade;
    any.of_design = false;
    any
}

// The sections of a design answer alike by their kinds and as sections of any kind.
#[test]
fn sections_by_kind(rt: HostRuntime) -> Result<(), Fail> {
    for row in ROWS {
        let mut by_kind = Cascade::new(lamp_whole(&rt, row.lamp, row.rate)?);
        assert!(rt; by_kind.of_design);
        let mut any = of_any_kind(&by_kind);
        for i in 0..1000u32 {
            let mid = i128::from(i) * 98_765_432_109_877 % (66 * ONE);
            let p = Point { mid, radius: 0 };
            assert_eq!(rt; by_kind.step(p), any.step(p));
        }
    }
    Ok(())
}
