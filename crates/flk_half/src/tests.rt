//! Half-periods of a square wave: the values are its voltage times the root of the number of samples over `half`. And
//! values of sums beside exact squares.

use crate::Cutter;
use flk_num::Interval;
use std::process::Abort;

const NOMINAL: Interval = Interval {
    lo: 281_474_976_710_656,
    hi: 281_474_976_710_656,
};

const MINUS_NOMINAL: Interval = Interval {
    lo: -281_474_976_710_656,
    hi: -281_474_976_710_656,
};

// 12 samples that aren't negative are enough for a cut where the sign changes; the next one comes after 48 samples.
#[test]
fn a_change_of_sign_after_half_of_them(rt: HostRuntime) {
    let mut cutter = Cutter::new(24);
    for _ in 0..12 {
        assert_eq!(rt; cutter.push(false, NOMINAL), None);
    }
    for push in 13..62 {
        let value = match push {
            13 => Some(707_106_781),
            61 => Some(1_414_213_562),
            _ => None,
        };
        let expected = value.map(|w| Interval { lo: w, hi: w });
        assert_eq!(rt; cutter.push(true, MINUS_NOMINAL), expected, "push {push}");
    }
}

// 11 are too few, and the half-period goes on over the change of sign.
#[test]
fn a_change_of_sign_too_early(rt: HostRuntime) {
    let mut cutter = Cutter::new(24);
    for _ in 0..11 {
        assert_eq!(rt; cutter.push(false, NOMINAL), None);
    }
    for push in 12..61 {
        let expected = (push == 49).then_some(Interval {
            lo: 1_414_213_562,
            hi: 1_414_213_562,
        });
        assert_eq!(rt; cutter.push(true, MINUS_NOMINAL), expected, "push {push}");
    }
}

const ONE: i128 = 281_474_976_710_656;

// A voltage of 20 samples, the voltages of four more, and the value of the 24.
const STEPS: [(i128, [i128; 4], i128); 12] = [
    (ONE, [ONE; 4], 1_000_000_000),
    (28_147_497_671_065, [28_147_497_671_065; 4], 99_999_999),
    (ONE, [ONE; 4], 1_000_000_000),
    (0, [0; 4], 0),
    (1, [1; 4], 0),
    (5 * ONE, [5 * ONE; 4], 5_000_000_000),
    // The sum that is one unit less than that of 24 times nominal.
    (
        ONE,
        [
            262_664_073_884_153,
            308_374_480_418_301,
            371_974_847_040_113,
            120_250_269_620_758,
        ],
        999_999_999,
    ),
    // Exact squares whose low bits the guess leaves out, and the sum that is one unit less than that of the second one.
    (549_755_813_888, [549_755_813_888; 4], 1_953_125),
    (549_755_813_887, [549_755_813_887; 4], 1_953_124),
    (1_649_267_441_664, [1_649_267_441_664; 4], 5_859_375),
    (
        1_649_267_441_664,
        [
            1_462_231_743_915,
            1_933_630_699_091,
            2_106_499_801_654,
            752_290_907_019,
        ],
        5_859_374,
    ),
    (ONE, [ONE; 4], 1_000_000_000),
];

fn push(rt: &impl Abort, cutter: &mut Cutter, negative: bool, voltage: i128) -> Option<Interval> {
    assert!(rt; voltage.unsigned_abs() <= 1_407_374_883_553_280);
    let interval = Interval {
        lo: voltage,
        hi: voltage,
    };
    cutter.push(negative, interval)
}

#[test]
fn values_after_one_another(rt: HostRuntime) {
    let mut cutter = Cutter::new(24);
    let mut negative = false;
    let mut ended = None;
    for (voltage, others, value) in STEPS {
        assert_eq!(rt;
            push(&rt, &mut cutter, negative, voltage),
            ended,
            "before {value}"
        );
        for _ in 0..19 {
            assert_eq!(rt; push(&rt, &mut cutter, negative, voltage), None);
        }
        for other in others {
            assert_eq!(rt; push(&rt, &mut cutter, negative, other), None);
        }
        negative = !negative;
        ended = Some(value).map(|w| Interval { lo: w, hi: w });
    }
    assert_eq!(rt; push(&rt, &mut cutter, negative, 0), ended);
}

// 96 samples of which each may be five times nominal.
#[test]
fn the_greatest_sum(rt: HostRuntime) {
    let wide = Interval {
        lo: -5 * ONE,
        hi: 5 * ONE,
    };
    let mut cutter = Cutter::new(48);
    for _ in 0..96 {
        assert_eq!(rt; cutter.push(false, wide), None);
    }
    let expected = Some(Interval {
        lo: 0,
        hi: 7_071_067_811,
    });
    assert_eq!(rt; cutter.push(false, wide), expected);
}
