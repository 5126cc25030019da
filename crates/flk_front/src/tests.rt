//! Points that were computed by long arithmetic elsewhere, and quotients beside plain divisions.

ghost use Rattle.std.specs.Prelude.{◌*◌, ◌^◌, ◌≤◌};

use crate::ends::{Ends, quotients};
use crate::{Front, Point};
use flk_num::{Interval, Rate};
use std::process::Abort;

const ONE: Interval = Interval {
    lo: 281_474_976_710_656,
    hi: 281_474_976_710_656,
};

#[test]
fn nominal_voltage(rt: HostRuntime) {
    let mut front = Front::new();
    for _ in 0..1000 {
        assert_eq!(rt;
            front.push(ONE),
            Point {
                mid: 281_474_976_710_656,
                radius: 0
            }
        );
    }
}

#[test]
fn nominal_voltage_after_none(rt: HostRuntime) {
    let mut front = Front::new();
    assert_eq!(rt;
        front.push(Interval { lo: 0, hi: 0 }),
        Point { mid: 0, radius: 0 }
    );
    assert_eq!(rt;
        front.push(ONE),
        Point {
            mid: 281_479_271_743_489,
            radius: 1
        }
    );
}

#[test]
fn uncertain_voltages(rt: HostRuntime) {
    let near = Interval {
        lo: 281_474_976_703_000,
        hi: 281_474_976_718_314,
    };
    let below = Interval {
        lo: -281_474_976_718_314,
        hi: -281_474_976_703_000,
    };
    let wide = Interval {
        lo: -1_131_529_406_376_837,
        hi: 1_131_529_406_376_837,
    };
    let mut front = Front::new();
    assert_eq!(rt;
        front.push(near),
        Point {
            mid: 281_474_976_710_658,
            radius: 15_315
        }
    );
    assert_eq!(rt;
        front.push(below),
        Point {
            mid: 281_474_976_710_658,
            radius: 15_316
        }
    );
    assert_eq!(rt;
        front.push(wide),
        Point {
            mid: 2_274_374_106_817_446,
            radius: 2_274_374_106_817_447
        }
    );
    assert_eq!(rt;
        front.push(near),
        Point {
            mid: 281_444_575_045_560,
            radius: 34_696_713_247
        }
    );
}

#[test]
fn uncertain_voltages_at_4800(rt: HostRuntime) {
    let wide = Interval {
        lo: -1_131_529_406_376_837,
        hi: 1_131_529_406_376_837,
    };
    let mut front = Front::at(Rate::R4800);
    front.push(wide);
    assert_eq!(rt;
        front.push(ONE),
        Point {
            mid: 281_459_773_987_736,
            radius: 17_350_222_953
        }
    );
}

// 33 * 2^47
const GREATEST_SQUARE: u128 = 4_644_337_115_725_824;

fn divides(rt: &impl Abort, square: u128, divisor: u128)
    requires square_small { 2 * square ≤ 33 * 2 ^ 48 }
    requires divisor_low { 2 ^ 62 ≤ divisor }
    requires divisor_small { divisor ≤ 17 * 2 ^ 64 }
{
    let squares = Ends {
        lo: square,
        hi: square,
    };
    let divisors = Ends {
        lo: divisor,
        hi: divisor,
    };
    let plain = Ends {
        lo: (square << 64) / divisor,
        hi: (square << 64).div_ceil(divisor),
    };
    assert_eq!(rt; quotients(squares, divisors), plain);
}

fn divides_squares(rt: &impl Abort, divisor: u128)
    requires divisor_low { 2 ^ 62 ≤ divisor }
    requires divisor_small { divisor ≤ 17 * 2 ^ 64 }
{
    divides(rt, 0, divisor);
    divides(rt, 1, divisor);
    divides(rt, 562_949_953_421_311, divisor);
    divides(rt, GREATEST_SQUARE - 1, divisor);
    divides(rt, GREATEST_SQUARE, divisor);
}

// At the least divisor the quotients of the greatest squares are above every guess: they are taken by full divisions.
#[test]
fn quotients_by_the_least_divisors(rt: HostRuntime) {
    divides_squares(&rt, 1 << 62);
    divides_squares(&rt, (1 << 62) + 1);
}

#[test]
fn quotients_by_divisors_about_2_to_65(rt: HostRuntime) {
    divides_squares(&rt, (1 << 65) - 1);
    divides_squares(&rt, 1 << 65);
}

#[test]
fn quotients_by_the_greatest_divisors(rt: HostRuntime) {
    divides_squares(&rt, (17 << 64) - 1);
    divides_squares(&rt, 17 << 64);
}

#[test]
fn quotients_without_a_rest(rt: HostRuntime) {
    let three = Ends {
        lo: 3 << 48,
        hi: 3 << 48,
    };
    let seventeen = Ends {
        lo: 17 << 43,
        hi: 17 << 43,
    };
    assert_eq!(rt;
        quotients(
            three,
            Ends {
                lo: 3 << 62,
                hi: 3 << 62
            }
        ),
        Ends {
            lo: 1 << 50,
            hi: 1 << 50
        }
    );
    assert_eq!(rt;
        quotients(
            three,
            Ends {
                lo: 3 << 64,
                hi: 3 << 64
            }
        ),
        Ends {
            lo: 1 << 48,
            hi: 1 << 48
        }
    );
    assert_eq!(rt;
        quotients(
            seventeen,
            Ends {
                lo: 17 << 64,
                hi: 17 << 64
            }
        ),
        Ends {
            lo: 1 << 43,
            hi: 1 << 43
        }
    );
}
