//! Values that were computed by long arithmetic elsewhere.

use crate::{
    Interval, Squares, ceil_div, cube_root_ceil, exact_squares, floor_div, quotient_out, root_ceil,
    root_floor, scaled_ceil, scaled_floor, square_out, whole_near,
};

#[test]
fn quotients(rt: HostRuntime) {
    assert_eq!(rt; floor_div(-7, 2), -4);
    assert_eq!(rt; ceil_div(-7, 2), -3);
    // a product of 190 bits
    let v = 85_070_591_730_234_615_865_843_651_857_942_052_863;
    let num = 18_446_744_073_709_551_615;
    let den = 39_614_081_257_132_168_796_771_987_513;
    assert_eq!(rt;
        scaled_floor(v, num, den),
        39_614_081_257_132_168_794_624_479_174
    );
    assert_eq!(rt;
        scaled_ceil(v, num, den),
        39_614_081_257_132_168_794_624_479_175
    );
    // a negative one
    let v = -42_535_295_865_117_307_932_921_825_929_958_680_753;
    let num = 15_000_000_000_000_000_019;
    let den = 1_237_940_039_285_380_274_899_124_221;
    assert_eq!(rt;
        scaled_floor(v, num, den),
        -515_396_075_520_000_000_652_835_030_253
    );
    assert_eq!(rt;
        scaled_ceil(v, num, den),
        -515_396_075_520_000_000_652_835_030_252
    );
    // a whole quotient
    let v = -7_427_640_235_712_281_649_394_745_344;
    assert_eq!(rt;
        scaled_floor(v, 1_073_741_824, 3_298_534_883_328),
        -2_417_851_639_229_258_349_412_352
    );
    assert_eq!(rt;
        scaled_ceil(v, 1_073_741_824, 3_298_534_883_328),
        -2_417_851_639_229_258_349_412_352
    );
}

#[test]
fn quotients_of_intervals(rt: HostRuntime) {
    // 3 * 2^4 / 7 and 5 * 2^4 / 6
    assert_eq!(rt;
        quotient_out(Interval { lo: 3, hi: 5 }, Interval { lo: 6, hi: 7 }, 4),
        Interval { lo: 6, hi: 14 }
    );
    // whole quotients
    assert_eq!(rt;
        quotient_out(Interval { lo: 0, hi: 12 }, Interval { lo: 6, hi: 6 }, 0),
        Interval { lo: 0, hi: 2 }
    );
    // a dividend of nearly 2^126
    let high = 4_611_686_018_427_387_903;
    assert_eq!(rt;
        quotient_out(
            Interval { lo: high, hi: high },
            Interval { lo: 1, hi: 5 },
            64
        ),
        Interval {
            lo: 17_014_118_346_046_923_169_479_381_556_846_500_249,
            hi: 85_070_591_730_234_615_847_396_907_784_232_501_248
        }
    );
}

#[test]
fn roots(rt: HostRuntime) {
    let values = [
        (0, 0),
        (1, 1),
        (3, 1),
        (4, 2),
        (999_999_999_999_999_999, 999_999_999),
        (1_000_000_000_000_000_000, 1_000_000_000),
        (18_446_744_073_709_551_615, 4_294_967_295),
        (18_446_744_073_709_551_616, 4_294_967_296),
        (
            85_070_591_730_234_615_865_843_651_857_942_052_863,
            9_223_372_036_854_775_807,
        ),
    ];
    for (v, root) in values {
        if 0 <= v && v < 85_070_591_730_234_615_865_843_651_857_942_052_864 {
            assert_eq!(rt; root_floor(v), root, "at {v}");
        }
    }
}

#[test]
fn roots_rounded_up(rt: HostRuntime) {
    assert_eq!(rt; root_ceil(0), 0);
    assert_eq!(rt; root_ceil(1), 1);
    assert_eq!(rt; root_ceil(2), 2);
    assert_eq!(rt; root_ceil(4), 2);
    assert_eq!(rt; root_ceil(509_600_000_000_000_000), 713_862_732);
    assert_eq!(rt;
        root_ceil(85_070_591_730_234_615_865_843_651_857_942_052_863),
        9_223_372_036_854_775_808
    );
    assert_eq!(rt; cube_root_ceil(0), 0);
    assert_eq!(rt; cube_root_ceil(1), 1);
    assert_eq!(rt; cube_root_ceil(2), 2);
    assert_eq!(rt; cube_root_ceil(8), 2);
    assert_eq!(rt; cube_root_ceil(9), 3);
    assert_eq!(rt;
        cube_root_ceil(1_000_000_000_000_000_000_000_000_000_000_000_000),
        1_000_000_000_000
    );
    assert_eq!(rt;
        cube_root_ceil(85_070_591_730_234_615_865_843_651_857_942_052_863),
        4_398_046_511_104
    );
}

#[test]
fn squares(rt: HostRuntime) {
    assert_eq!(rt;
        square_out(Interval { lo: -3, hi: 2 }),
        Interval { lo: 0, hi: 9 }
    );
    assert_eq!(rt;
        square_out(Interval { lo: -3, hi: -2 }),
        Interval { lo: 4, hi: 9 }
    );
    assert_eq!(rt;
        exact_squares(Interval { lo: -3, hi: 2 }),
        Squares {
            least: 0,
            greatest: 9
        }
    );
    let high = 9_223_372_036_854_775_807;
    assert_eq!(rt;
        square_out(Interval { lo: 2, hi: high }),
        Interval {
            lo: 4,
            hi: 85_070_591_730_234_615_847_396_907_784_232_501_249
        }
    );
}

// What is promised of it is its size alone: here is what it is for.
#[test]
fn whole_numbers_near(rt: HostRuntime) {
    assert_eq!(rt; whole_near(0.0), 0);
    assert_eq!(rt; whole_near(0.75), 0);
    assert_eq!(rt; whole_near(3.75), 3);
    assert_eq!(rt; whole_near(4.0), 4);
    assert_eq!(rt; whole_near(281474976710656.25), 281_474_976_710_656);
    assert_eq!(rt; whole_near(4503599627370495.0), 4_503_599_627_370_494);
    assert_eq!(rt; whole_near(4503599627370497.0), 0);
    assert_eq!(rt; whole_near(-3.0), 0);
}
