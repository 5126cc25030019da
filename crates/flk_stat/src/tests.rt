//! Values that were computed by long arithmetic elsewhere.

ghost use Rattle.std.specs.Prelude.{pos};
ghost use Rattle.flk_exact.specs.Rounding.{IsBetween};
ghost use Rattle.flk_stat.specs.Severity.{cap, IsLevelEnd};

use crate::{Levels, Smooth, percentile, plt, pst};
use flk_front::Point;
use flk_num::{Interval, Rate};
use std::test::Fail;

// 2^48
const ONE: i128 = 281_474_976_710_656;

#[test]
fn levels_at_2400(rt: HostRuntime) {
    let mut smooth = Smooth::new();
    assert_eq!(rt;
        smooth.step(Point {
            mid: ONE,
            radius: 0
        }),
        Interval {
            lo: 121_464_263_960_166_400,
            hi: 121_464_263_960_166_400
        }
    );
    assert_eq!(rt;
        smooth.step(Point {
            mid: -17_592_186_056_761,
            radius: 1_073_741_824
        }),
        Interval {
            lo: 121_769_975_468_463_731,
            hi: 121_770_091_305_812_713
        }
    );
    // 0 lies in the point
    assert_eq!(rt;
        smooth.step(Point {
            mid: 7,
            radius: 1_048_576
        }),
        Interval {
            lo: 121_600_850_512_615_942,
            hi: 121_600_966_189_079_730
        }
    );
    // 2^60 on both sides of 2^60, almost
    assert_eq!(rt;
        smooth.step(Point {
            mid: 1_152_921_504_606_846_976,
            radius: 1_152_921_504_606_846_975
        }),
        Interval {
            lo: 121_431_960_452_526_163,
            hi: 8_151_328_892_394_984_316_227_656
        }
    );
}

#[test]
fn levels_at_4800(rt: HostRuntime) {
    let mut smooth = Smooth::at(Rate::R4800);
    assert_eq!(rt;
        smooth.step(Point {
            mid: ONE,
            radius: 0
        }),
        Interval {
            lo: 60_732_131_980_083_200,
            hi: 60_732_131_980_083_200
        }
    );
    assert_eq!(rt;
        smooth.step(Point {
            mid: -17_592_186_056_761,
            radius: 1_073_741_824
        }),
        Interval {
            lo: 60_927_162_823_370_869,
            hi: 60_927_220_742_045_361
        }
    );
}

// The percentile of k tenths of a percent of levels in any order; None where there is none.
fn percentile_of(levels: &mut [i128], k: u16) -> Option<i128> {
    if levels.is_empty() || k < 1 || 1000 < k {
        return None;
    }
    levels.sort_unstable();
    Some(percentile(levels, k))
}

#[test]
fn levels_from_999_down(rt: HostRuntime) -> Result<(), Fail> {
    let mut levels: Vec<i128> = Vec::new(rt.alloc());
    for i in 0..999u16 {
        levels.push(999 - i128::from(i))?;
    }
    assert_eq!(rt; percentile_of(&mut levels, 1), Some(999));
    assert_eq!(rt; percentile_of(&mut levels, 7), Some(993));
    assert_eq!(rt; percentile_of(&mut levels, 500), Some(500));
    assert_eq!(rt; percentile_of(&mut levels, 800), Some(200));
    Ok(())
}

// The severity of one level.
fn severity_of_one(level: i128) -> i128
    requires { IsLevelEnd level }
{
    pst(&[level])
}

#[test]
fn one_level(rt: HostRuntime) {
    for k in 1..1001u16 {
        assert_eq!(rt; percentile_of(&mut [5], k), Some(5), "at {k}");
    }
    assert_eq!(rt; severity_of_one(0), 0);
    assert_eq!(rt; severity_of_one(ONE), 713_862_732);
    // 2^90
    assert_eq!(rt;
        severity_of_one(1_237_940_039_285_380_274_899_124_224),
        1_000_000_000_000
    );
}

// The long-term severity of eleven equal severities and one more.
fn long_term_of(v: i128, last: i128) -> i128
    requires eleven { IsBetween (pos 0) cap v }
    requires last { IsBetween (pos 0) cap last }
{
    plt(&[v, v, v, v, v, v, v, v, v, v, v, last])
}

#[test]
fn long_term(rt: HostRuntime) {
    assert_eq!(rt;
        long_term_of(1_000_000_000_000, 1_000_000_000_000),
        1_000_000_000_000
    );
    assert_eq!(rt; long_term_of(650_000_000, 650_000_000), 650_000_000);
    assert_eq!(rt; long_term_of(650_000_000, 650_000_001), 650_000_001);
    assert_eq!(rt; long_term_of(0, 1_000_000_000), 436_790_233);
}

#[test]
fn levels_of_one_interval(rt: HostRuntime) -> Result<(), Fail> {
    let mut levels = Levels::new(rt.alloc(), 2)?;
    assert_eq!(rt; levels.room(), 2);
    levels.add(Interval { lo: 0, hi: ONE });
    levels.add(Interval { lo: 0, hi: 0 });
    assert_eq!(rt; levels.room(), 0);
    // P0.1 to P50 are the greater level, P80 the lesser one
    assert_eq!(rt;
        levels.end(),
        Interval {
            lo: 0,
            hi: 694_934_050
        }
    );
    assert_eq!(rt; levels.room(), 2);
    // the next interval knows nothing of it
    levels.add(Interval { lo: ONE, hi: ONE });
    levels.add(Interval { lo: ONE, hi: ONE });
    assert_eq!(rt;
        levels.end(),
        Interval {
            lo: 713_862_732,
            hi: 713_862_732
        }
    );
    Ok(())
}

// Adds a level of so many parts in 1024 and its upper end, where there is room.
fn add_level(levels: &mut Levels, parts: u32) {
    if 0 < levels.room() {
        let lo = i128::from(parts) * 274_877_906_944;
        levels.add(Interval {
            lo,
            hi: lo + 1_048_576,
        });
    }
}

// The severity of an interval whose room is used up.
fn severity_at_end(levels: &mut Levels) -> Option<Interval> {
    if levels.room() == 0 {
        Some(levels.end())
    } else {
        None
    }
}

// As many levels as are selected from.
#[test]
fn levels_in_no_order(rt: HostRuntime) -> Result<(), Fail> {
    let mut levels = Levels::new(rt.alloc(), 1999)?;
    for i in 0..1999u32 {
        add_level(&mut levels, i * 700 % 1999);
    }
    assert_eq!(rt;
        severity_at_end(&mut levels),
        Some(Interval {
            lo: 920_504_632,
            hi: 920_504_633
        })
    );
    Ok(())
}

// Adds a level from 2^64 - 700 * 2^54 upward, in steps of 2^54, where there is room. Its upper end is 2^52 greater.
fn add_great_level(levels: &mut Levels, steps: u32) {
    if 0 < levels.room() {
        let lo = 5_836_665_117_072_162_816 + i128::from(steps) * 18_014_398_509_481_984;
        levels.add(Interval {
            lo,
            hi: lo + 4_503_599_627_370_496,
        });
    }
}

// 300 levels are at least 2^64: P30 of the lower ends is just that.
#[test]
fn levels_on_both_sides_of_64_bits(rt: HostRuntime) -> Result<(), Fail> {
    let mut levels = Levels::new(rt.alloc(), 1000)?;
    for i in 0..1000u32 {
        add_great_level(&mut levels, i * 701 % 1000);
    }
    assert_eq!(rt;
        severity_at_end(&mut levels),
        Some(Interval {
            lo: 195_828_093_320,
            hi: 195_848_910_473
        })
    );
    Ok(())
}

// Adds a level from a lower end that fits 64 bits to an upper one 2^20 greater, where there is room.
fn add_narrow_level(levels: &mut Levels, lo: u64) {
    if 0 < levels.room() {
        let lo = i128::from(lo);
        levels.add(Interval {
            lo,
            hi: lo + 1_048_576,
        });
    }
}

// As many levels as are selected from, all in one bucket.
#[test]
fn equal_levels(rt: HostRuntime) -> Result<(), Fail> {
    let mut levels = Levels::new(rt.alloc(), 1000)?;
    for _ in 0..1000u32 {
        add_narrow_level(&mut levels, 281_474_976_710_656);
    }
    assert_eq!(rt;
        severity_at_end(&mut levels),
        Some(Interval {
            lo: 713_862_732,
            hi: 713_862_734
        })
    );
    Ok(())
}

// From 2^33 to 2^44, and one level of 10^6 * 2^43.
fn level_with_a_spike(i: u32) -> u64 {
    if i == 77 {
        8_796_093_022_208_000_000
    } else {
        (u64::from(i) * 701 % 2048 + 1) * 8_589_934_592
    }
}

// Each 32nd is small, so that the guess by evenly spaced levels leaves nearly all others in the last bucket.
fn level_with_small_ones(i: u32) -> u64 {
    if i % 32 == 0 {
        u64::from(i)
    } else {
        u64::from(i) * 701 % 2048 * 70_368_744_177_664
    }
}

#[test]
fn intervals_of_many_sizes_in_turn(rt: HostRuntime) -> Result<(), Fail> {
    let mut levels = Levels::new(rt.alloc(), 2048)?;
    for i in 0..2048u32 {
        add_narrow_level(&mut levels, level_with_a_spike(i));
    }
    assert_eq!(rt;
        severity_at_end(&mut levels),
        Some(Interval {
            lo: 164_783_044,
            hi: 164_783_050
        })
    );
    for i in 0..2048u32 {
        add_narrow_level(&mut levels, level_with_small_ones(i));
    }
    assert_eq!(rt;
        severity_at_end(&mut levels),
        Some(Interval {
            lo: 14_866_597_067,
            hi: 14_866_597_067
        })
    );
    Ok(())
}
