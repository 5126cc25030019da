//! Worked examples, at 50 Hz unless a test says otherwise. Values are in billionths of nominal.

use crate::{ChangeSummary, Extreme, Flag, OutOfMemory, Steady, changes};
use flk_num::Interval;
use std::alloc::Global;
use std::test::Fail;

fn between(lo: i128, hi: i128) -> Interval {
    Interval { lo, hi: hi.max(lo) }
}

// So many half-periods more with this interval.
fn add(halves: &mut Vec<Interval>, count: usize, half: Interval) -> Result<(), OutOfMemory> {
    for _ in 0..count {
        halves.push(half)?;
    }
    Ok(())
}

// The flags of the half-periods and what `changes` answers for them; None where one is out of range.
fn judged(
    alloc: Global,
    halves: &[Interval],
    window: usize,
) -> Result<Option<ChangeSummary>, OutOfMemory> {
    if window < 1 || 240 < window || 4_294_967_295 <= halves.len() {
        return Ok(None);
    }
    let mut steady = Steady::new(alloc, window)?;
    let mut flags: Vec<Flag> = Vec::new(alloc);
    for half in halves {
        if half.lo < 0 || 10_000_000_000 < half.hi {
            return Ok(None);
        }
        flags.push(steady.push(*half))?;
    }
    Ok(Some(changes(halves, &flags, window)))
}

fn summary(dc: Interval, dmax: Interval, t: Interval, doubtful: u32) -> Option<ChangeSummary> {
    Some(ChangeSummary {
        dc,
        dmax,
        t,
        doubtful,
    })
}

#[test]
fn dip_of_sixty_half_periods(rt: HostRuntime) -> Result<(), Fail> {
    let mut halves = Vec::new(rt.alloc());
    add(&mut halves, 300, between(990_000_000, 990_000_000))?;
    add(&mut halves, 60, between(955_000_000, 955_000_000))?;
    add(&mut halves, 200, between(990_000_000, 990_000_000))?;
    let none = between(0, 0);
    let dmax = between(35_000_000, 35_000_000);
    assert_eq!(rt;
        judged(rt.alloc(), &halves, 100)?,
        summary(none, dmax, between(60, 60), 0)
    );
    Ok(())
}

#[test]
fn one_window_in_doubt(rt: HostRuntime) -> Result<(), Fail> {
    let mut halves = Vec::new(rt.alloc());
    add(&mut halves, 50, between(999_999_995, 1_000_000_005))?;
    add(&mut halves, 50, between(1_003_999_995, 1_004_000_005))?;
    let none = between(0, 0);
    assert_eq!(rt;
        judged(rt.alloc(), &halves, 100)?,
        summary(none, between(0, 4_000_005), none, 1)
    );
    add(&mut halves, 50, between(955_000_000, 955_000_000))?;
    let dmax = between(45_000_000, 47_000_005);
    assert_eq!(rt;
        judged(rt.alloc(), &halves, 100)?,
        summary(none, dmax, between(50, 50), 1)
    );
    Ok(())
}

// A window is two half-periods here. The ends of what is answered come from several resolutions.
#[test]
fn six_windows_in_doubt(rt: HostRuntime) -> Result<(), Fail> {
    let first = [
        between(1_039_700_000, 1_040_300_000),
        between(1_000_000_000, 1_000_000_000),
        between(1_003_600_000, 1_004_200_000),
        between(1_000_000_000, 1_000_000_000),
        between(999_700_000, 1_000_300_000),
        between(1_003_400_000, 1_004_400_000),
        between(1_039_700_000, 1_040_300_000),
        between(964_000_000, 964_000_000),
        between(959_500_000, 960_500_000),
        between(963_500_000, 964_500_000),
        between(959_700_000, 960_300_000),
        between(968_200_000, 968_800_000),
    ];
    assert_eq!(rt;
        judged(rt.alloc(), &first, 2)?,
        summary(
            between(0, 40_850_000),
            between(39_050_000, 42_850_000),
            between(1, 6),
            6
        )
    );
    let second = [
        between(999_500_000, 1_000_500_000),
        between(963_700_000, 964_300_000),
        between(960_000_000, 960_000_000),
        between(963_700_000, 964_300_000),
        between(959_700_000, 960_300_000),
        between(999_700_000, 1_000_300_000),
        between(1_003_600_000, 1_004_200_000),
        between(968_500_000, 968_500_000),
        between(1_039_700_000, 1_040_300_000),
        between(1_003_400_000, 1_004_400_000),
        between(999_500_000, 1_000_500_000),
        between(1_003_400_000, 1_004_400_000),
    ];
    assert_eq!(rt;
        judged(rt.alloc(), &second, 2)?,
        summary(
            between(0, 40_750_000),
            between(0, 78_600_000),
            between(0, 6),
            6
        )
    );
    Ok(())
}

#[test]
fn more_windows_in_doubt_than_are_resolved(rt: HostRuntime) -> Result<(), Fail> {
    let mut halves = Vec::new(rt.alloc());
    for _ in 0..53 {
        add(&mut halves, 1, between(999_999_995, 1_000_000_005))?;
        add(&mut halves, 1, between(1_003_999_995, 1_004_000_005))?;
    }
    let wide = between(0, 4_000_010);
    assert_eq!(rt;
        judged(rt.alloc(), &halves, 100)?,
        summary(wide, wide, between(0, 106), 7)
    );
    Ok(())
}

#[test]
fn no_half_period(rt: HostRuntime) -> Result<(), Fail> {
    let none = between(0, 0);
    assert_eq!(rt; judged(rt.alloc(), &[], 120)?, summary(none, none, none, 0));
    Ok(())
}

#[test]
fn greatest_of_the_newest_three(rt: HostRuntime) -> Result<(), Fail> {
    let mut extreme = Extreme::new(rt.alloc(), 3)?;
    assert_eq!(rt; extreme.greatest(), None);
    assert_eq!(rt; extreme.kept(), 0);
    extreme.push(5);
    extreme.push(3);
    extreme.push(4);
    assert_eq!(rt; extreme.greatest(), Some(5));
    assert_eq!(rt; extreme.kept(), 2);
    // 5 leaves the window, and the later of two equal values stays
    extreme.push(4);
    assert_eq!(rt; extreme.greatest(), Some(4));
    assert_eq!(rt; extreme.kept(), 1);
    extreme.push(1);
    assert_eq!(rt; extreme.greatest(), Some(4));
    assert_eq!(rt; extreme.kept(), 2);
    Ok(())
}

fn crosses<T: Send + Sync>(_: &T) {}

#[test]
fn state_crosses_threads(rt: HostRuntime) -> Result<(), Fail> {
    let steady = Steady::new(rt.alloc(), 240)?;
    crosses(&steady);
    Ok(())
}
