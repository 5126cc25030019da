//! Phases over 48 samples of two channels. The results were computed by long arithmetic elsewhere.

ghost use Rattle.std.specs.Prelude.{◌≡◌, ℕ, ◌+◌, ◌-◌, ◌*◌, ◌<◌, ◌≤◌, true, [], length, map, None, IfOk, OnOk};
ghost use Rattle.flk_num.specs.Rate.{sampling_interval};
ghost use Rattle.flk_cfg.specs.Valid.{IsValid};
ghost use Rattle.flk_cert.specs.Gain.{coefs_of};
ghost use Rattle.flk_design.specs.Lamp.{constants_of};
ghost use Rattle.flk_design.specs.Design.{IsDesign};
ghost use Rattle.flk_section.specs.Whole.{numbers_of};
ghost use Rattle.flk_result.specs.Conditions.{AreEnough};
ghost use Rattle.flk_phase.specs.Phase.{conditions_of, channel_of, taken_of, spare_of, over_of, column_of, Stands};
ghost use Rattle.flk_num.specs.declared.lamp.Lamp.TheVariants as lamps;
ghost use Rattle.flk_phase.specs.Taking.{IsMadeAlike, HasTaken, MayTake};

use crate::{Gate, Phase, PhaseResult, Setup, work};
use flk_cert::{Coefs, Gain, check, make};
use flk_cfg::{Config, read_cfg, valid_cfg};
use flk_dat::Block;
use flk_design::design_at;
use flk_num::{Interval, Lamp, Rate};
use flk_scale::{Scale, Supply};
use flk_section::{Whole, fits, whole_of};
use std::alloc::Global;
use std::sync::atomic::{AtomicBool, AtomicU32, Ordering};
use std::test::Fail;
use std::thread::Threads;

// ---- what a phase is made of

// The gain of the certificate that is made for the section.
fn gain_of(alloc: Global, k: &Coefs) -> Result<Gain, Fail>
    ensures { IfOk result (λ g. coefs_of g ≡ k.now) }
{
    let cert = make(alloc, k)?;
    match check(k, &cert) {
        Ok(gain) => Ok(gain),
        Err(_) => Err(Fail::new("the certificate is refused")),
    }
}

// The gains of the sections.
fn gains_of(alloc: Global, sections: &[Coefs; 7]) -> Result<[Gain; 7], Fail>
    requires { length sections.now ≡ 7 }
    ensures { IfOk result (λ gains. map coefs_of gains ≡ sections.now) }
{
    let mut gains = [gain_of(alloc, &sections[0])?; 7];
    for i in 0..7 {
        gains[i] = gain_of(alloc, &sections[i])?;
    }
    Ok(gains)
}

// The bound of the lamp's whole cascade.
pub(crate) fn lamp_whole(alloc: Global, lamp: Lamp, rate: Rate) -> Result<Whole, Fail>
    ensures { IfOk result (λ w. IsDesign (sampling_interval rate) (constants_of lamp) (numbers_of w).coefs) }
{
    let sections = design_at(lamp, rate);
    let gains = gains_of(alloc, &sections)?;
    if !fits(&gains) {
        return Err(Fail::new("the gains do not fit"));
    }
    match whole_of(&gains) {
        Some(whole) => Ok(whole),
        None => Err(Fail::new("there is no bound of the whole cascade")),
    }
}

const CONFIGURATION: &[u8] = b"LAB,DAQ,1999\r\n2,2A,0D\r\n\
    1,U,A,,V,0.01,0,0,-99999,99999,1,1,P\r\n2,V,B,,V,0.01,0,0,-99999,99999,1,1,P\r\n\
    50\r\n1\r\n2400,48\r\n12/03/2021,09:15:00.000000\r\n12/03/2021,09:15:00.000000\r\nASCII\r\n1\r\n";

const MAINS: Supply = Supply {
    nominal_mv: 230_000,
    uncertainty_uv: 1000,
};

fn configuration(alloc: Global) -> Result<Config, Fail>
    ensures { IfOk result (λ c. IsValid c) }
{
    let Ok(config) = read_cfg(alloc, CONFIGURATION) else {
        return Err(Fail::new("no configuration"));
    };
    if !valid_cfg(&config) {
        return Err(Fail::new("the configuration is not valid"));
    }
    Ok(config)
}

// A phase of one of the channels, from 0, with room for 48 samples.
fn phase_of(alloc: Global, config: &Config, channel: usize, setup: &Setup) -> Result<Phase, Fail>
    requires channel { channel < length config.now.analog }
    requires interval { 1 ≤ setup.now.interval }
    requires some { 1 ≤ setup.now.count }
    requires few { setup.now.count ≤ 12 }
    requires enough { setup.now.run_in + setup.now.count * setup.now.interval ≤ 48 }
    ensures stands { IfOk result (λ p. Stands p []) }
    ensures enough { IfOk result (λ p. AreEnough (conditions_of p) 48) }
    ensures channel { IfOk result (λ p. channel_of p ≡ channel) }
    ensures taken { IfOk result (λ p. taken_of p ≡ 0) }
    ensures spare { IfOk result (λ p. 48 ≤ spare_of p) }
    ensures over { IfOk result (λ p. over_of p ≡ None) }
{
    let Ok(scale) = Scale::new(&config.analog.as_slice()[channel], &MAINS) else {
        return Err(Fail::new("no scale"));
    };
    let whole = lamp_whole(alloc, setup.lamp, setup.rate)?;
    let mut phase = Phase::new(alloc, scale, channel, setup, whole)?;
    phase.reserve(48)?;
    Ok(phase)
}

// ---- samples

// The sample of the first channel in a record: a square wave.
fn square(row: usize) -> i32
    requires { row < 48 }
{
    if row < 24 { 23_000 } else { -22_900 }
}

// That of the second: a saw, but where it is 1 more than four times nominal.
fn saw(row: usize, over: usize) -> i32
    requires { row < 48 }
{
    if row == over {
        92_001
    } else {
        (row as i32 * 1300) % 60_000 - 30_000
    }
}

// The records from the first one on to before the other, with one of the second channel over range.
fn block_of(
    alloc: Global,
    config: &Config,
    first: usize,
    stop: usize,
    over: usize,
) -> Result<Block, Fail>
    requires first { first ≤ stop }
    requires stop { stop ≤ 48 }
    requires channels { length config.now.analog ≡ 2 }
    requires digital { length config.now.digital ≡ 0 }
    requires valid { IsValid config.now }
    ensures channels { IfOk result (λ b. b.analog ≡ 2) }
    ensures records { IfOk result (λ b. length b.records ≡ stop - first) }
{
    let mut block = Block::new(alloc, config, stop - first)?;
    for row in first..stop {
        block.push(row as u32, None, &[square(row), saw(row, over)], &[]);
    }
    Ok(block)
}

// ---- what is seen of a result

fn pair(v: Interval) -> (i128, i128) {
    (v.lo, v.hi)
}

// The half-periods, dmax, Tmax, the doubtful flags, the intervals that were judged, and Plt.
fn seen(
    r: &PhaseResult,
) -> (
    u32,
    (i128, i128),
    (i128, i128),
    u32,
    u8,
    Option<(i128, i128)>,
) {
    let plt = match r.plt {
        Some(v) => Some(pair(v)),
        None => None,
    };
    (
        r.halves,
        pair(r.changes.dmax),
        pair(r.changes.t),
        r.changes.doubtful,
        r.count,
        plt,
    )
}

// ---- two at once

// Holds each of two phases until the other was entered.
#[derive(Drop)]
struct Meeting {
    entered: [AtomicBool; 2],
    met: AtomicU32,
}

impl Gate for Meeting {
    ghost use Rattle.std.specs.Prelude.{nat_lt};

    ghost admits = { λ _ phase. nat_lt phase 2 };

    fn enter(&self, phase: usize) {
        self.entered[phase].store(true, Ordering::SeqCst);
        for _ in 0..100_000_000u32 {
            if self.entered[1 - phase].load(Ordering::SeqCst) {
                self.met.fetch_add(1, Ordering::SeqCst);
                return;
            }
        }
    }
}

// The results of both channels, by so many workers.
fn results_of<R: Threads + Sync, G: Gate + Sync>(
    rt: &R,
    alloc: Global,
    setup: &Setup,
    workers: usize,
    gate: &G,
) -> Result<(PhaseResult, PhaseResult), Fail>
    requires interval { 1 ≤ setup.now.interval }
    requires some { 1 ≤ setup.now.count }
    requires few { setup.now.count ≤ 12 }
    requires enough { setup.now.run_in + setup.now.count * setup.now.interval ≤ 48 }
    requires workers { (1 ≤ workers) × (workers ≤ 16) }
    requires gate { (i : ℕ) → i < 2 → G.admits gate.now i ≡ true }
{
    let config = configuration(alloc)?;
    if config.analog.as_slice().len() != 2 || config.digital.as_slice().len() != 0 {
        return Err(Fail::new("there are other channels"));
    }
    let block = block_of(alloc, &config, 0, 48, 48)?;
    let mut phases = [
        phase_of(alloc, &config, 0, setup)?,
        phase_of(alloc, &config, 1, setup)?,
    ];
    work(rt, &mut phases, &block, workers, gate);
    if phases[0].over().is_some() {
        return Err(Fail::new("the first channel is over range"));
    }
    if phases[1].over().is_some() {
        return Err(Fail::new("the second channel is over range"));
    }
    let first = phases[0].end();
    let second = phases[1].end();
    Ok((first, second))
}

// Two intervals of 20 samples behind a run-in of 8.
fn two_intervals(rate: Rate) -> Setup
    ensures { result ≡ record { lamp = lamps.L230; rate = rate; run_in = 8; interval = 20; count = 2 } }
{
    Setup {
        lamp: Lamp::L230,
        rate,
        run_in: 8,
        interval: 20,
        count: 2,
    }
}

#[test]
fn two_phases_at_once(rt: HostRuntime) -> Result<(), Fail> {
    let gate = Meeting {
        entered: [AtomicBool::new(false), AtomicBool::new(false)],
        met: AtomicU32::new(0),
    };
    let (first, second) = results_of(&rt, rt.alloc(), &two_intervals(Rate::R2400), 2, &gate)?;
    assert_eq!(rt; gate.met.load(Ordering::SeqCst), 2);
    assert_eq!(rt; seen(&first), (1, (0, 4348), (0, 0), 0, 2, None));
    assert_eq!(rt; pair(first.pst[0]), (0, 1_694_146));
    assert_eq!(rt; pair(first.pst[1]), (0, 2_271_190));
    assert_eq!(rt;
        seen(&second),
        (2, (245_048_831, 245_056_270), (2, 2), 0, 2, None)
    );
    assert_eq!(rt; pair(second.pst[0]), (8_148_621, 10_462_893));
    assert_eq!(rt; pair(second.pst[1]), (65_814_902, 69_642_779));
    assert_eq!(rt; pair(second.pst[2]), (0, 0));
    Ok(())
}

// ---- entries

// Counts how often each place was entered.
#[derive(Drop)]
struct Counting {
    entries: [AtomicU32; 2],
}

impl Gate for Counting {
    ghost use Rattle.std.specs.Prelude.{nat_lt};

    ghost admits = { λ _ phase. nat_lt phase 2 };

    fn enter(&self, phase: usize) {
        self.entries[phase].fetch_add(1, Ordering::SeqCst);
    }
}

#[test]
fn each_phase_is_entered_once(rt: HostRuntime) -> Result<(), Fail> {
    let gate = Counting {
        entries: [AtomicU32::new(0), AtomicU32::new(0)],
    };
    let setup = two_intervals(Rate::R2400);
    let one = results_of(&rt, rt.alloc(), &setup, 1, &gate)?;
    assert_eq!(rt; gate.entries[0].load(Ordering::SeqCst), 1);
    assert_eq!(rt; gate.entries[1].load(Ordering::SeqCst), 1);
    assert!(rt; results_of(&rt, rt.alloc(), &setup, 16, &gate)? == one);
    assert_eq!(rt; gate.entries[0].load(Ordering::SeqCst), 2);
    assert_eq!(rt; gate.entries[1].load(Ordering::SeqCst), 2);
    Ok(())
}

// ---- blocks of any size

// Takes a block. It fails where a sample is over range.
fn feed(phase: &mut Phase, block: &Block) -> Result<(), Fail>
    requires { MayTake phase.old block.now }
    ensures alike { IsMadeAlike phase.old phase.new }
    ensures spare { spare_of phase.new + length block.now.records ≡ spare_of phase.old }
    ensures taken { OnOk result (HasTaken phase.old phase.new (column_of (channel_of phase.old) block.now.records)) }
{
    phase.take(block);
    if phase.over().is_some() {
        return Err(Fail::new("a sample is over range"));
    }
    Ok(())
}

// The result of the second channel, whose samples come in three blocks, of which one is empty.
fn result_of_parts(alloc: Global, setup: &Setup) -> Result<PhaseResult, Fail>
    requires interval { 1 ≤ setup.now.interval }
    requires some { 1 ≤ setup.now.count }
    requires few { setup.now.count ≤ 12 }
    requires enough { setup.now.run_in + setup.now.count * setup.now.interval ≤ 48 }
{
    let config = configuration(alloc)?;
    if config.analog.as_slice().len() != 2 || config.digital.as_slice().len() != 0 {
        return Err(Fail::new("there are other channels"));
    }
    let mut phase = phase_of(alloc, &config, 1, setup)?;
    feed(&mut phase, &block_of(alloc, &config, 0, 20, 48)?)?;
    feed(&mut phase, &block_of(alloc, &config, 20, 20, 48)?)?;
    feed(&mut phase, &block_of(alloc, &config, 20, 48, 48)?)?;
    Ok(phase.end())
}

#[test]
fn blocks_make_one_recording(rt: HostRuntime) -> Result<(), Fail> {
    let r = result_of_parts(rt.alloc(), &two_intervals(Rate::R2400))?;
    assert_eq!(rt;
        seen(&r),
        (2, (245_048_831, 245_056_270), (2, 2), 0, 2, None)
    );
    assert_eq!(rt; pair(r.pst[1]), (65_814_902, 69_642_779));
    let r = result_of_parts(rt.alloc(), &two_intervals(Rate::R4800))?;
    assert_eq!(rt;
        seen(&r),
        (1, (460_900_530, 460_905_808), (1, 1), 0, 2, None)
    );
    assert_eq!(rt; pair(r.pst[0]), (0, 1_900_048));
    assert_eq!(rt; pair(r.pst[1]), (88_552, 3_273_621));
    let twelve = Setup {
        lamp: Lamp::L230,
        rate: Rate::R2400,
        run_in: 0,
        interval: 4,
        count: 12,
    };
    let r = result_of_parts(rt.alloc(), &twelve)?;
    let plt = Some((41_907_376, 44_422_783));
    assert_eq!(rt;
        seen(&r),
        (2, (245_048_831, 245_056_270), (2, 2), 0, 12, plt)
    );
    assert_eq!(rt; pair(r.pst[4]), (611_176, 2_883_086));
    assert_eq!(rt; pair(r.pst[11]), (69_430_568, 73_424_847));
    Ok(())
}

// ---- over range

#[test]
fn position_of_the_first_over_range(rt: HostRuntime) -> Result<(), Fail> {
    let config = configuration(rt.alloc())?;
    assert!(rt; config.analog.as_slice().len() == 2);
    assert!(rt; config.digital.as_slice().len() == 0);
    let mut phase = phase_of(rt.alloc(), &config, 1, &two_intervals(Rate::R2400))?;
    let room = phase.spare();
    let first = block_of(rt.alloc(), &config, 0, 20, 48)?;
    phase.take(&first);
    assert_eq!(rt; phase.over(), None);
    let second = block_of(rt.alloc(), &config, 20, 40, 30)?;
    phase.take(&second);
    assert_eq!(rt; phase.over(), Some(31));
    let third = block_of(rt.alloc(), &config, 40, 48, 40)?;
    phase.take(&third);
    assert_eq!(rt; phase.over(), Some(31));
    assert_eq!(rt; phase.spare() + 48, room);
    Ok(())
}
