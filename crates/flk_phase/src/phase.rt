//! One channel of a recording, from its samples to its result.

ghost use Rattle.std.specs.Prelude.{◌≡◌, ℕ, ◌+◌, ◌^◌, ◌<◌, ◌≤◌, List, [], ◌∷◌, ◌++◌, length, take, reverse, IfOk, IfSome, IfNone, OnOk, OnErr, ℤ};
ghost use Rattle.std.specs.List.{All};
ghost use Rattle.flk_num.specs.Lamp.{window_of as window_of_lamp};
ghost use Rattle.flk_num.specs.Rate.{half_at, sampling_interval};
ghost use Rattle.flk_scale.specs.Scale.{voltage_of, nominal_of};
ghost use Rattle.flk_scale.specs.Voltage.{IsOverRange};
ghost use Rattle.flk_front.specs.declared.point.Point.{Point as PointView};
ghost use Rattle.flk_section.specs.Points.{IsPointInRange};
ghost use Rattle.flk_design.specs.Lamp.{constants_of};
ghost use Rattle.flk_design.specs.Design.{IsDesign};
ghost use Rattle.flk_section.specs.Whole.{numbers_of};
ghost use Rattle.flk_result.specs.Conditions.{AreEnough};
ghost use Rattle.flk_result.specs.Digits.{IsPhaseResult};
ghost use Rattle.flk_result.specs.PhaseResult.{IsProper};
ghost use Rattle.flk_result.specs.Promise.{KeepsPromise};
ghost use Rattle.flk_result.specs.Widths.{KeepsWidths};
ghost use Rattle.flk_phase.specs.Halves.{half_of as half_of_halves, window_of as window_of_halves, count_of as count_of_halves};
ghost use Rattle.flk_phase.specs.Meter.{rate_of as rate_of_meter};

use crate::halves::Halves;
use crate::meter::Meter;
use crate::severities::Severities;
use flk_change::OutOfMemory;
use flk_dat::Block;
use flk_front::Point;
use flk_num::crosses_threads;
use flk_result::{PhaseResult, Setup};
use flk_scale::{OverRange, Scale};
use flk_section::Whole;
use std::alloc::Global;

// How many samples a part has at most.
const PART: usize = 256;

// What stands in a list of points where none was put yet.
const NO_POINT: Point = Point { mid: 0, radius: 0 };

/// Works the samples of one channel.
#[derive(Drop)]
pub struct Phase {
    scale: Scale,
    // From 0.
    channel: usize,
    setup: Setup,
    // How many samples were taken.
    taken: u32,
    // The position of the first record whose sample was over range, from 1 over all records.
    over: Option<u32>,
    halves: Halves,
    meter: Meter,
    severities: Severities,
    ghost interval: { 1 ≤ setup.interval },
    ghost some: { 1 ≤ setup.count },
    ghost few: { setup.count ≤ 12 },
    ghost half: { half_of_halves halves ≡ half_at setup.lamp setup.rate },
    ghost window: { window_of_halves halves ≡ window_of_lamp setup.lamp },
    ghost rate: { rate_of_meter meter ≡ setup.rate },
    ghost counted: { count_of_halves halves ≤ taken },
}

impl Phase {
    ghost use Rattle.flk_phase.specs.Phase.{scale_of, conditions_of, taken_of, spare_of, over_of, told_by, IsMadeFor, Stands, StandsAhead};
    ghost use Rattle.flk_phase.specs.Taking.{IsMadeAlike, IsSamePhase, HasTaken, IsCountWithin, TookAll, StoppedAt, TakesBlock, MayTake};

    /// A phase that has taken nothing, with room for no sample, for a channel, from 0, with this scale. The bound is
    /// that of a cascade with the coefficients of the lamp's design at the sampling rate. The error comes only where no
    /// memory is found.
    pub fn new(
        alloc: Global,
        scale: Scale,
        channel: usize,
        setup: &Setup,
        whole: Whole,
    ) -> Result<Phase, OutOfMemory>
        requires interval { 1 ≤ setup.now.interval }
        requires some { 1 ≤ setup.now.count }
        requires few { setup.now.count ≤ 12 }
        requires design { IsDesign (sampling_interval setup.now.rate) (constants_of setup.now.lamp)
            (numbers_of whole).coefs }
        ensures stands { IfOk result (λ p. Stands p []) }
        ensures made { IfOk result (λ p. IsMadeFor p scale channel setup.now whole) }
    {
        Ok(Phase {
            scale,
            channel,
            setup: *setup,
            taken: 0,
            over: None,
            halves: Halves::new(alloc, setup.lamp, setup.rate)?,
            meter: Meter::new(setup.rate, whole),
            severities: Severities::new(alloc, setup.run_in, setup.interval, setup.count)?,
        })
    }

    /// Makes room for so many samples at least. The error comes only where no memory is found, and then the phase is as
    /// before.
    pub fn reserve(&mut self, samples: usize) -> Result<(), OutOfMemory>
        ensures same { IsSamePhase self.old self.new }
        ensures ok { OnOk result (samples ≤ spare_of self.new) }
        ensures more { OnOk result (spare_of self.old ≤ spare_of self.new) }
        ensures err { OnErr result (spare_of self.new ≡ spare_of self.old) }
    {
        self.halves.reserve(samples)
    }

    /// For how many samples there is room.
    pub fn spare(&self) -> usize
        ensures { result ≡ spare_of self.now }
    {
        self.halves.spare()
    }

    /// The position of the first record whose sample is over range, counted from 1 over all records. None comes exactly
    /// where none is.
    pub fn over(&self) -> Option<u32>
        ensures { result ≡ over_of self.now }
    {
        self.over
    }

    // Takes the next sample as far as the adaptor, and answers its point, which waits for the weighting filter from
    // then on. The error is that its voltage is over range.
    #[inline(always)]
    fn adapt(&mut self, x: i32) -> Result<Point, OverRange>
        requires spare { 0 < spare_of self.old }
        requires few { taken_of self.old + 1 < 2 ^ 32 }
        ensures alike { IsMadeAlike self.old self.new }
        ensures over { over_of self.new ≡ over_of self.old }
        ensures spare { OnOk result (spare_of self.new + 1 ≡ spare_of self.old) }
        ensures taken { OnOk result (taken_of self.new ≡ taken_of self.old + 1) }
        ensures ahead { IfOk result (λ p. (samples : List ℤ) (waiting : List PointView)
            → StandsAhead self.old samples waiting → StandsAhead self.new (samples ++ x ∷ []) (p ∷ waiting)) }
        ensures point { IfOk result IsPointInRange }
        ensures within { OnOk result
            (¬ IsOverRange (nominal_of (scale_of self.old)) (voltage_of (scale_of self.old) x)) }
        ensures over_range { OnErr result
            (IsOverRange (nominal_of (scale_of self.old)) (voltage_of (scale_of self.old) x)) }
        ensures unchanged { OnErr result (self.new ≡ self.old) }
    {
        let voltage = match self.scale.voltage(x) {
            Ok(voltage) => voltage,
            Err(over) => return Err(over),
        };
        let negative = self.scale.negative(x);
        self.taken += 1;
        self.halves.push(negative, voltage);
        Ok(self.meter.adapt(voltage))
    }

    // Takes the oldest point that waits through the weighting filter and the smoothing, and judges the level.
    #[inline(always)]
    fn weigh(&mut self, point: Point)
        requires { IsPointInRange point }
        ensures alike { IsMadeAlike self.old self.new }
        ensures over { over_of self.new ≡ over_of self.old }
        ensures spare { spare_of self.new ≡ spare_of self.old }
        ensures taken { taken_of self.new ≡ taken_of self.old }
        ensures ahead { (samples : List ℤ) (waiting : List PointView)
            → StandsAhead self.old samples (waiting ++ point ∷ []) → StandsAhead self.new samples waiting }
    {
        let level = self.meter.weigh(point);
        self.severities.push(level);
    }

    // Takes a part's samples up to the first one over range as far as the adaptor, and answers how many it took. Their
    // points are then the first ones of the list.
    fn adapt_part(&mut self, xs: &[i32], points: &mut [Point; PART]) -> usize
        requires short { length xs.now ≤ 256 }
        requires spare { length xs.now ≤ spare_of self.old }
        requires few { taken_of self.old + length xs.now < 2 ^ 32 }
        ensures alike { IsMadeAlike self.old self.new }
        ensures over { over_of self.new ≡ over_of self.old }
        ensures spare { spare_of self.new + result ≡ spare_of self.old }
        ensures taken { taken_of self.new ≡ taken_of self.old + result }
        ensures count { IsCountWithin (scale_of self.old) xs.now result }
        ensures ahead { (samples : List ℤ) → Stands self.old samples
            → StandsAhead self.new (samples ++ take result xs.now) (reverse (take result points.new)) }
        ensures points { All IsPointInRange (take result points.new) }
    {
        let mut count = 0;
        for x in xs {
            let Ok(point) = self.adapt(*x) else {
                return count;
            };
            points[count] = point;
            count += 1;
        }
        count
    }

    // Takes all points that wait, the oldest first, through the weighting filter and the smoothing.
    fn weigh_part(&mut self, points: &[Point])
        requires { All IsPointInRange points.now }
        ensures alike { IsMadeAlike self.old self.new }
        ensures over { over_of self.new ≡ over_of self.old }
        ensures spare { spare_of self.new ≡ spare_of self.old }
        ensures taken { taken_of self.new ≡ taken_of self.old }
        ensures stands { (samples : List ℤ) → StandsAhead self.old samples (reverse points.now)
            → Stands self.new samples }
    {
        for point in points {
            self.weigh(*point);
        }
    }

    // Takes a part's samples up to the first one over range, and answers how many it took. The list is room for their
    // points. (Two loops, since a processor works many turns of each at once, where the turns of one loop over both
    // would wait for one another.)
    fn take_part(&mut self, xs: &[i32], points: &mut [Point; PART]) -> usize
        requires short { length xs.now ≤ 256 }
        requires spare { length xs.now ≤ spare_of self.old }
        requires few { taken_of self.old + length xs.now < 2 ^ 32 }
        ensures alike { IsMadeAlike self.old self.new }
        ensures over { over_of self.new ≡ over_of self.old }
        ensures spare { spare_of self.new + result ≡ spare_of self.old }
        ensures count { IsCountWithin (scale_of self.old) xs.now result }
        ensures has { HasTaken self.old self.new (take result xs.now) }
    {
        let count = self.adapt_part(xs, points);
        self.weigh_part(&points[..count]);
        count
    }

    // Takes samples up to the first one over range, and answers the position of that one.
    fn take_column(&mut self, xs: &[i32]) -> Option<u32>
        requires spare { length xs.now ≤ spare_of self.old }
        requires few { taken_of self.old + length xs.now < 2 ^ 32 }
        ensures alike { IsMadeAlike self.old self.new }
        ensures spare { spare_of self.old ≤ spare_of self.new + length xs.now }
        ensures none { IfNone result (TookAll self.old self.new xs.now) }
        ensures some { IfSome result (λ position. StoppedAt self.old self.new xs.now position) }
    {
        let mut points = [NO_POINT; PART];
        let mut at = 0;
        while at < xs.len() {
            let part = &xs[at..at + (xs.len() - at).min(PART)];
            let count = self.take_part(part, &mut points);
            at += count;
            if count < part.len() {
                return Some(self.taken + 1);
            }
        }
        None
    }

    /// Takes the channel's samples of a block, in order, up to the first one over range, and none after that one ever.
    /// The room gets less by the block's records. Takes no memory.
    ///
    /// The block has the channel, and there is room for its records. With those of all blocks before they are fewer
    /// than 2^32.
    pub fn take(&mut self, block: &Block)
        requires { MayTake self.old block.now }
        ensures { TakesBlock self.old self.new block.now }
    {
        let column = block.column(self.channel);
        let spare = self.halves.spare() - column.len();
        if self.over.is_some() {
            self.halves.lower(spare);
            return;
        }
        self.over = self.take_column(column);
        self.halves.lower(spare);
    }

    /// The result. All intervals that are judged have their samples. Takes no memory.
    ///
    /// It is the one result of the recorded voltages: it holds the quantities of every exact run that they admit, is no
    /// wider than stated, and its values are from 0 to 10^12.
    pub fn end(&self) -> PhaseResult
        requires { (samples : List ℤ) × Stands self.now samples
            × AreEnough (conditions_of self.now) (length samples) }
        ensures result { (samples : List ℤ) → Stands self.now samples
            → IsPhaseResult (conditions_of self.now) (told_by (scale_of self.now) samples) result }
        ensures promise { (samples : List ℤ) → Stands self.now samples
            → KeepsPromise (conditions_of self.now) (told_by (scale_of self.now) samples) result }
        ensures widths { (samples : List ℤ) → Stands self.now samples
            → KeepsWidths (conditions_of self.now) (told_by (scale_of self.now) samples) result }
        ensures proper { IsProper result }
    {
        PhaseResult {
            halves: self.halves.count(),
            changes: self.halves.changes(),
            pst: self.severities.severities(),
            count: self.setup.count,
            plt: self.severities.long_term(),
        }
    }
}

// A phase can be handed to another thread, and be seen by several at once.
fn phase_crosses_threads(phase: &Phase) {
    crosses_threads(phase);
}
