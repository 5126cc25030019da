//! Where half-periods end, and the intervals of their values.

ghost use Rattle.std.specs.Prelude.{◌≡◌, ◌↔◌, ◌+◌, ◌*◌, ◌/◌, ◌^◌, ◌<◌, ◌≤◌, [], IsTrue, IfSome, IfNone, pos, ◌≤ℤ◌};
ghost use Rattle.std.specs.Int.RustNames.{unsigned_abs};
ghost use Rattle.flk_num.specs.Values.{IsHalfPeriodRange};

use flk_num::{Interval, crosses_threads, exact_squares, root_floor, whole_near};

const FIVE_TO_18: u128 = 3_814_697_265_625;

const TWO_TO_64: u128 = 18_446_744_073_709_551_616;

// A sum in squared billionths, rounded down: `10^18 * sum` for a sum in units of 2^-96. The product may need 170 bits.
fn squared_billionths(sum: u128) -> u128
    ensures { result ≡ 5 ^ 18 * sum / 2 ^ 78 }
{
    let high = (sum >> 64) * FIVE_TO_18;
    let low = (sum % TWO_TO_64) * FIVE_TO_18;
    (high + (low >> 64)) >> 14
}

const TWO_TO_19: f64 = 524288.0;

// A whole number near the root of `limit / half`, by arithmetic in double precision. Nothing rests on how near: its
// square tells whether it is the root.
fn guess(limit: u128, half: usize) -> u64
    requires limit { limit < 2 ^ 72 }
    requires half { half ≤ 48 }
    ensures { result < 2 ^ 52 }
{
    // The low bits are left out, so that a double holds the rest.
    let quotient = (limit >> 19) as i64 as f64 * TWO_TO_19 / half as i64 as f64;
    whole_near(quotient.sqrt())
}

// Whether `root` is the root of `limit / half`, rounded down.
fn is_root(root: u64, limit: u128, half: usize) -> bool
    requires root { root < 2 ^ 52 }
    requires half { half ≤ 48 }
    ensures { IsTrue result ↔ ((root * root * half ≤ limit) × (limit < (root + 1) * (root + 1) * half)) }
{
    let half = half as u64;
    let least = u128::from(root) * u128::from(root * half);
    least <= limit && limit - least < u128::from((2 * root + 1) * half)
}

/// Cuts samples into half-periods, and answers the interval of each half-period's value.
#[derive(Clone, Copy, Debug)]
pub struct Cutter {
    half: usize,
    // Samples since the last cut.
    since: usize,
    // Whether the last sample is negative.
    negative: bool,
    // The sums of the least and of the greatest squares since the last cut, in units of 2^-96.
    least: u128,
    greatest: u128,
    ghost half_low: { 2 ≤ half },
    ghost half_high: { half ≤ 48 },
    ghost few: { since ≤ 2 * half },
    ghost ordered: { least ≤ greatest },
    ghost small: { greatest ≤ 25 * 2 ^ 96 * since },
}

impl Cutter {
    ghost use Rattle.flk_half.specs.Cutter.{Stands, Continues, EndsHalfPeriod, EndsBefore, IsValueAt, HoldsEveryHalfPeriod, KeepsHalfPeriodWidth, half_of, since_cut};

    /// A cutter of no sample yet, for so many samples in half a nominal period: from 2 to 48.
    pub fn new(half: usize) -> Cutter
        requires low { 2 ≤ half }
        requires high { half ≤ 48 }
        ensures stands { Stands result half [] [] [] }
        ensures half { half_of result ≡ half }
        ensures since { since_cut result ≡ 0 }
    {
        Cutter {
            half,
            since: 0,
            negative: false,
            least: 0,
            greatest: 0,
        }
    }

    /// Takes the next sample, and answers the interval of the value of the half-period that ended before it, in
    /// billionths of nominal. None comes exactly where none ended: a half-period ends after `2 * half` samples, or
    /// where the sign changes after at least `half / 2` of them. (`negative` says whether the sample's recorded
    /// voltage is negative; the interval `voltage` is in units of 2^-48 of nominal, and its ends are at most five
    /// times nominal in size.)
    ///
    /// The ends are the values of IEC 61000-3-3, clause 3, at the least and at the greatest squares of the voltages,
    /// rounded down. The interval holds the value of every run within the intervals taken, and is at most `3 * 10^9 *
    /// delta + 3` wide where each of them is at most `2 * delta` wide. Both ends are from 0 to 10^10. Takes no
    /// memory.
    #[inline(always)]
    pub fn push(&mut self, negative: bool, voltage: Interval) -> Option<Interval>
        requires low { unsigned_abs voltage.lo ≤ 5 * 2 ^ 48 }
        requires high { unsigned_abs voltage.hi ≤ 5 * 2 ^ 48 }
        ensures none { IfNone result (Continues self.old self.new negative voltage) }
        ensures some { IfSome result (EndsHalfPeriod self.old self.new negative voltage) }
        ensures holds { IfSome result (HoldsEveryHalfPeriod self.old) }
        ensures narrow { IfSome result (KeepsHalfPeriodWidth self.old) }
        ensures range { IfSome result IsHalfPeriodRange }
        ensures half { half_of self.new ≡ half_of self.old }
        ensures since_none { IfNone result (since_cut self.new ≡ since_cut self.old + 1) }
        ensures since_some { IfSome result (λ _. (half_of self.old ≤ 2 * since_cut self.old)
            × (since_cut self.new ≡ 1)) }
    {
        let squares = exact_squares(voltage);
        if self.ends(negative) {
            let ended = self.interval();
            *self = Cutter {
                half: self.half,
                since: 1,
                negative,
                least: squares.least,
                greatest: squares.greatest,
            };
            return Some(ended);
        }
        *self = Cutter {
            half: self.half,
            since: self.since + 1,
            negative,
            least: self.least + squares.least,
            greatest: self.greatest + squares.greatest,
        };
        None
    }

    // Whether the half-period ends before a sample of this sign.
    #[inline(always)]
    fn ends(&self, negative: bool) -> bool
        ensures { IsTrue result ↔ EndsBefore self.now negative }
    {
        self.since == 2 * self.half || (self.half <= 2 * self.since && negative != self.negative)
    }

    // The interval of the value of the samples since the last cut.
    fn interval(&self) -> Interval
        ensures low { IsValueAt self.now.half self.now.least result.lo }
        ensures high { IsValueAt self.now.half self.now.greatest result.hi }
    {
        Interval {
            lo: self.value_at(self.least),
            hi: self.value_at(self.greatest),
        }
    }

    // The value of half a nominal period with this sum of squares, in billionths, rounded down.
    fn value_at(&self, sum: u128) -> i128
        requires { sum ≤ 25 * 2 ^ 96 * 96 }
        ensures { IsValueAt self.now.half sum result }
    {
        let limit = squared_billionths(sum);
        let root = guess(limit, self.half);
        if is_root(root, limit, self.half) {
            return i128::from(root);
        }
        let quotient = limit / self.half as u128;
        root_floor(quotient as i128)
    }
}

// A cutter can be handed to another thread, and seen by several at once.
fn cutter_crosses_threads(cutter: &Cutter) {
    crosses_threads(cutter);
}
