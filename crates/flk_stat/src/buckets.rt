//! Levels in buckets by their size, so that percentiles are selected among few of them.

ghost use Rattle.std.specs.Prelude.{◌≡◌, ℕ, ◌+◌, ◌^◌, ◌<◌, ◌≤◌, length, map, take, pos, ℤ, slice_index};
ghost use Rattle.std.specs.List.{All};
ghost use Rattle.flk_stat.specs.Severity.{shares};
ghost use Rattle.flk_stat.specs.Ranked.{IsShare, IsRankIn, DoRise, IsRankedSum, IsWeightedSum};
ghost use Rattle.flk_stat.specs.Buckets.{bucket_of, count_in, kept_of, IsKeptRank, AreKeptShares};

use crate::rank::rank;
use crate::severity::{RankedShare, SHARES};

const BUCKETS: usize = 4096;

// The bucket of a level. A greater bucket has greater levels, and the last one all that are too great for the others.
fn bucket(level: u64, shift: u32) -> usize
    requires { shift < 64 }
    ensures value { result ≡ bucket_of shift level }
    ensures within { result < 4096 }
{
    (level >> shift).min(BUCKETS as u64 - 1) as usize
}

// A shift at which about one level in 16 is in the last bucket, by 64 evenly spaced ones. Nothing rests on it but time.
fn shift_for(levels: &[u64]) -> u32
    requires { 64 ≤ length levels.now }
    ensures { result < 64 }
{
    let mut sample = [0u64; 64];
    for (place, level) in sample
        .iter_mut()
        .zip(levels.iter().step_by(levels.len() / 64))
    {
        *place = *level;
    }
    let (_, level, _) = sample.select_nth_unstable(59);
    52u32.saturating_sub(level.leading_zeros())
}

// How many levels are in each bucket.
fn counts_of(levels: &[u64], shift: u32) -> [u32; BUCKETS]
    requires few { length levels.now < 2 ^ 32 }
    requires shift { shift < 64 }
    ensures { (j : ℕ) → slice_index result j ≡ count_in (bucket_of shift) levels.now j }
{
    let mut counts = [0u32; BUCKETS];
    for level in levels {
        counts[bucket(*level, shift)] += 1;
    }
    counts
}

// Moves the levels of marked buckets to the front, and answers how many they are. The others are lost.
fn keep(levels: &mut [u64], shift: u32, marks: &[bool]) -> usize
    requires shift { shift < 64 }
    requires marks { length marks.now ≡ 4096 }
    ensures count { result ≤ length levels.new }
    ensures kept { take result levels.new ≡ kept_of (bucket_of shift) marks.now levels.old }
{
    let mut kept = 0;
    for i in 0..levels.len() {
        let level = levels[i];
        // without a branch, which would be guessed wrong often
        levels[kept] = level;
        kept += usize::from(marks[bucket(level, shift)]);
    }
    kept
}

// A walk from the last bucket down, which marks the buckets of some ranks.
#[derive(Drop)]
struct Walk {
    place: usize,
    // How many levels are in greater buckets.
    above: usize,
    // How many of those are in marked ones.
    kept: usize,
    marks: [bool; BUCKETS],
}

// Levels, and how many are in each bucket.
#[derive(Drop)]
struct Buckets<'a> {
    levels: &'a [u64],
    shift: u32,
    counts: [u32; BUCKETS],
    ghost counted: { (j : ℕ) → slice_index counts j ≡ count_in (bucket_of shift) levels.now j },
}

impl<'a> Buckets<'a> {
    ghost use Rattle.flk_stat.specs.Walk.{IsWalked};

    fn of(levels: &'a [u64], shift: u32) -> Buckets<'a>
        requires few { length levels.now < 2 ^ 32 }
        requires shift { shift < 64 }
        ensures levels { result.levels.now ≡ levels.now }
        ensures shift { result.shift ≡ shift }
    {
        Buckets {
            levels,
            shift,
            counts: counts_of(levels, shift),
        }
    }

    // Goes down by one bucket.
    fn step(&self, walk: &mut Walk)
        requires some { 0 < walk.old.place }
        requires within { walk.old.place < 4096 }
        requires walked { IsWalked (bucket_of self.now.shift) self.now.levels.now walk.old }
        ensures place { walk.new.place + 1 ≡ walk.old.place }
        ensures above { walk.new.above ≡ walk.old.above + slice_index self.now.counts walk.old.place }
        ensures marks { walk.new.marks ≡ walk.old.marks }
        ensures walked { IsWalked (bucket_of self.now.shift) self.now.levels.now walk.new }
    {
        let count = self.counts[walk.place] as usize;
        walk.above += count;
        if walk.marks[walk.place] {
            walk.kept += count;
        }
        walk.place -= 1;
    }

    // Marks the bucket of a rank, and answers the rank among the levels of marked buckets.
    fn descend(&self, walk: &mut Walk, rank: usize) -> usize
        requires above { walk.old.above < rank }
        requires below { rank ≤ length self.now.levels.now }
        requires within { walk.old.place < 4096 }
        requires walked { IsWalked (bucket_of self.now.shift) self.now.levels.now walk.old }
        ensures above { walk.new.above < rank }
        ensures within { walk.new.place < 4096 }
        ensures walked { IsWalked (bucket_of self.now.shift) self.now.levels.now walk.new }
        ensures rank { IsKeptRank (bucket_of self.now.shift) self.now.levels.now
            walk.new.marks walk.new.place rank result }
        ensures others { (r k : ℕ)
            → IsKeptRank (bucket_of self.now.shift) self.now.levels.now walk.old.marks walk.old.place r k
            → IsKeptRank (bucket_of self.now.shift) self.now.levels.now walk.new.marks walk.new.place r k }
    {
        while walk.above + (self.counts[walk.place] as usize) < rank {
            self.step(walk);
        }
        walk.marks[walk.place] = true;
        walk.kept + (rank - walk.above)
    }

    // The percentiles by their ranks among the levels of marked buckets, and the marks.
    fn ranked(&self) -> ([RankedShare; 15], [bool; BUCKETS])
        requires { 1000 ≤ length self.now.levels.now }
        ensures { AreKeptShares (bucket_of self.now.shift) self.now.levels.now result.1 result.0 }
    {
        let mut walk = Walk {
            place: BUCKETS - 1,
            above: 0,
            kept: 0,
            marks: [false; BUCKETS],
        };
        let mut ranked = [RankedShare {
            share: SHARES[0],
            rank: 0,
        }; 15];
        for i in 0..SHARES.len() {
            let share = SHARES[i];
            let rank = self.descend(&mut walk, rank(share.tenths, self.levels.len()));
            ranked[i] = RankedShare { share, rank };
        }
        (ranked, walk.marks)
    }
}

/// Few of some levels, and the percentiles by their ranks among those few. The other levels are lost.
pub(crate) fn thinned(levels: &mut [u64]) -> ([RankedShare; 15], &mut [u64])
    requires many { 1000 ≤ length levels.old }
    requires few { length levels.old < 2 ^ 32 }
    ensures shares { All (λ q. IsShare q.share) result.0 }
    ensures ranks { All (IsRankIn result.1.now) result.0 }
    ensures rise { DoRise result.0 }
    ensures sum { (sum : ℤ) → IsRankedSum result.0 (map pos result.1.now) sum
        → IsWeightedSum (length levels.old) shares (map pos levels.old) sum }
{
    let shift = shift_for(levels);
    let (ranked, marks) = Buckets::of(levels, shift).ranked();
    let kept = keep(levels, shift, &marks);
    (ranked, &mut levels[..kept])
}
