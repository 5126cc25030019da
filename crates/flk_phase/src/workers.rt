//! All phases at a block, in threads.

ghost use Rattle.std.specs.Prelude.{◌≡◌, ℕ, ◌+◌, ◌^◌, ◌<◌, ◌≤◌, Bool, true, length, slice_index_or};
ghost use Rattle.std.specs.Thread.{IsSync};
ghost use Rattle.flk_phase.specs.declared.phase.Phase.{Phase as PhaseView};
ghost use Rattle.flk_phase.specs.Taking.{TakesBlock, MayTake};
ghost use Rattle.flk_phase.specs.Parts.{IsReady, IsWorked};

use crate::phase::Phase;
use flk_dat::Block;
use std::thread;
use std::thread::{Threads, join_mut};

/// What a phase passes before it takes a block.
pub trait Gate {
    // the places that may pass
    ghost admits: { Self → ℕ → Bool };

    /// Called once for each phase and block, before the phase takes the block, with the phase's place, counted from 0.
    fn enter(&self, phase: usize)
        requires { admits self.now phase ≡ true };
}

// The phases of a part take the block one by one. The first of them is the one at `start`.
fn work_part<G: Gate>(start: usize, part: &mut [Phase], block: &Block, gate: &G)
    requires places { start + length part.old < 2 ^ 64 }
    requires ready { (i : ℕ) (d : PhaseView) → i < length part.old → MayTake (slice_index_or part.old i d) block.now }
    requires gate { (i : ℕ) → i < length part.old → G.admits gate.now (start + i) ≡ true }
    ensures { (i : ℕ) (d : PhaseView) → i < length part.old
        → TakesBlock (slice_index_or part.old i d) (slice_index_or part.new i d) block.now }
{
    for i in 0..part.len() {
        gate.enter(start + i);
        part[i].take(block);
    }
}

/// Each phase takes the block, as by [`Phase::take`]. Parts of as many phases as there are for each worker are worked
/// at once, the phases of a part in their order. Takes no memory.
///
/// There is a phase, and there are 1 to 16 workers. Each phase may take the block.
pub fn work<R: Threads + Sync, G: Gate + Sync>(
    rt: &R,
    phases: &mut [Phase],
    block: &Block,
    workers: usize,
    gate: &G,
)
    requires some { 0 < length phases.old }
    requires workers { (1 ≤ workers) × (workers ≤ 16) }
    requires ready { (i : ℕ) (d : PhaseView) → i < length phases.old
        → MayTake (slice_index_or phases.old i d) block.now }
    requires gate { (i : ℕ) → i < length phases.old → G.admits gate.now i ≡ true }
    ensures count { length phases.new ≡ length phases.old }
    ensures takes { (i : ℕ) (d : PhaseView) → i < length phases.old
        → TakesBlock (slice_index_or phases.old i d) (slice_index_or phases.new i d) block.now }
{
    let size = phases.len().div_ceil(workers);
    thread::for_each_chunk_mut(
        rt,
        phases,
        size,
        &|start, part: &mut [Phase]| work_part(start, part, block, gate),
    );
}

/// Each phase takes the block, as by [`work`], and meanwhile `beside` is called once, in this thread. Before the call
/// this thread starts one for each part of the phases; a part for which none can be made is worked behind it. Takes no
/// memory.
///
/// There is a phase, and there are 1 to 16 workers. Each phase may take the block, and `beside` may be called.
pub fn work_beside<R: Threads + Sync, G: Gate + Sync, X, B: FnMut() -> X>(
    rt: &R,
    phases: &mut [Phase],
    block: &Block,
    workers: usize,
    gate: &G,
    beside: &mut B,
) -> X
    requires some { 0 < length phases.old }
    requires workers { (1 ≤ workers) × (workers ≤ 16) }
    requires ready { (i : ℕ) (d : PhaseView) → i < length phases.old
        → MayTake (slice_index_or phases.old i d) block.now }
    requires gate { (i : ℕ) → i < length phases.old → G.admits gate.now i ≡ true }
    requires beside { B.pre beside.old }
    ensures count { length phases.new ≡ length phases.old }
    ensures takes { (i : ℕ) (d : PhaseView) → i < length phases.old
        → TakesBlock (slice_index_or phases.old i d) (slice_index_or phases.new i d) block.now }
    ensures beside { B.step beside.old result beside.new }
{
    let size = phases.len().div_ceil(workers);
    work_from(rt, 0, size, block, gate, beside, phases)
}

// These phases, of which the first is the one at `start`, take the block in parts of this size, beside one call.
#[cycle(parts)]
fn work_from<R: Threads + Sync, G: Gate + Sync, X, B: FnMut() -> X>(
    rt: &R,
    start: usize,
    size: usize,
    block: &Block,
    gate: &G,
    beside: &mut B,
    phases: &mut [Phase],
) -> X
    requires size { 0 < size }
    requires ready { IsReady (G.admits gate.now) start phases.old block.now }
    requires beside { B.pre beside.old }
    ensures worked { IsWorked phases.old phases.new block.now }
    ensures beside { B.step beside.old result beside.new }
{
    if phases.is_empty() {
        return beside();
    }
    let count = size.min(phases.len());
    let (part, rest) = phases.split_at_mut(count);
    work_part_beside_rest(
        rt,
        start,
        part,
        size,
        block,
        gate,
        start + count,
        beside,
        rest,
    )
}

// A new thread works the first part, and this one goes on with the rest, which begins with the phase at `next`.
#[cycle(parts)]
fn work_part_beside_rest<R: Threads + Sync, G: Gate + Sync, X, B: FnMut() -> X>(
    rt: &R,
    start: usize,
    part: &mut [Phase],
    size: usize,
    block: &Block,
    gate: &G,
    next: usize,
    beside: &mut B,
    rest: &mut [Phase],
) -> X
    requires size { 0 < size }
    requires part { IsReady (G.admits gate.now) start part.old block.now }
    requires rest { IsReady (G.admits gate.now) next rest.old block.now }
    requires beside { B.pre beside.old }
    ensures part { IsWorked part.old part.new block.now }
    ensures rest { IsWorked rest.old rest.new block.now }
    ensures beside { B.step beside.old result beside.new }
{
    let mut first = ||
        requires { IsReady (G.admits gate.now) start part.now block.now }
        ensures { IsWorked part.entry.now part.exit.now block.entry.now }
    { work_part(start, part, block, gate) };
    let mut others = || -> X
        requires { IsSync R.row × IsSync G.row × (0 < size) × IsReady (G.admits gate.now) next rest.now block.now
            × B.pre beside.now }
        ensures worked { IsWorked rest.entry.now rest.exit.now block.entry.now }
        ensures beside { B.step beside.entry.now result beside.exit.now }
    { work_from(rt, next, size, block, gate, beside, rest) };
    let ((), answer) = join_mut(rt, &mut first, &mut others);
    answer
}
