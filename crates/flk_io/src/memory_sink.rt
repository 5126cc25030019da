// A sink in memory.
ghost use Rattle.std.specs.Prelude.{◌≡◌, ◌↔◌, ◌⊎◌, ◌+◌, ◌<◌, ◌≤◌, ◌++◌, ◌∷◌, [], Some, min, length, vec_len, vec_capacity, Contains, IfOk, OnOk, OnErr, IsErr};
ghost use Rattle.flk_io.specs.Causes.{one_more, HasCause, Adds};

use crate::place::take_front;
use crate::plan::Plan;
use crate::{Failed, OutOfMemory, Sink};
use std::alloc::Global;

/// A sink in memory: a place of fixed size, a greatest number of bytes that one write takes, and
/// the numbers of the writes that are to fail.
#[derive(Drop)]
pub struct MemSink {
    bytes: Vec<u8>,
    room: usize,
    most: usize,
    plan: Plan,
    faults: u64,
    ghost fits: { vec_len bytes + room ≤ vec_capacity bytes },
    ghost some: { 0 < most },
}

impl MemSink {
    ghost use Rattle.flk_io.specs.MemorySink.{written_in, sink_room, sink_most, sink_calls, sink_failing, sink_faults};

    /// An empty sink with a place for `room` bytes, of which one write takes `most` at most.
    pub fn new(alloc: Global, room: usize, most: usize) -> Result<MemSink, OutOfMemory>
        requires { 0 < most }
        ensures written { IfOk result (λ s. written_in s ≡ []) }
        ensures room { IfOk result (λ s. sink_room s ≡ room) }
        ensures most { IfOk result (λ s. sink_most s ≡ most) }
        ensures calls { IfOk result (λ s. sink_calls s ≡ 0) }
        ensures failing { IfOk result (λ s. sink_failing s ≡ []) }
        ensures faults { IfOk result (λ s. sink_faults s ≡ 0) }
    {
        Ok(MemSink {
            bytes: Vec::with_capacity(alloc, room)?,
            room,
            most,
            plan: Plan::new(alloc),
            faults: 0,
        })
    }

    /// Makes the write with this number fail, counted from 1. After `OutOfMemory` no more writes
    /// are to fail than before.
    pub fn fail_at(&mut self, call: u64) -> Result<(), OutOfMemory>
        ensures ok { OnOk result (sink_failing self.new ≡ sink_failing self.old ++ call ∷ []) }
        ensures err { OnErr result (sink_failing self.new ≡ sink_failing self.old) }
        ensures written { written_in self.new ≡ written_in self.old }
        ensures room { sink_room self.new ≡ sink_room self.old }
        ensures most { sink_most self.new ≡ sink_most self.old }
        ensures calls { sink_calls self.new ≡ sink_calls self.old }
        ensures faults { sink_faults self.new ≡ sink_faults self.old }
    {
        self.plan.fail_at(call)
    }

    /// What was written.
    pub fn written(&self) -> &[u8]
        ensures { result.now ≡ written_in self.now }
    {
        &self.bytes
    }

    /// How many writes failed. The count stands still at 2^64 - 1.
    pub fn faults(&self) -> u64
        ensures { result ≡ sink_faults self.now }
    {
        self.faults
    }
}

impl Sink for MemSink {
    ghost use Rattle.flk_io.specs.MemorySink.{written_in, sink_room, sink_most, sink_calls, sink_failing, sink_faults, sink_told};

    ghost told = { sink_told };

    /// Takes as many bytes as `most` and the place that is left allow. A write fails exactly where
    /// it is to fail or no place is left. It takes no memory.
    fn write(&mut self, bytes: &[u8]) -> Result<usize, Failed>
        requires { 0 < length bytes.now }
        ensures adds { Adds (Some (written_in self.old)) (Some (written_in self.new)) result bytes.now }
        ensures cause { HasCause (sink_faults self.old) (sink_faults self.new) result }

        ensures fails { IsErr result
            ↔ (Contains (sink_failing self.old) (one_more (sink_calls self.old)) ⊎ (sink_room self.old ≡ 0)) }
        ensures counted { OnErr result (sink_faults self.new ≡ one_more (sink_faults self.old)) }
        ensures count { IfOk result (λ n. n ≡ min (sink_most self.old) (min (length bytes.now) (sink_room self.old))) }
        ensures room { sink_room self.new + length (written_in self.new)
            ≡ sink_room self.old + length (written_in self.old) }
        ensures most { sink_most self.new ≡ sink_most self.old }
        ensures calls { sink_calls self.new ≡ one_more (sink_calls self.old) }
        ensures failing { sink_failing self.new ≡ sink_failing self.old }
    {
        let fails = self.plan.next_fails();
        let count = self.most.min(bytes.len().min(self.room));
        if fails || count == 0 {
            self.faults = self.faults.saturating_add(1);
            return Err(Failed);
        }
        take_front(&mut self.bytes, &mut self.room, &bytes[..count]);
        Ok(count)
    }
}
