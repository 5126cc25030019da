// Named files in memory.
ghost use Rattle.std.specs.Prelude.{◌≡◌, ◌↔◌, ◌⊎◌, ◌+◌, ◌-◌, ◌^◌, ◌<◌, ◌≤◌, ◌++◌, ◌∷◌, [], Some, List, ℕ, min, length, Contains, IfOk, OnOk, OnErr, IsErr};
ghost use Rattle.flk_io.specs.Causes.{one_more, HasCause, OthersStay, AllStay, Takes, Adds};
ghost use Rattle.flk_io.specs.Told.{OnlyReads, OnlyAppends};

use crate::memory_file::File;
use crate::memory_files::{added_to, append_to, make_room_in, put_to, read_from};
use crate::plan::Plan;
use crate::{Failed, OutOfMemory, Shelf};
use std::alloc::Global;

/// Named files in memory: what was put under each name, what was added and the place for more, a
/// greatest number of bytes that one call moves, and the numbers of the calls that are to fail.
#[derive(Drop)]
pub struct MemShelf {
    alloc: Global,
    files: Vec<File>,
    most: usize,
    plan: Plan,
    read_faults: u64,
    append_faults: u64,
    ghost some: { 0 < most },
}

impl MemShelf {
    ghost use Rattle.flk_io.specs.MemoryShelf.{left_in, added_in, room_in, shelf_most, shelf_calls, shelf_failing, read_faults_in, append_faults_in, CallsStay, FilesStay};

    /// A shelf whose every name is empty and has no place for more. One call moves as many bytes
    /// as it is asked for, until `piece` is called.
    pub fn new(alloc: Global) -> MemShelf
        ensures left { (name : List ℕ) → left_in result name ≡ [] }
        ensures added { (name : List ℕ) → added_in result name ≡ [] }
        ensures room { (name : List ℕ) → room_in result name ≡ 0 }
        ensures most { shelf_most result ≡ 2 ^ 64 - 1 }
        ensures calls { shelf_calls result ≡ 0 }
        ensures failing { shelf_failing result ≡ [] }
        ensures read_faults { read_faults_in result ≡ 0 }
        ensures append_faults { append_faults_in result ≡ 0 }
    {
        MemShelf {
            alloc,
            files: Vec::new(alloc),
            most: usize::MAX,
            plan: Plan::new(alloc),
            read_faults: 0,
            append_faults: 0,
        }
    }

    /// Sets what is left to read under a name. After `OutOfMemory` the shelf is as before.
    pub fn put(&mut self, name: &str, bytes: &[u8]) -> Result<(), OutOfMemory>
        ensures put { OnOk result (left_in self.new name.now ≡ bytes.now) }
        ensures others { OthersStay name.now (left_in self.old) (left_in self.new) }
        ensures added { AllStay (added_in self.old) (added_in self.new) }
        ensures room { AllStay (room_in self.old) (room_in self.new) }
        ensures calls { CallsStay self.old self.new }
        ensures err { OnErr result (FilesStay self.old self.new) }
    {
        put_to(&mut self.files, self.alloc, name, bytes)
    }

    /// Makes place for so many more bytes to be added under a name. After `OutOfMemory` the shelf
    /// is as before.
    pub fn room(&mut self, name: &str, bytes: usize) -> Result<(), OutOfMemory>
        ensures room { OnOk result (room_in self.new name.now ≡ room_in self.old name.now + bytes) }
        ensures others { OthersStay name.now (room_in self.old) (room_in self.new) }
        ensures left { AllStay (left_in self.old) (left_in self.new) }
        ensures added { AllStay (added_in self.old) (added_in self.new) }
        ensures calls { CallsStay self.old self.new }
        ensures err { OnErr result (FilesStay self.old self.new) }
    {
        make_room_in(&mut self.files, self.alloc, name, bytes)
    }

    /// Sets how many bytes one call moves at most.
    pub fn piece(&mut self, most: usize)
        requires { 1 ≤ most }
        ensures most { shelf_most self.new ≡ most }
        ensures files { FilesStay self.old self.new }
        ensures calls { shelf_calls self.new ≡ shelf_calls self.old }
        ensures failing { shelf_failing self.new ≡ shelf_failing self.old }
        ensures read_faults { read_faults_in self.new ≡ read_faults_in self.old }
        ensures append_faults { append_faults_in self.new ≡ append_faults_in self.old }
    {
        self.most = most;
    }

    /// Makes the call with this number fail. Reads and appends are counted together, from 1. After
    /// `OutOfMemory` the shelf is as before.
    pub fn fail_at(&mut self, call: u64) -> Result<(), OutOfMemory>
        ensures ok { OnOk result (shelf_failing self.new ≡ shelf_failing self.old ++ call ∷ []) }
        ensures err { OnErr result (CallsStay self.old self.new) }
        ensures files { FilesStay self.old self.new }
        ensures calls { shelf_calls self.new ≡ shelf_calls self.old }
        ensures most { shelf_most self.new ≡ shelf_most self.old }
        ensures read_faults { read_faults_in self.new ≡ read_faults_in self.old }
        ensures append_faults { append_faults_in self.new ≡ append_faults_in self.old }
    {
        self.plan.fail_at(call)
    }

    /// What was added under a name.
    pub fn added(&self, name: &str) -> &[u8]
        ensures { result.now ≡ added_in self.now name.now }
    {
        added_to(&self.files, name)
    }

    /// How many reads and appends failed, at most 2^64 - 1.
    pub fn faults(&self) -> u64
        ensures { result ≡ min (read_faults_in self.now + append_faults_in self.now) (2 ^ 64 - 1) }
    {
        self.read_faults.saturating_add(self.append_faults)
    }
}

impl Shelf for MemShelf {
    ghost use Rattle.flk_io.specs.MemoryShelf.{left_in, added_in, room_in, shelf_most, shelf_calls, shelf_failing, read_faults_in, append_faults_in, memory_told};

    ghost told = { memory_told };

    /// Gives as many bytes as the greatest piece, the buffer and what is left allow. A read fails
    /// exactly where it is to fail.
    fn read(&mut self, name: &str, buf: &mut [u8]) -> Result<usize, Failed>
        requires { 0 < length buf.old }
        ensures takes { Takes (Some (left_in self.old name.now)) (Some (left_in self.new name.now)) result buf.new }
        ensures others { OthersStay name.now (left_in self.old) (left_in self.new) }
        ensures only_reads { OnlyReads (memory_told self.old) (memory_told self.new) }
        ensures cause { HasCause (read_faults_in self.old) (read_faults_in self.new) result }

        ensures fails { IsErr result ↔ Contains (shelf_failing self.old) (one_more (shelf_calls self.old)) }
        ensures counted { OnErr result (read_faults_in self.new ≡ one_more (read_faults_in self.old)) }
        ensures count { IfOk result (λ n.
            n ≡ min (shelf_most self.old) (min (length buf.old) (length (left_in self.old name.now)))) }
        ensures room { AllStay (room_in self.old) (room_in self.new) }
        ensures most { shelf_most self.new ≡ shelf_most self.old }
        ensures calls { shelf_calls self.new ≡ one_more (shelf_calls self.old) }
        ensures failing { shelf_failing self.new ≡ shelf_failing self.old }
    {
        if self.plan.next_fails() {
            self.read_faults = self.read_faults.saturating_add(1);
            return Err(Failed);
        }
        Ok(read_from(&mut self.files, name, self.most, buf))
    }

    /// Adds as many bytes as the greatest piece and the place under the name allow. An append
    /// fails exactly where it is to fail or the name has no place left. It takes no memory.
    fn append(&mut self, name: &str, bytes: &[u8]) -> Result<usize, Failed>
        requires { 0 < length bytes.now }
        ensures adds { Adds (Some (added_in self.old name.now)) (Some (added_in self.new name.now)) result bytes.now }
        ensures others { OthersStay name.now (added_in self.old) (added_in self.new) }
        ensures only_appends { OnlyAppends (memory_told self.old) (memory_told self.new) }
        ensures cause { HasCause (append_faults_in self.old) (append_faults_in self.new) result }

        ensures fails { IsErr result
            ↔ (Contains (shelf_failing self.old) (one_more (shelf_calls self.old)) ⊎ (room_in self.old name.now ≡ 0)) }
        ensures counted { OnErr result (append_faults_in self.new ≡ one_more (append_faults_in self.old)) }
        ensures count { IfOk result (λ n.
            n ≡ min (shelf_most self.old) (min (length bytes.now) (room_in self.old name.now))) }
        ensures room { IfOk result (λ n. room_in self.new name.now + n ≡ room_in self.old name.now) }
        ensures other_rooms { OthersStay name.now (room_in self.old) (room_in self.new) }
        ensures room_kept { OnErr result (AllStay (room_in self.old) (room_in self.new)) }
        ensures most { shelf_most self.new ≡ shelf_most self.old }
        ensures calls { shelf_calls self.new ≡ one_more (shelf_calls self.old) }
        ensures failing { shelf_failing self.new ≡ shelf_failing self.old }
    {
        let count = if self.plan.next_fails() {
            0
        } else {
            append_to(&mut self.files, name, self.most, bytes)
        };
        if count == 0 {
            self.append_faults = self.append_faults.saturating_add(1);
            return Err(Failed);
        }
        Ok(count)
    }
}
