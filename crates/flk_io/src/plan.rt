// Which calls of a form in memory are to fail.
ghost use Rattle.std.specs.Prelude.{◌≡◌, ◌↔◌, ◌++◌, ◌∷◌, [], Contains, IsTrue, OnOk, OnErr};
ghost use Rattle.flk_io.specs.Causes.{one_more};

use crate::OutOfMemory;
use std::alloc::Global;

/// How many calls were made, and the numbers of those that are to fail, counted from 1. The number
/// of calls stands still at 2^64 - 1.
#[derive(Drop)]
pub(crate) struct Plan {
    calls: u64,
    failing: Vec<u64>,
}

impl Plan {
    pub(crate) fn new(alloc: Global) -> Plan
        ensures calls { result.calls ≡ 0 }
        ensures failing { result.failing.items ≡ [] }
    {
        Plan {
            calls: 0,
            failing: Vec::new(alloc),
        }
    }

    /// Makes the call with this number fail.
    pub(crate) fn fail_at(&mut self, call: u64) -> Result<(), OutOfMemory>
        ensures calls { self.new.calls ≡ self.old.calls }
        ensures ok { OnOk result (self.new.failing.items ≡ self.old.failing.items ++ call ∷ []) }
        ensures err { OnErr result (self.new.failing.items ≡ self.old.failing.items) }
    {
        self.failing.push(call)?;
        Ok(())
    }

    /// Counts a call, and says whether it is to fail.
    pub(crate) fn next_fails(&mut self) -> bool
        ensures calls { self.new.calls ≡ one_more self.old.calls }
        ensures failing { self.new.failing ≡ self.old.failing }
        ensures fails { IsTrue result ↔ Contains self.old.failing.items (one_more self.old.calls) }
    {
        self.calls = self.calls.saturating_add(1);
        contains(&self.failing, self.calls)
    }
}

fn contains(numbers: &[u64], number: u64) -> bool
    ensures { IsTrue result ↔ Contains numbers.now number }
{
    numbers.contains(&number)
}
