//! The greatest of the newest values, without a look at all of them.

ghost use Rattle.std.specs.Prelude.{◌≡◌, ℕ, ◌^◌, ◌-◌, ◌+◌, ◌<◌, ◌≤◌, [], ◌∷◌, ◌++◌, List, All, IfOk, IfSome, ℤ};
ghost use Rattle.std.specs.Int.RustNames.{unsigned_abs};

use crate::OutOfMemory;
use crate::candidates::{Candidate, drop_before, drop_up_to};
use circular_buffer::HeapCircularBuffer;
use std::alloc::Global;

// The first place of a window after so many values.
fn window_begin(count: u32, window: usize) -> u32
    requires { window ≤ 240 }
    ensures { result ≡ count - window }
{
    count.saturating_sub(window as u32)
}

/// The greatest of the newest values. It keeps the values alone that are greater than every later one, since no other
/// can become the greatest: a new value drops those that it reaches, and the oldest falls out of the window.
#[derive(Drop)]
pub struct Extreme {
    ring: HeapCircularBuffer<Candidate>,
    count: u32,
    ghost some: { 0 < ring.capacity },
    ghost few: { ring.capacity ≤ 240 },
    ghost small: { All (λ c. unsigned_abs c.value ≤ 10000000000) ring.items },
}

impl Extreme {
    ghost use Rattle.flk_change.specs.Extreme.{Stands, HasCandidates, IsGreatestOfWindow, pushed};

    /// For a window of so many values, from 1 to 240. The error comes only where no memory is found.
    pub fn new(alloc: Global, window: usize) -> Result<Extreme, OutOfMemory>
        requires low { 1 ≤ window }
        requires high { window ≤ 240 }
        ensures stands { IfOk result (λ e. Stands e window []) }
        ensures pushed { IfOk result (λ e. pushed e ≡ 0) }
    {
        Ok(Extreme {
            ring: HeapCircularBuffer::with_capacity(alloc, window)?,
            count: 0,
        })
    }

    /// Takes the next value, of at most 10^10 in size. Fewer than 2^32 - 1 may come before it. Takes no memory.
    pub fn push(&mut self, v: i128)
        requires small { unsigned_abs v ≤ 10000000000 }
        requires few { pushed self.old < 2 ^ 32 - 1 }
        ensures pushed { pushed self.new ≡ pushed self.old + 1 }
        ensures stands { (window : ℕ) (values : List ℤ) → Stands self.old window values
            → Stands self.new window (values ++ v ∷ []) }
    {
        let place = self.count;
        self.count += 1;
        let begin = window_begin(self.count, self.ring.capacity());
        drop_before(&mut self.ring, begin);
        drop_up_to(&mut self.ring, v);
        self.ring.push_back(Candidate { place, value: v });
    }

    /// The greatest of the newest values, as many as the window has; None where no value was taken.
    pub fn greatest(&self) -> Option<i128>
        ensures greatest { (window : ℕ) (values : List ℤ) → Stands self.now window values
            → IsGreatestOfWindow window values result }
        ensures small { IfSome result (λ m. unsigned_abs m ≤ 10000000000) }
    {
        match self.ring.front() {
            Some(first) => Some(first.value),
            None => None,
        }
    }

    /// How many values of the window are greater than every later one.
    pub fn kept(&self) -> usize
        ensures { (window : ℕ) (values : List ℤ) → Stands self.now window values → HasCandidates window values result }
    {
        self.ring.len()
    }
}
