//! The values of a window that are greater than every later one, in their order.

ghost use Rattle.std.specs.Prelude.{◌≡◌, ℕ, ◌<◌, ◌≤◌, length, take, slice_index_or, Some, ◌<ℤ◌, ◌≤ℤ◌};
ghost use Rattle.circular_buffer.specs.Buffer.{last_item};
ghost use Rattle.flk_change.specs.declared.candidates.Candidate.{Candidate as CandidateView};
ghost use Rattle.flk_change.specs.Candidates.{IsWithoutEarlier};

use circular_buffer::HeapCircularBuffer;

/// A value, and how many came before it.
#[derive(Clone, Copy, Debug)]
pub(crate) struct Candidate {
    pub(crate) place: u32,
    pub(crate) value: i128,
}

/// Drops the first candidate where its place is before `begin`.
pub(crate) fn drop_before(ring: &mut HeapCircularBuffer<Candidate>, begin: u32)
    ensures capacity { ring.new.capacity ≡ ring.old.capacity }
    ensures dropped { IsWithoutEarlier begin ring.old.items ring.new.items }
{
    let Some(first) = ring.front() else {
        return;
    };
    if first.place < begin {
        ring.pop_front();
    }
}

/// Drops the last candidates as long as their value is at most `v`.
pub(crate) fn drop_up_to(ring: &mut HeapCircularBuffer<Candidate>, v: i128)
    ensures capacity { ring.new.capacity ≡ ring.old.capacity }
    ensures fewer { length ring.new.items ≤ length ring.old.items }
    ensures front { ring.new.items ≡ take (length ring.new.items) ring.old.items }
    ensures dropped { (k : ℕ) (d : CandidateView) → length ring.new.items ≤ k → k < length ring.old.items
        → (slice_index_or ring.old.items k d).value ≤ℤ v }
    ensures above { (c : CandidateView) → last_item ring.new.items ≡ Some c → v <ℤ c.value }
{
    while let Some(last) = ring.back() {
        if last.value > v {
            return;
        }
        ring.pop_back();
    }
}
