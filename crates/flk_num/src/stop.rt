//! Why a call has no answer.

ghost use Rattle.std.specs.Prelude.{◌≡◌};

use std::alloc::{AllocError, AllocFailed};

/// Why a call has no answer: a fault of its input, or no memory.
#[derive(Debug, Drop)]
pub enum Stop<F> {
    /// The input has this fault.
    Fault(F),
    /// No memory was found for the answer. Nothing is said of the input then.
    OutOfMemory,
}

impl<F> From<AllocError> for Stop<F> {
    ghost use Rattle.flk_num.specs.declared.stop.Stop.TheVariants as stop;

    ghost from_gives = { λ _ e. e ≡ stop.OutOfMemory };

    fn from(_: AllocError) -> Stop<F> {
        Stop::OutOfMemory
    }
}

impl<F, T: Drop> From<AllocFailed<T>> for Stop<F> {
    ghost use Rattle.flk_num.specs.declared.stop.Stop.TheVariants as stop;

    ghost from_gives = { λ _ e. e ≡ stop.OutOfMemory };

    fn from(_: AllocFailed<T>) -> Stop<F> {
        Stop::OutOfMemory
    }
}
