// The refusal of every call of the outside.
ghost use Rattle.std.specs.Prelude.{◌≡◌};
ghost use Rattle.med_outside.specs.declared.denied.Denied.TheVariants.{Memory};

use med_base::NoMemory;
use std::alloc::{AllocError, AllocFailed};

/// Why a call of the outside gave no answer.
#[derive(Clone, Copy, Debug, PartialEq, Eq)]
pub enum Denied {
    /// The object's count of faults rose.
    Failed,
    /// There was no memory for the answer.
    Memory,
}

impl From<AllocError> for Denied {
    ghost from_gives = { λ _ e. e ≡ Memory };

    fn from(_: AllocError) -> Self {
        Denied::Memory
    }
}

impl<T: Drop> From<AllocFailed<T>> for Denied {
    ghost from_gives = { λ _ e. e ≡ Memory };

    fn from(_: AllocFailed<T>) -> Self {
        Denied::Memory
    }
}

impl From<NoMemory> for Denied {
    ghost from_gives = { λ _ e. e ≡ Memory };

    fn from(_: NoMemory) -> Self {
        Denied::Memory
    }
}
