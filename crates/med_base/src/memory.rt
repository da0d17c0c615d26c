// Want of memory: alone, and beside the causes of a call.
ghost use Rattle.std.specs.Prelude.{◌≡◌, ⊤};
ghost use Rattle.med_base.specs.declared.memory.OrMemory.TheVariants.{Memory};

use std::alloc::{AllocError, AllocFailed};

/// There was no memory for the answer.
#[derive(Clone, Copy, Debug, PartialEq, Eq)]
pub struct NoMemory;

impl From<AllocError> for NoMemory {
    ghost from_gives = { λ _ _. ⊤ };

    fn from(_: AllocError) -> Self {
        NoMemory
    }
}

impl<T: Drop> From<AllocFailed<T>> for NoMemory {
    ghost from_gives = { λ _ _. ⊤ };

    fn from(_: AllocFailed<T>) -> Self {
        NoMemory
    }
}

/// Why a call was refused, or that there was no memory.
#[derive(Drop)]
pub enum OrMemory<W: Drop> {
    /// The call was refused for this cause.
    Why(W),
    /// There was no memory for the answer.
    Memory,
}

impl<W: Drop> From<AllocError> for OrMemory<W> {
    ghost from_gives = { λ _ e. e ≡ Memory };

    fn from(_: AllocError) -> Self {
        OrMemory::Memory
    }
}

impl<W: Drop, T: Drop> From<AllocFailed<T>> for OrMemory<W> {
    ghost from_gives = { λ _ e. e ≡ Memory };

    fn from(_: AllocFailed<T>) -> Self {
        OrMemory::Memory
    }
}

impl<W: Drop> From<NoMemory> for OrMemory<W> {
    ghost from_gives = { λ _ e. e ≡ Memory };

    fn from(_: NoMemory) -> Self {
        OrMemory::Memory
    }
}
