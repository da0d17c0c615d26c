// Why a file of a snapshot wasn't copied.
ghost use Rattle.std.specs.Prelude.{◌≡◌};
ghost use Rattle.med_outside.specs.declared.copy_fault.CopyFault.TheVariants.{Memory};
ghost use Rattle.med_outside.specs.Sent.{fault_of};

use crate::Denied;
use med_base::NoMemory;
use std::alloc::AllocFailed;

/// Why copying broke off.
#[derive(Clone, Copy, Debug, PartialEq, Eq)]
pub enum CopyFault {
    /// The snapshot's count of faults rose.
    Snap,
    /// The storage's count of faults rose.
    Store,
    Memory,
}

impl From<NoMemory> for CopyFault {
    ghost from_gives = { λ _ e. e ≡ Memory };

    fn from(_: NoMemory) -> Self {
        CopyFault::Memory
    }
}

impl<T: Drop> From<AllocFailed<T>> for CopyFault {
    ghost from_gives = { λ _ e. e ≡ Memory };

    fn from(_: AllocFailed<T>) -> Self {
        CopyFault::Memory
    }
}

impl CopyFault {
    /// The fault where a call of the storage is denied.
    pub fn of_store(denied: Denied) -> CopyFault
        ensures { result ≡ fault_of CopyFault.Store denied }
    {
        match denied {
            Denied::Failed => CopyFault::Store,
            Denied::Memory => CopyFault::Memory,
        }
    }

    /// The fault where a call of the nodes or of a snapshot is denied.
    pub fn of_snap(denied: Denied) -> CopyFault
        ensures { result ≡ fault_of CopyFault.Snap denied }
    {
        match denied {
            Denied::Failed => CopyFault::Snap,
            Denied::Memory => CopyFault::Memory,
        }
    }
}
