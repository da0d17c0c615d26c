// Why a call of a shelf wasn't done.
use med_base::{BackupName, ObjPath};
use med_outside::CopyFault;

/// Why a name wasn't claimed.
#[derive(Debug, Drop)]
pub enum ClaimError {
    /// A backup of this name is being made.
    Running { name: BackupName },
    /// An object of this path lies under the folder of the backup.
    Taken { path: ObjPath },
    /// The storage's count of faults rose.
    Store,
    Memory,
}

/// Why a file wasn't placed.
pub type PlaceError = CopyFault;

/// Why a backup wasn't finished.
pub type FinishError = CopyFault;
