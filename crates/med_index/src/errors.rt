// Why a call on the index gave no answer.
ghost use Rattle.std.specs.Prelude.{◌≡◌};

use med_base::ObjPath;
use med_manifest::ManifestWhy;

/// Why a call on the index gave no answer.
#[derive(Clone, Copy, Debug, PartialEq, Eq)]
pub enum ListError {
    /// The storage's count of faults rose.
    Store,
    /// There was no memory for the answer.
    Memory,
}

/// Why the index of a node wasn't made anew.
#[derive(Drop)]
pub enum IndexError {
    /// The manifest under this path doesn't read, and each one whose path stands before it does.
    BadManifest { path: ObjPath, why: ManifestWhy },
    /// The storage's count of faults rose.
    Store,
    /// There was no memory for the work.
    Memory,
}

impl From<ListError> for IndexError {
    ghost use Rattle.med_index.specs.Errors.{as_index_error};

    ghost from_gives = { λ error e. e ≡ as_index_error error };

    fn from(error: ListError) -> Self {
        match error {
            ListError::Store => IndexError::Store,
            ListError::Memory => IndexError::Memory,
        }
    }
}
