// Names of backups as a set.
ghost use Rattle.std.specs.Prelude.{[], IfOk};
ghost use Rattle.med_index.specs.Marks.{IsSetOf};

use med_base::{BackupName, NoMemory};
use std::alloc::Global;
use std::collections::BTreeSet;

/// The set of no names.
pub(crate) fn no_names(alloc: Global) -> BTreeSet<BackupName>
    ensures { IsSetOf [] result }
{
    BTreeSet::new(alloc)
}

/// The names as a set.
pub fn set_of(alloc: Global, names: &[BackupName]) -> Result<BTreeSet<BackupName>, NoMemory>
    ensures { IfOk result (IsSetOf names.now) }
{
    let mut set = BTreeSet::new(alloc);
    for name in names {
        set.insert(name.copy(alloc)?)?;
    }
    Ok(set)
}
