// Entries that are put into the index.
ghost use Rattle.std.specs.Prelude.{◌≡◌, false, OnOk};
ghost use Rattle.med_base.specs.Layout.{entry_path};
ghost use Rattle.med_outside.specs.Makes.{MakesPut, StopsShort};
ghost use Rattle.med_outside.specs.State.{IsReady};
ghost use Rattle.med_index.specs.declared.errors.ListError.TheVariants.{Store};
ghost use Rattle.med_index.specs.Errors.{HasStoreCause};

use crate::ListError;
use med_base::{BackupName, Fqdn, IndexKind, Layout, NoMemory};
use med_outside::{Denied, Storage, Trace, put_recorded};
use std::alloc::Global;

/// Puts an entry of the index, and records the put.
pub(crate) fn put_entry<S: Storage>(
    alloc: Global,
    store: &mut S,
    layout: &Layout,
    node: &Fqdn,
    name: &BackupName,
    kind: IndexKind,
    bytes: &[u8],
    trace: &mut Trace,
) -> Result<u64, ListError>
    requires ready { IsReady layout.now (S.state store.old) }
    requires sure { trace.old.unsure ≡ false }
    ensures makes { MakesPut ListError.Store (entry_path layout.now node.now name.now kind)
        bytes.now result (S.state store.old) (S.state store.new) (S.stood store.old)
        (S.stood store.new) trace.old trace.new }
    ensures err { StopsShort 1 result trace.old trace.new }
    ensures ready { IsReady layout.now (S.state store.new) }
    ensures sure { OnOk result (trace.new.unsure ≡ false) }
    ensures cause { HasStoreCause (S.state store.old).faults (S.state store.new).faults result }
{
    let path = match layout.index_entry(alloc, node, name, kind) {
        Ok(path) => path,
        Err(NoMemory) => return Err(ListError::Memory),
    };
    match put_recorded(alloc, store, &path, bytes, trace) {
        Ok(second) => Ok(second),
        Err(Denied::Failed) => Err(ListError::Store),
        Err(Denied::Memory) => Err(ListError::Memory),
    }
}
