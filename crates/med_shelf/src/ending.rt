// The end of a backup: its manifest, the entries of that, and the latest entry of its node.
ghost use Rattle.std.specs.Prelude.{◌≡◌, ◌<◌, ◌^◌, ℕ, false, IfOk, OnOk, IsOk};
ghost use Rattle.med_core.specs.Finish.{manifest_puts};
ghost use Rattle.med_outside.specs.declared.denied.Denied.TheVariants.{Failed};
ghost use Rattle.med_outside.specs.Causes.{HasCause};
ghost use Rattle.med_outside.specs.Makes.{Makes, IsError};
ghost use Rattle.med_outside.specs.State.{IsReady};
ghost use Rattle.med_shelf.specs.Ends.{EndsBackup};

use crate::claiming::names_keep_rules;
use crate::puts::put_meta;
use med_base::{BackupName, Fqdn, Layout, MetaKind};
use med_index::{ListError, finish_entries, mend_latest};
use med_outside::{Denied, Storage, Trace};
use std::alloc::Global;

// Puts the manifest, and then its entries in the index. Answers the second of the manifest.
fn put_manifest<S: Storage>(
    alloc: Global,
    store: &mut S,
    layout: &Layout,
    node: &Fqdn,
    name: &BackupName,
    text: &[u8],
    trace: &mut Trace,
) -> Result<u64, Denied>
    requires ready { IsReady layout.now (S.state store.old) }
    requires sure { trace.old.unsure ≡ false }
    ensures makes { (seconds : ℕ → ℕ) × (seconds 0 < 2 ^ 64)
        × IfOk result (λ second. second ≡ seconds 0)
        × Makes (IsOk result) (IsError result Denied.Failed)
        (manifest_puts layout.now node.now name.now text.now seconds)
        (S.state store.old) (S.state store.new) (S.stood store.old) (S.stood store.new) trace.old
        trace.new }
    ensures ready { IsReady layout.now (S.state store.new) }
    ensures sure { OnOk result (trace.new.unsure ≡ false) }
    ensures cause { HasCause (S.state store.old).faults (S.state store.new).faults result }
{
    let kind = MetaKind::Manifest;
    let second = match put_meta(alloc, store, layout, node, name, kind, text, trace) {
        Ok(second) => second,
        Err(denied) => return Err(denied),
    };
    match finish_entries(alloc, store, layout, node, name, text, second, trace) {
        Ok(()) => Ok(second),
        Err(ListError::Store) => Err(Denied::Failed),
        Err(ListError::Memory) => Err(Denied::Memory),
    }
}

/// Puts the manifest and then its entries, and mends the latest entry of the node. Answers the second
/// of the manifest. After a refusal a first part of these changes was made.
pub(crate) fn end_backup<S: Storage>(
    alloc: Global,
    store: &mut S,
    layout: &Layout,
    node: &Fqdn,
    name: &BackupName,
    text: &[u8],
    trace: &mut Trace,
) -> Result<u64, Denied>
    requires ready { IsReady layout.now (S.state store.old) }
    requires sure { trace.old.unsure ≡ false }
    ensures ends { EndsBackup layout.now node.now name.now text.now result (S.state store.old)
        (S.state store.new) (S.stood store.old) (S.stood store.new) trace.old trace.new }
    ensures cause { HasCause (S.state store.old).faults (S.state store.new).faults result }
{
    names_keep_rules(node, name);
    let second = match put_manifest(alloc, store, layout, node, name, text, trace) {
        Ok(second) => second,
        Err(denied) => return Err(denied),
    };
    match mend_latest(alloc, store, layout, node, trace) {
        Ok(()) => Ok(second),
        Err(ListError::Store) => Err(Denied::Failed),
        Err(ListError::Memory) => Err(Denied::Memory),
    }
}
