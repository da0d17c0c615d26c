// The entries that a backup puts into the index.
ghost use Rattle.std.specs.Prelude.{◌≡◌, ◌<◌, ◌^◌, ◌∷◌, [], ℕ, false, OnOk, IsOk, if◌then◌else◌};
ghost use Rattle.med_base.specs.declared.kinds.IndexKind.TheVariants.{Differential};
ghost use Rattle.med_base.specs.Effects.{Stores};
ghost use Rattle.med_base.specs.Layout.{entry_path};
ghost use Rattle.med_manifest.specs.EntryPuts.{start_puts, finish_puts};
ghost use Rattle.med_outside.specs.Makes.{Makes, IsError, StopsShort};
ghost use Rattle.med_outside.specs.State.{IsReady};
ghost use Rattle.med_index.specs.declared.errors.ListError.TheVariants.{Store};
ghost use Rattle.med_index.specs.Errors.{HasStoreCause};
ghost use Rattle.med_index.specs.Modes.{is_differential};

use crate::ListError;
use crate::put::put_entry;
use med_base::{BackupName, Fqdn, IndexKind, Layout};
use med_outside::{Mode, Storage, Trace};
use std::alloc::Global;

// Puts the mark of a differential backup into the index, where the backup is one.
fn put_mark<S: Storage>(
    alloc: Global,
    store: &mut S,
    layout: &Layout,
    node: &Fqdn,
    name: &BackupName,
    mode: Mode,
    trace: &mut Trace,
) -> Result<(), ListError>
    requires ready { IsReady layout.now (S.state store.old) }
    requires sure { trace.old.unsure ≡ false }
    ensures makes { (second : ℕ) × Makes (IsOk result) (IsError result ListError.Store)
        (if is_differential mode
        then Stores (entry_path layout.now node.now name.now Differential) [] second ∷ [] else [])
        (S.state store.old) (S.state store.new) (S.stood store.old) (S.stood store.new) trace.old
        trace.new }
    ensures err { StopsShort (if is_differential mode then 1 else 0) result trace.old trace.new }
    ensures ready { IsReady layout.now (S.state store.new) }
    ensures sure { OnOk result (trace.new.unsure ≡ false) }
    ensures cause { HasStoreCause (S.state store.old).faults (S.state store.new).faults result }
{
    match mode {
        Mode::Full => Ok(()),
        Mode::Differential => {
            let kind = IndexKind::Differential;
            match put_entry(alloc, store, layout, node, name, kind, &[], trace) {
                Ok(_) => Ok(()),
                Err(error) => Err(error),
            }
        }
    }
}

/// Puts the entries of a backup that starts: its token map, the second of its start, and the mark of
/// a differential backup. After a refusal the first of these puts were made; after `Store` the next
/// one too, or not, and then the trace is unsure.
pub fn start_entries<S: Storage>(
    alloc: Global,
    store: &mut S,
    layout: &Layout,
    node: &Fqdn,
    name: &BackupName,
    mode: Mode,
    tokenmap: &[u8],
    started: u64,
    trace: &mut Trace,
) -> Result<(), ListError>
    requires ready { IsReady layout.now (S.state store.old) }
    requires sure { trace.old.unsure ≡ false }
    ensures makes { (seconds : ℕ → ℕ) × Makes (IsOk result) (IsError result ListError.Store)
        (start_puts layout.now node.now name.now (is_differential mode) tokenmap.now started
        seconds) (S.state store.old) (S.state store.new) (S.stood store.old) (S.stood store.new)
        trace.old trace.new }
    ensures err { StopsShort (if is_differential mode then 3 else 2) result trace.old trace.new }
    ensures ready { IsReady layout.now (S.state store.new) }
    ensures sure { OnOk result (trace.new.unsure ≡ false) }
    ensures cause { HasStoreCause (S.state store.old).faults (S.state store.new).faults result }
{
    let kind = IndexKind::Tokenmap;
    match put_entry(alloc, store, layout, node, name, kind, tokenmap, trace) {
        Ok(_) => {}
        Err(error) => return Err(error),
    }
    let kind = IndexKind::Started(started);
    match put_entry(alloc, store, layout, node, name, kind, &[], trace) {
        Ok(_) => {}
        Err(error) => return Err(error),
    }
    put_mark(alloc, store, layout, node, name, mode, trace)
}

/// Puts the entries of a backup that finishes: its manifest, and the second of its finish. After a
/// refusal the storage is as after one of [`start_entries`].
pub fn finish_entries<S: Storage>(
    alloc: Global,
    store: &mut S,
    layout: &Layout,
    node: &Fqdn,
    name: &BackupName,
    manifest: &[u8],
    finished: u64,
    trace: &mut Trace,
) -> Result<(), ListError>
    requires ready { IsReady layout.now (S.state store.old) }
    requires sure { trace.old.unsure ≡ false }
    ensures makes { (seconds : ℕ → ℕ) × Makes (IsOk result) (IsError result ListError.Store)
        (finish_puts layout.now node.now name.now manifest.now finished seconds)
        (S.state store.old) (S.state store.new) (S.stood store.old) (S.stood store.new) trace.old
        trace.new }
    ensures ready { IsReady layout.now (S.state store.new) }
    ensures sure { OnOk result (trace.new.unsure ≡ false) }
    ensures cause { HasStoreCause (S.state store.old).faults (S.state store.new).faults result }
{
    let kind = IndexKind::Manifest;
    match put_entry(alloc, store, layout, node, name, kind, manifest, trace) {
        Ok(_) => {}
        Err(error) => return Err(error),
    }
    let kind = IndexKind::Finished(finished);
    match put_entry(alloc, store, layout, node, name, kind, &[], trace) {
        Ok(_) => Ok(()),
        Err(error) => Err(error),
    }
}
