// Puts of a backup that is claimed: what tells of it, and its entries in the index.
ghost use Rattle.std.specs.Prelude.{◌≡◌, ◌<◌, ◌^◌, ◌++◌, ◌∷◌, [], ℕ, false, IfOk, OnOk, IsOk, if◌then◌else◌};
ghost use Rattle.med_base.specs.declared.layout.MetaKind.TheVariants.{Schema, Differential, Tokenmap};
ghost use Rattle.med_base.specs.Effects.{Stores};
ghost use Rattle.med_base.specs.Layout.{meta_path};
ghost use Rattle.med_core.specs.Claim.{changes_of_claim};
ghost use Rattle.med_index.specs.Modes.{is_differential};
ghost use Rattle.med_outside.specs.declared.denied.Denied.TheVariants.{Failed};
ghost use Rattle.med_outside.specs.Causes.{HasCause};
ghost use Rattle.med_outside.specs.Makes.{Makes, MakesPut, IsError, StopsShort};
ghost use Rattle.med_outside.specs.State.{IsReady};

use med_base::{BackupName, Fqdn, Layout, MetaKind, NoMemory};
use med_index::{ListError, start_entries};
use med_outside::{Denied, Mode, Storage, Trace, put_recorded};
use std::alloc::Global;

/// Puts one of the objects that tell of a backup, and records the put.
pub(crate) fn put_meta<S: Storage>(
    alloc: Global,
    store: &mut S,
    layout: &Layout,
    node: &Fqdn,
    name: &BackupName,
    kind: MetaKind,
    bytes: &[u8],
    trace: &mut Trace,
) -> Result<u64, Denied>
    requires ready { IsReady layout.now (S.state store.old) }
    requires sure { trace.old.unsure ≡ false }
    ensures makes { MakesPut Denied.Failed (meta_path layout.now node.now name.now kind) bytes.now
        result (S.state store.old) (S.state store.new) (S.stood store.old) (S.stood store.new)
        trace.old trace.new }
    ensures ready { IsReady layout.now (S.state store.new) }
    ensures sure { OnOk result (trace.new.unsure ≡ false) }
    ensures cause { HasCause (S.state store.old).faults (S.state store.new).faults result }
{
    let path = match layout.meta(alloc, node, name, kind) {
        Ok(path) => path,
        Err(NoMemory) => return Err(Denied::Memory),
    };
    put_recorded(alloc, store, &path, bytes, trace)
}

// Puts the mark of a differential backup, where the backup is one.
fn put_mark<S: Storage>(
    alloc: Global,
    store: &mut S,
    layout: &Layout,
    node: &Fqdn,
    name: &BackupName,
    mode: Mode,
    trace: &mut Trace,
) -> Result<(), Denied>
    requires ready { IsReady layout.now (S.state store.old) }
    requires sure { trace.old.unsure ≡ false }
    ensures makes { (second : ℕ) × Makes (IsOk result) (IsError result Denied.Failed)
        (if is_differential mode
        then Stores (meta_path layout.now node.now name.now Differential) [] second ∷ [] else [])
        (S.state store.old) (S.state store.new) (S.stood store.old) (S.stood store.new) trace.old
        trace.new }
    ensures ready { IsReady layout.now (S.state store.new) }
    ensures sure { OnOk result (trace.new.unsure ≡ false) }
    ensures cause { HasCause (S.state store.old).faults (S.state store.new).faults result }
{
    match mode {
        Mode::Full => Ok(()),
        Mode::Differential => {
            let kind = MetaKind::Differential;
            match put_meta(alloc, store, layout, node, name, kind, &[], trace) {
                Ok(_) => Ok(()),
                Err(denied) => Err(denied),
            }
        }
    }
}

// Puts the objects that tell of a backup that starts: its schema, the mark of a differential
// backup, and its token map. Answers the second of the schema.
fn put_objects<S: Storage>(
    alloc: Global,
    store: &mut S,
    layout: &Layout,
    node: &Fqdn,
    name: &BackupName,
    mode: Mode,
    schema: &[u8],
    ring: &[u8],
    trace: &mut Trace,
) -> Result<u64, Denied>
    requires ready { IsReady layout.now (S.state store.old) }
    requires sure { trace.old.unsure ≡ false }
    ensures makes { (first : ℕ) × (mark : ℕ) × (last : ℕ) × (first < 2 ^ 64)
        × IfOk result (λ second. second ≡ first)
        × Makes (IsOk result) (IsError result Denied.Failed)
        (Stores (meta_path layout.now node.now name.now Schema) schema.now first
        ∷ ((if is_differential mode
        then Stores (meta_path layout.now node.now name.now Differential) [] mark ∷ [] else [])
        ++ Stores (meta_path layout.now node.now name.now Tokenmap) ring.now last ∷ []))
        (S.state store.old) (S.state store.new) (S.stood store.old) (S.stood store.new) trace.old
        trace.new }
    ensures ready { IsReady layout.now (S.state store.new) }
    ensures sure { OnOk result (trace.new.unsure ≡ false) }
    ensures cause { HasCause (S.state store.old).faults (S.state store.new).faults result }
{
    let kind = MetaKind::Schema;
    let second = match put_meta(alloc, store, layout, node, name, kind, schema, trace) {
        Ok(second) => second,
        Err(denied) => return Err(denied),
    };
    match put_mark(alloc, store, layout, node, name, mode, trace) {
        Ok(()) => {}
        Err(denied) => return Err(denied),
    }
    let kind = MetaKind::Tokenmap;
    match put_meta(alloc, store, layout, node, name, kind, ring, trace) {
        Ok(_) => Ok(second),
        Err(denied) => Err(denied),
    }
}

/// Puts all objects of a claim: those that tell of the backup, and its entries in the index, with
/// the second of the schema. After a refusal a first part of them was put, and not all for sure.
pub(crate) fn put_claim<S: Storage>(
    alloc: Global,
    store: &mut S,
    layout: &Layout,
    node: &Fqdn,
    name: &BackupName,
    mode: Mode,
    schema: &[u8],
    ring: &[u8],
    trace: &mut Trace,
) -> Result<(), Denied>
    requires ready { IsReady layout.now (S.state store.old) }
    requires sure { trace.old.unsure ≡ false }
    ensures makes { (seconds : ℕ → ℕ) × (seconds 0 < 2 ^ 64)
        × Makes (IsOk result) (IsError result Denied.Failed)
        (changes_of_claim layout.now node.now name.now (is_differential mode) schema.now ring.now
        seconds) (S.state store.old) (S.state store.new) (S.stood store.old) (S.stood store.new)
        trace.old trace.new }
    ensures err { StopsShort (if is_differential mode then 6 else 4) result trace.old trace.new }
    ensures sure { OnOk result (trace.new.unsure ≡ false) }
    ensures cause { HasCause (S.state store.old).faults (S.state store.new).faults result }
{
    let second = match put_objects(alloc, store, layout, node, name, mode, schema, ring, trace) {
        Ok(second) => second,
        Err(denied) => return Err(denied),
    };
    match start_entries(alloc, store, layout, node, name, mode, ring, second, trace) {
        Ok(()) => Ok(()),
        Err(ListError::Store) => Err(Denied::Failed),
        Err(ListError::Memory) => Err(Denied::Memory),
    }
}
