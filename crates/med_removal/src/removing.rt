// The second part of a removal: what stands under its paths is deleted, in order.
ghost use Rattle.std.specs.Prelude.{◌≡◌, ◌≤◌, ◌+◌, ◌++◌, ◌∷◌, [], ℕ, List, Some, false, length, OnOk, IsOk, IsErrOf};
ghost use Rattle.med_manifest.specs.Listed.{removes};
ghost use Rattle.med_outside.specs.declared.denied.Denied.TheVariants.{Failed};
ghost use Rattle.med_outside.specs.declared.trace.Change.TheVariants.{Delete};
ghost use Rattle.med_outside.specs.Causes.{HasCause};
ghost use Rattle.med_outside.specs.Makes.{IsError, Makes, MakesDelete, spare};
ghost use Rattle.med_outside.specs.State.{FallsByOne, IsReady};

use med_base::{Layout, ObjPath};
use med_outside::{Change, Denied, Storage, Trace};
use std::alloc::Global;

// Records a delete, in a place that is there.
fn record(trace: &mut Trace, path: ObjPath, is_unsure: bool)
    requires { 1 ≤ spare trace.old }
    ensures changes { trace.new.changes.items ≡ trace.old.changes.items ++ Delete path ∷ [] }
    ensures unsure { trace.new.unsure ≡ is_unsure }
    ensures spare { spare trace.old ≤ spare trace.new + 1 }
{
    trace.unsure = is_unsure;
    match trace.changes.push(Change::Delete { path }) {
        Ok(()) => {}
        Err(_) => {}
    }
}

// Deletes an object, and records the delete. It takes no memory of its own.
fn delete_path<S: Storage>(
    alloc: Global,
    store: &mut S,
    layout: &Layout,
    path: ObjPath,
    trace: &mut Trace,
) -> Result<(), Denied>
    requires ready { IsReady layout.now (S.state store.old) }
    requires sure { trace.old.unsure ≡ false }
    requires spare { 1 ≤ spare trace.old }
    ensures makes { MakesDelete Denied.Failed path result (S.state store.old) (S.state store.new)
        (S.stood store.old) (S.stood store.new) trace.old trace.new }
    ensures ready { IsReady layout.now (S.state store.new) }
    ensures sure { OnOk result (trace.new.unsure ≡ false) }
    ensures spare { OnOk result (spare trace.old ≤ spare trace.new + 1) }
    ensures falls { OnOk result (FallsByOne (S.state store.old).room (S.state store.new).room) }
    ensures room { IsErrOf result Denied.Memory
        → (size : ℕ) → (S.state store.old).room ≡ Some size → size ≡ 0 }
    ensures cause { HasCause (S.state store.old).faults (S.state store.new).faults result }
{
    match store.delete(alloc, &path) {
        Ok(()) => {
            record(trace, path, false);
            Ok(())
        }
        Err(Denied::Failed) => {
            record(trace, path, true);
            Err(Denied::Failed)
        }
        Err(Denied::Memory) => Err(Denied::Memory),
    }
}

/// Deletes what stands under these paths, in order, and records each delete, for which the trace has
/// room. After a refusal the first of them were deleted; where one answered `Failed` that one was
/// deleted too, or not, and the trace is unsure. It takes no memory of its own: a storage that tells its
/// room, and has room for as many changes, doesn't answer `Memory`.
pub fn remove_paths<S: Storage>(
    alloc: Global,
    store: &mut S,
    layout: &Layout,
    paths: Vec<ObjPath>,
    trace: &mut Trace,
) -> Result<(), Denied>
    requires ready { IsReady layout.now (S.state store.old) }
    requires sure { trace.old.unsure ≡ false }
    requires spare { length paths.items ≤ spare trace.old }
    ensures makes { Makes (IsOk result) (IsError result Denied.Failed) (removes paths.items)
        (S.state store.old) (S.state store.new) (S.stood store.old) (S.stood store.new) trace.old
        trace.new }
    ensures ready { IsReady layout.now (S.state store.new) }
    ensures sure { OnOk result (trace.new.unsure ≡ false) }
    ensures room { (size : ℕ) → (S.state store.old).room ≡ Some size → length paths.items ≤ size
        → IsErrOf result Denied.Memory → ⊥ }
    ensures cause { HasCause (S.state store.old).faults (S.state store.new).faults result }
{
    for path in paths {
        match delete_path(alloc, store, layout, path, trace) {
            Ok(()) => {}
            Err(denied) => return Err(denied),
        }
    }
    Ok(())
}
