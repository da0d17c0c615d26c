// Single changes of a storage, each recorded in a trace.
ghost use Rattle.std.specs.Prelude.{◌≡◌, ◌≤◌, ◌<◌, ◌^◌, ◌++◌, ◌∷◌, ℕ, List, [], Some, None, is_none, true, false, IfOk, OnOk};
ghost use Rattle.med_base.specs.Classify.{is_data};
ghost use Rattle.med_outside.specs.declared.denied.Denied.TheVariants.{Failed};
ghost use Rattle.med_outside.specs.declared.trace.Change.TheVariants.{Delete};
ghost use Rattle.med_outside.specs.Causes.{HasCause};
ghost use Rattle.med_outside.specs.Makes.{MakesPut, MakesDelete, StopsShort, spare};
ghost use Rattle.med_outside.specs.Pieces.{IsUploading, upload_of, with_upload};
ghost use Rattle.med_outside.specs.Recorded.{put_of, ready_of};
ghost use Rattle.med_outside.specs.State.{IsNoData, MayChange, OnlyReads};

use crate::{Change, Denied, Storage, Text, Trace};
use med_base::{Fingerprint, NoMemory, ObjPath};
use std::alloc::Global;

// What the record of a put is made of, but for its second.
#[derive(Drop)]
pub(crate) struct ReadyPut {
    pub path: ObjPath,
    pub fingerprint: Fingerprint,
    pub text: Option<Text>,
}

// Makes ready the record of a put, and reserves its place in the trace.
fn ready_put(
    alloc: Global,
    path: &ObjPath,
    bytes: &[u8],
    trace: &mut Trace,
) -> Result<ReadyPut, NoMemory>
    ensures ready { IfOk result (λ ready. ready ≡ ready_of false path.now bytes.now) }
    ensures room { OnOk result (1 ≤ spare trace.new) }
    ensures changes { trace.new.changes.items ≡ trace.old.changes.items }
    ensures unsure { trace.new.unsure ≡ trace.old.unsure }
{
    let path = path.copy(alloc)?;
    let text = Text::of(alloc, bytes)?;
    trace.reserve(1)?;
    let fingerprint = Fingerprint::of(bytes);
    Ok(ReadyPut {
        path,
        fingerprint,
        text: Some(text),
    })
}

// Makes ready the record of the put of a data object with this fingerprint, and reserves its place
// in the trace.
fn ready_data_put(
    alloc: Global,
    path: &ObjPath,
    fingerprint: Fingerprint,
    trace: &mut Trace,
) -> Result<ReadyPut, NoMemory>
    ensures ready { IfOk result (λ ready.
        ready ≡ record { path = path.now; fingerprint = fingerprint; text = None }) }
    ensures room { OnOk result (1 ≤ spare trace.new) }
    ensures changes { trace.new.changes.items ≡ trace.old.changes.items }
    ensures unsure { trace.new.unsure ≡ trace.old.unsure }
{
    let path = path.copy(alloc)?;
    trace.reserve(1)?;
    Ok(ReadyPut {
        path,
        fingerprint,
        text: None,
    })
}

// The second as it is recorded. It has 64 bits, which a caller of a storage wouldn't know else.
fn told(second: u64) -> Option<u64>
    ensures value { result ≡ Some second }
    ensures fits { second < 2 ^ 64 }
{
    Some(second)
}

// Records a put, in the place that was reserved. One without a second is unsure.
fn record_put(trace: &mut Trace, ready: ReadyPut, second: Option<u64>)
    requires { 1 ≤ spare trace.old }
    ensures changes { trace.new.changes.items
        ≡ trace.old.changes.items ++ put_of ready second ∷ [] }
    ensures unsure { trace.new.unsure ≡ is_none second }
{
    trace.unsure = second.is_none();
    let change = Change::Put {
        path: ready.path,
        fingerprint: ready.fingerprint,
        second,
        text: ready.text,
    };
    match trace.changes.push(change) {
        Ok(()) => {}
        Err(_) => {}
    }
}

// Makes ready the record of a delete: a copy of the path, and a place in the trace.
fn ready_delete(alloc: Global, path: &ObjPath, trace: &mut Trace) -> Result<ObjPath, NoMemory>
    ensures ready { IfOk result (λ copy. copy ≡ path.now) }
    ensures room { OnOk result (1 ≤ spare trace.new) }
    ensures changes { trace.new.changes.items ≡ trace.old.changes.items }
    ensures unsure { trace.new.unsure ≡ trace.old.unsure }
{
    let copy = path.copy(alloc)?;
    trace.reserve(1)?;
    Ok(copy)
}

// Records a delete, in the place that was reserved.
fn record_delete(trace: &mut Trace, path: ObjPath, is_unsure: bool)
    requires { 1 ≤ spare trace.old }
    ensures changes { trace.new.changes.items ≡ trace.old.changes.items ++ Delete path ∷ [] }
    ensures unsure { trace.new.unsure ≡ is_unsure }
{
    trace.unsure = is_unsure;
    match trace.changes.push(Change::Delete { path }) {
        Ok(()) => {}
        Err(_) => {}
    }
}

/// Puts an object that isn't a data object, and records the put. The place in the trace is reserved
/// before the put. After `Failed` the object was stored or it wasn't, and the trace is unsure; after
/// `Memory` nothing was stored and nothing recorded.
pub fn put_recorded<S: Storage>(
    alloc: Global,
    store: &mut S,
    path: &ObjPath,
    bytes: &[u8],
    trace: &mut Trace,
) -> Result<u64, Denied>
    requires free { MayChange path.now (S.state store.old).terms }
    requires no_data { IsNoData path.now (S.state store.old).terms }
    requires sure { trace.old.unsure ≡ false }
    ensures makes { MakesPut Denied.Failed path.now bytes.now result (S.state store.old)
        (S.state store.new) (S.stood store.old) (S.stood store.new) trace.old trace.new }
    ensures err { StopsShort 1 result trace.old trace.new }
    ensures sure { OnOk result (trace.new.unsure ≡ false) }
    ensures cause { HasCause (S.state store.old).faults (S.state store.new).faults result }
{
    let ready = match ready_put(alloc, path, bytes, trace) {
        Ok(ready) => ready,
        Err(NoMemory) => return Err(Denied::Memory),
    };
    match store.put(alloc, path, bytes) {
        Ok(second) => {
            record_put(trace, ready, told(second));
            Ok(second)
        }
        Err(Denied::Failed) => {
            record_put(trace, ready, None);
            Err(Denied::Failed)
        }
        Err(Denied::Memory) => Err(Denied::Memory),
    }
}

/// Deletes an object, and records the delete, as [`put_recorded`] does a put.
pub fn delete_recorded<S: Storage>(
    alloc: Global,
    store: &mut S,
    path: &ObjPath,
    trace: &mut Trace,
) -> Result<(), Denied>
    requires free { MayChange path.now (S.state store.old).terms }
    requires sure { trace.old.unsure ≡ false }
    ensures makes { MakesDelete Denied.Failed path.now result (S.state store.old)
        (S.state store.new) (S.stood store.old) (S.stood store.new) trace.old trace.new }
    ensures sure { OnOk result (trace.new.unsure ≡ false) }
    ensures cause { HasCause (S.state store.old).faults (S.state store.new).faults result }
{
    let copy = match ready_delete(alloc, path, trace) {
        Ok(copy) => copy,
        Err(NoMemory) => return Err(Denied::Memory),
    };
    match store.delete(alloc, path) {
        Ok(()) => {
            record_delete(trace, copy, false);
            Ok(())
        }
        Err(Denied::Failed) => {
            record_delete(trace, copy, true);
            Err(Denied::Failed)
        }
        Err(Denied::Memory) => Err(Denied::Memory),
    }
}

// Makes ready the record of what is being uploaded under the path.
fn ready_commit<S: Storage>(
    alloc: Global,
    store: &mut S,
    path: &ObjPath,
    trace: &mut Trace,
) -> Result<ReadyPut, NoMemory>
    requires { IsUploading path.now (S.state store.old) }
    ensures ready { IfOk result (λ ready. (bytes : List ℕ)
        → (S.state store.old).upload ≡ Some (upload_of path.now bytes)
        → ready ≡ ready_of true path.now bytes) }
    ensures room { OnOk result (1 ≤ spare trace.new) }
    ensures changes { trace.new.changes.items ≡ trace.old.changes.items }
    ensures unsure { trace.new.unsure ≡ trace.old.unsure }
    ensures same { S.state store.new ≡ S.state store.old }
    ensures looks { OnlyReads (S.state store.old) (S.state store.new) (S.stood store.old)
        (S.stood store.new) }
{
    match store.uploaded() {
        Some(fingerprint) => ready_data_put(alloc, path, fingerprint, trace),
        None => unreachable!(),
    }
}

/// Commits what is being uploaded under the path of a data object, and records the put, as
/// [`put_recorded`] does. There is no upload afterwards, whatever it answers.
pub fn commit_recorded<S: Storage>(
    alloc: Global,
    store: &mut S,
    path: &ObjPath,
    trace: &mut Trace,
) -> Result<u64, Denied>
    requires upload { IsUploading path.now (S.state store.old) }
    requires data { is_data (S.state store.old).terms.bucket.layout path.now ≡ true }
    requires sure { trace.old.unsure ≡ false }
    ensures makes { (bytes : List ℕ)
        → (S.state store.old).upload ≡ Some (upload_of path.now bytes)
        → MakesPut Denied.Failed path.now bytes result (with_upload None (S.state store.old))
        (S.state store.new) (S.stood store.old) (S.stood store.new) trace.old trace.new }
    ensures sure { OnOk result (trace.new.unsure ≡ false) }
    ensures cause { HasCause (S.state store.old).faults (S.state store.new).faults result }
{
    let ready = match ready_commit(alloc, store, path, trace) {
        Ok(ready) => ready,
        Err(NoMemory) => {
            store.drop_upload();
            return Err(Denied::Memory);
        }
    };
    match store.commit(alloc) {
        Ok(second) => {
            record_put(trace, ready, told(second));
            Ok(second)
        }
        Err(Denied::Failed) => {
            record_put(trace, ready, None);
            Err(Denied::Failed)
        }
        Err(Denied::Memory) => Err(Denied::Memory),
    }
}
