// Files of a snapshot that are sent: each is stored, or the shared file that stands is left.
ghost use Rattle.std.specs.Prelude.{◌≡◌, true, false, Some, None, IfSome};
ghost use Rattle.med_base.specs.Classify.{is_data};
ghost use Rattle.med_outside.specs.Sent.{AsksBoth};
ghost use Rattle.med_outside.specs.Snapshot.{HasKey};
ghost use Rattle.med_outside.specs.State.{IsAtRest};
ghost use Rattle.med_shelf.specs.Places.{SendsBeside, SendsFile, how_unless, stands_as};

use med_base::{FileKey, Fingerprint, ObjPath};
use med_core::How;
use med_outside::{CopyFault, Snap, Storage, Trace, commit_recorded, print_file, upload_file};
use std::alloc::Global;

/// How a file came to its path, and its fingerprint.
#[derive(Clone, Copy)]
pub(crate) struct Placed {
    pub fingerprint: Fingerprint,
    pub how: How,
}

/// A copy of the key of a file, and its two paths.
#[derive(Drop)]
pub(crate) struct Paths {
    pub key: FileKey,
    pub shared: ObjPath,
    pub own: ObjPath,
}

/// Whether an object stands and has this fingerprint.
pub(crate) fn stands(standing: Option<Fingerprint>, fingerprint: Fingerprint) -> bool
    ensures { result ≡ stands_as standing fingerprint }
{
    match standing {
        None => false,
        Some(print) => print.size == fingerprint.size && print.md5 == fingerprint.md5,
    }
}

// How a file comes to its path that is stored: beside the shared file that stands, or where none
// does.
fn how_stored(standing: Option<Fingerprint>) -> How
    ensures { result ≡ how_unless false standing }
{
    match standing {
        None => How::Stored,
        Some(_) => How::Aside,
    }
}

/// Stores the file of the snapshot under the path, and records the put. Where what was uploaded has
/// the fingerprint of the shared file that stands, the upload is dropped.
pub(crate) fn send_file<S: Storage, P: Snap>(
    alloc: Global,
    store: &mut S,
    snap: &mut P,
    key: &FileKey,
    path: &ObjPath,
    standing: Option<Fingerprint>,
    trace: &mut Trace,
) -> Result<Placed, CopyFault>
    requires rest { IsAtRest (S.state store.old) }
    requires data { is_data (S.state store.old).terms.bucket.layout path.now ≡ true }
    requires sure { trace.old.unsure ≡ false }
    requires key { IfSome (P.state snap.old).held (HasKey key.now) }
    ensures sends { SendsFile standing path.now key.now (P.state snap.old).held result
        (S.state store.old) (S.state store.new) (S.stood store.old) (S.stood store.new) trace.old
        trace.new }
    ensures asks { AsksBoth (P.state snap.old) (P.state snap.new) (S.state store.old)
        (S.state store.new) result }
{
    let fingerprint = match upload_file(alloc, store, snap, key, path) {
        Ok(fingerprint) => fingerprint,
        Err(fault) => return Err(fault),
    };
    if stands(standing, fingerprint) {
        store.drop_upload();
        return Ok(Placed {
            fingerprint,
            how: How::Reused,
        });
    }
    let how = how_stored(standing);
    match commit_recorded(alloc, store, path, trace) {
        Ok(_) => Ok(Placed { fingerprint, how }),
        Err(denied) => Err(CopyFault::of_store(denied)),
    }
}

// Stores the file under its own path, beside the shared file that stands, unless it has the
// fingerprint of that.
fn place_beside<S: Storage, P: Snap>(
    alloc: Global,
    store: &mut S,
    snap: &mut P,
    key: &FileKey,
    own: &ObjPath,
    standing: Fingerprint,
    trace: &mut Trace,
) -> Result<Placed, CopyFault>
    requires rest { IsAtRest (S.state store.old) }
    requires data { is_data (S.state store.old).terms.bucket.layout own.now ≡ true }
    requires sure { trace.old.unsure ≡ false }
    requires key { IfSome (P.state snap.old).held (HasKey key.now) }
    ensures sends { SendsFile (Some standing) own.now key.now (P.state snap.old).held result
        (S.state store.old) (S.state store.new) (S.stood store.old) (S.stood store.new) trace.old
        trace.new }
    ensures asks { AsksBoth (P.state snap.old) (P.state snap.new) (S.state store.old)
        (S.state store.new) result }
{
    let fingerprint = match print_file(alloc, snap, key) {
        Ok(fingerprint) => fingerprint,
        Err(denied) => return Err(CopyFault::of_snap(denied)),
    };
    if stands(Some(standing), fingerprint) {
        return Ok(Placed {
            fingerprint,
            how: How::Reused,
        });
    }
    send_file(alloc, store, snap, key, own, Some(standing), trace)
}

/// Stores the file under its shared path where no shared file stands, and else beside that one.
pub(crate) fn place_shared<S: Storage, P: Snap>(
    alloc: Global,
    store: &mut S,
    snap: &mut P,
    key: &FileKey,
    paths: &Paths,
    trace: &mut Trace,
) -> Result<Placed, CopyFault>
    requires rest { IsAtRest (S.state store.old) }
    requires shared { is_data (S.state store.old).terms.bucket.layout paths.now.shared ≡ true }
    requires own { is_data (S.state store.old).terms.bucket.layout paths.now.own ≡ true }
    requires sure { trace.old.unsure ≡ false }
    requires key { IfSome (P.state snap.old).held (HasKey key.now) }
    ensures sends { SendsBeside paths.now.shared paths.now.own key.now (P.state snap.old).held
        result (S.state store.old) (S.state store.new) (S.stood store.old) (S.stood store.new)
        trace.old trace.new }
    ensures asks { AsksBoth (P.state snap.old) (P.state snap.new) (S.state store.old)
        (S.state store.new) result }
{
    match store.stat(alloc, &paths.shared) {
        Ok(None) => send_file(alloc, store, snap, key, &paths.shared, None, trace),
        Ok(Some(stat)) => {
            let standing = stat.fingerprint;
            place_beside(alloc, store, snap, key, &paths.own, standing, trace)
        }
        Err(denied) => Err(CopyFault::of_store(denied)),
    }
}
