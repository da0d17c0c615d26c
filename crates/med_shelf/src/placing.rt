// Files of a snapshot that are placed: each is sent, and gets a record.
ghost use Rattle.std.specs.Prelude.{◌≡◌, ◌≤◌, ◌-◌, ◌++◌, ◌∷◌, [], true, false, None, Some, IfOk, IfSome, vec_len, vec_capacity};
ghost use Rattle.med_base.specs.Key.{IsKey};
ghost use Rattle.med_base.specs.Kinds.{IsBackupName, IsFqdn};
ghost use Rattle.med_base.specs.Layout.{own_path, shared_path};
ghost use Rattle.med_index.specs.Modes.{is_differential};
ghost use Rattle.med_outside.specs.Sent.{AsksBoth};
ghost use Rattle.med_outside.specs.Snapshot.{HasKey};
ghost use Rattle.med_outside.specs.State.{IsReady};
ghost use Rattle.med_shelf.specs.Places.{IsToPlace, Places, PlacesFile, path_by};
ghost use Rattle.med_shelf.specs.Shelf.{IsClaimOf, MayAct};

use crate::sending::{Paths, Placed, place_shared, send_file};
use crate::{Claim, PlaceError, Shelf};
use med_base::{BackupName, FileKey, Fqdn, Layout, NoMemory, ObjPath};
use med_core::{How, Mode, Record};
use med_manifest::FileRecord;
use med_outside::{CopyFault, Snap, Storage, Trace};
use std::alloc::Global;

// A node, the name of a backup and a key are what their types say.
fn are_names(node: &Fqdn, name: &BackupName, key: &FileKey)
    ensures node { IsFqdn node.now }
    ensures name { IsBackupName name.now }
    ensures key { IsKey key.now }
{
    let _node = node.as_str();
    let _name = name.as_str();
    let _keyspace = key.keyspace.as_str();
    let _table = key.table.as_str();
    let _file = key.file.as_str();
}

// The paths of a file of the backup, which are those of data objects.
fn paths_of(
    alloc: Global,
    layout: &Layout,
    node: &Fqdn,
    name: &BackupName,
    key: &FileKey,
) -> Result<Paths, NoMemory>
    ensures { IfOk result (λ paths. paths ≡ record {
      key = key.now;
      shared = shared_path layout.now node.now key.now;
      own = own_path layout.now node.now name.now key.now;
    }) }
{
    let key_copy = key.copy(alloc)?;
    let shared = layout.shared(alloc, node, key)?;
    let own = layout.own(alloc, node, name, key)?;
    Ok(Paths {
        key: key_copy,
        shared,
        own,
    })
}

// The path of a file of a differential backup, by how it came there.
fn chosen(how: How, shared: ObjPath, own: ObjPath) -> ObjPath
    ensures { result ≡ path_by how shared own }
{
    match how {
        How::Reused | How::Stored => shared,
        How::Aside => own,
    }
}

// The record of a file of a differential backup.
fn record_of(paths: Paths, placed: Placed) -> Record
    ensures { result ≡ record {
      file = record {
        key = paths.key;
        path = path_by placed.how paths.shared paths.own;
        fingerprint = placed.fingerprint;
      };
      how = placed.how;
    } }
{
    let path = chosen(placed.how, paths.shared, paths.own);
    Record {
        file: FileRecord {
            key: paths.key,
            path,
            fingerprint: placed.fingerprint,
        },
        how: placed.how,
    }
}

// Places a file of a full backup.
fn place_full<S: Storage, P: Snap>(
    alloc: Global,
    store: &mut S,
    snap: &mut P,
    layout: &Layout,
    node: &Fqdn,
    name: &BackupName,
    key: &FileKey,
    trace: &mut Trace,
) -> Result<Record, CopyFault>
    requires ready { IsReady layout.now (S.state store.old) }
    requires sure { trace.old.unsure ≡ false }
    requires key { IfSome (P.state snap.old).held (HasKey key.now) }
    ensures places { PlacesFile layout.now node.now name.now false key.now
        (P.state snap.old).held result (S.state store.old) (S.state store.new)
        (S.stood store.old) (S.stood store.new) trace.old trace.new }
    ensures asks { AsksBoth (P.state snap.old) (P.state snap.new) (S.state store.old)
        (S.state store.new) result }
{
    are_names(node, name, key);
    let path = match layout.own(alloc, node, name, key) {
        Ok(path) => path,
        Err(NoMemory) => return Err(CopyFault::Memory),
    };
    let record_key = match key.copy(alloc) {
        Ok(copy) => copy,
        Err(NoMemory) => return Err(CopyFault::Memory),
    };
    match send_file(alloc, store, snap, key, &path, None, trace) {
        Ok(placed) => Ok(Record {
            file: FileRecord {
                key: record_key,
                path,
                fingerprint: placed.fingerprint,
            },
            how: placed.how,
        }),
        Err(fault) => Err(fault),
    }
}

// Places a file of a differential backup.
fn place_differential<S: Storage, P: Snap>(
    alloc: Global,
    store: &mut S,
    snap: &mut P,
    layout: &Layout,
    node: &Fqdn,
    name: &BackupName,
    key: &FileKey,
    trace: &mut Trace,
) -> Result<Record, CopyFault>
    requires ready { IsReady layout.now (S.state store.old) }
    requires sure { trace.old.unsure ≡ false }
    requires key { IfSome (P.state snap.old).held (HasKey key.now) }
    ensures places { PlacesFile layout.now node.now name.now true key.now
        (P.state snap.old).held result (S.state store.old) (S.state store.new)
        (S.stood store.old) (S.stood store.new) trace.old trace.new }
    ensures asks { AsksBoth (P.state snap.old) (P.state snap.new) (S.state store.old)
        (S.state store.new) result }
{
    are_names(node, name, key);
    let paths = match paths_of(alloc, layout, node, name, key) {
        Ok(paths) => paths,
        Err(NoMemory) => return Err(CopyFault::Memory),
    };
    match place_shared(alloc, store, snap, key, &paths, trace) {
        Ok(placed) => Ok(record_of(paths, placed)),
        Err(fault) => Err(fault),
    }
}

/// Places a file of the snapshot by the mode of the backup, and answers its record. All memory is
/// taken before the put, so a put that answered is the end. After a refusal there is no upload.
pub(crate) fn place_file<S: Storage, P: Snap>(
    alloc: Global,
    store: &mut S,
    snap: &mut P,
    layout: &Layout,
    node: &Fqdn,
    name: &BackupName,
    mode: Mode,
    key: &FileKey,
    trace: &mut Trace,
) -> Result<Record, CopyFault>
    requires ready { IsReady layout.now (S.state store.old) }
    requires sure { trace.old.unsure ≡ false }
    requires key { IfSome (P.state snap.old).held (HasKey key.now) }
    ensures places { PlacesFile layout.now node.now name.now (is_differential mode) key.now
        (P.state snap.old).held result (S.state store.old) (S.state store.new)
        (S.stood store.old) (S.stood store.new) trace.old trace.new }
    ensures asks { AsksBoth (P.state snap.old) (P.state snap.new) (S.state store.old)
        (S.state store.new) result }
{
    match mode {
        Mode::Full => place_full(alloc, store, snap, layout, node, name, key, trace),
        Mode::Differential => {
            place_differential(alloc, store, snap, layout, node, name, key, trace)
        }
    }
}

// Adds a record, in the place that was reserved.
fn add_record(records: &mut Vec<Record>, added: Record)
    requires { 1 ≤ vec_capacity records.old - vec_len records.old }
    ensures { records.new.items ≡ records.old.items ++ added ∷ [] }
{
    match records.push(added) {
        Ok(()) => {}
        Err(_) => {}
    }
}

impl Shelf {
    /// Places a file of the snapshot, and records it in the claim. In a full backup the file is
    /// stored as the backup's own. In a differential one it is stored as a shared file where none
    /// stands; a shared file of its size and MD5 is named, and beside any other one it is stored as
    /// the backup's own. After a refusal the claim is as before.
    pub fn place<S: Storage, P: Snap>(
        &mut self,
        alloc: Global,
        store: &mut S,
        claim: &mut Claim,
        key: &FileKey,
        snap: &mut P,
        trace: &mut Trace,
    ) -> Result<How, PlaceError>
        requires may { MayAct self.old (S.state store.old) trace.old }
        requires claim { IsClaimOf self.old claim.old }
        requires key { IsToPlace key.now claim.old (P.state snap.old).held }
        ensures places { Places self.old self.new claim.old claim.new key.now
            (P.state snap.old).held result (S.state store.old) (S.state store.new)
            (S.stood store.old) (S.stood store.new) trace.old trace.new }
        ensures asks { AsksBoth (P.state snap.old) (P.state snap.new) (S.state store.old)
            (S.state store.new) result }
    {
        are_names(&claim.node, &claim.name, key);
        match claim.records.reserve(1) {
            Ok(()) => {}
            Err(_) => return Err(CopyFault::Memory),
        }
        let (layout, node, name) = (&claim.layout, &claim.node, &claim.name);
        match place_file(
            alloc, store, snap, layout, node, name, claim.mode, key, trace,
        ) {
            Ok(record) => {
                let how = record.how;
                add_record(&mut claim.records, record);
                Ok(how)
            }
            Err(fault) => Err(fault),
        }
    }
}
