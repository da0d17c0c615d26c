// The backup of one node over its shelf, in either mode.
ghost use Rattle.std.specs.Prelude.{◌≡◌, [], false};
ghost use Rattle.med_outside.specs.State.{ChangesWithin};
ghost use Rattle.med_backup.specs.Sources.{error_of_claim};
ghost use Rattle.med_backup.specs.Backups.{AsksAsBackup, BacksUp, WhereRefused};
ghost use Rattle.med_shelf.specs.Shelf.{MayAct};

use crate::behind::place_and_finish;
use crate::report::{BackupReport, report_of};
use crate::sources::prepare;
use med_base::{BackupName, Fqdn, NoMemory, ObjPath};
use med_outside::{CopyFault, Mode, Snap, Storage, Trace};
use med_ring::RingWhy;
use med_shelf::{ClaimError, Shelf};
use std::alloc::Global;

/// Why a backup wasn't made.
#[derive(Drop)]
pub enum BackupError {
    /// The snapshot has no key.
    NoSnapshot,
    /// The key at this place of the snapshot's list is the first with a part that is no component.
    BadFileName { at: usize },
    /// The snapshot's token map doesn't read.
    BadRing(RingWhy),
    /// The token map has no host of the node's name.
    NotInRing { host: Fqdn },
    /// A backup of this name is being made.
    Running { name: BackupName },
    /// An object of this path lies under the folder of the backup.
    Taken { path: ObjPath },
    Fault(CopyFault),
}

// Why a backup isn't made where its name isn't claimed.
fn of_claim(error: ClaimError) -> BackupError
    ensures { result ≡ error_of_claim error }
{
    match error {
        ClaimError::Running { name } => BackupError::Running { name },
        ClaimError::Taken { path } => BackupError::Taken { path },
        ClaimError::Store => BackupError::Fault(CopyFault::Store),
        ClaimError::Memory => BackupError::Fault(CopyFault::Memory),
    }
}

/// Backs up the snapshot of the shelf's node. Its keys, its schema and its token map are read first;
/// then the name is claimed, each file is placed in order of the keys, and the backup is finished. A
/// refusal before the claim changes nothing. After a refusal in a place the claim is given up.
pub fn backup_node<S: Storage, P: Snap>(
    alloc: Global,
    shelf: &mut Shelf,
    store: &mut S,
    snap: &mut P,
    name: &BackupName,
    mode: Mode,
    trace: &mut Trace,
) -> Result<BackupReport, BackupError>
    requires { MayAct shelf.old (S.state store.old) trace.old }
    ensures backs_up { BacksUp shelf.old shelf.new name.now mode (P.state snap.old).held result
        (S.state store.old) (S.state store.new) (S.stood store.old) (S.stood store.new)
        trace.old trace.new }
    ensures still { WhereRefused result (ChangesWithin [] (S.state store.old) (S.state store.new)
        (S.stood store.old) (S.stood store.new)) }
    ensures asks { AsksAsBackup (P.state snap.old) (P.state snap.new) (S.state store.old)
        (S.state store.new) result }
{
    let node = match shelf.node().copy(alloc) {
        Ok(node) => node,
        Err(NoMemory) => return Err(BackupError::Fault(CopyFault::Memory)),
    };
    let ready = match prepare(alloc, snap, &node) {
        Ok(ready) => ready,
        Err(error) => return Err(error),
    };
    let (schema, ring) = (ready.schema.as_slice(), &ready.ring);
    let claim = match shelf.claim(alloc, store, name, mode, schema, ring, trace) {
        Ok(claim) => claim,
        Err(error) => return Err(of_claim(error)),
    };
    match place_and_finish(alloc, shelf, store, claim, ready.keys, snap, trace) {
        Ok(finished) => Ok(report_of(node, finished)),
        Err(fault) => Err(BackupError::Fault(fault)),
    }
}
