// What a backup begins with, read from its snapshot.
ghost use Rattle.std.specs.Prelude.{◌≡◌, ◌≤◌, ◌↔◌, true, IfOk, IfErr, IfSome};
ghost use Rattle.std.specs.List.{AllByRecursion};
ghost use Rattle.med_base.specs.Key.{AreRising, IsKey};
ghost use Rattle.med_outside.specs.Snapshot.{StaysOpen};
ghost use Rattle.med_ring.specs.Ring.{IsRing};
ghost use Rattle.med_backup.specs.Backups.{AreSourcesOf, HasHost};
ghost use Rattle.med_backup.specs.Sources.{BlamesRing, BlamesSources, sources_of};

use crate::BackupError;
use crate::keys::{WalkError, walk};
use med_base::{FileKey, Fqdn, NoMemory};
use med_outside::{CopyFault, Snap};
use med_ring::{Ring, RingError};
use std::alloc::Global;

/// What a backup begins with: the keys of the files in order, the schema and the token map.
#[derive(Drop)]
pub struct Ready {
    pub keys: Vec<FileKey>,
    pub schema: Vec<u8>,
    pub ring: Ring,
}

// The ring of the node's cluster, which has a host of the node's name.
fn ring_with(alloc: Global, text: &[u8], node: &Fqdn) -> Result<Ring, BackupError>
    ensures ok { IfOk result (λ ring. IsRing text.now ring × HasHost ring node.now) }
    ensures err { IfErr result (BlamesRing text.now node.now) }
{
    let ring = match Ring::read(alloc, text) {
        Ok(ring) => ring,
        Err(RingError::Why(why)) => return Err(BackupError::BadRing(why)),
        Err(RingError::Memory) => return Err(BackupError::Fault(CopyFault::Memory)),
    };
    let has = has_host(&ring, node);
    if has {
        return Ok(ring);
    }
    match node.copy(alloc) {
        Ok(host) => Err(BackupError::NotInRing { host }),
        Err(NoMemory) => Err(BackupError::Fault(CopyFault::Memory)),
    }
}

// Whether the ring has a host of the name.
fn has_host(ring: &Ring, name: &Fqdn) -> bool
    ensures { (result ≡ true) ↔ HasHost ring.now name.now }
{
    match ring.tokens_of(name) {
        Some(_) => true,
        None => false,
    }
}

/// Reads what a backup of the node begins with: the keys of the snapshot's files, its schema and its
/// token map, which has a host of the node's name. It changes nothing.
pub(crate) fn prepare<P: Snap>(
    alloc: Global,
    snap: &mut P,
    node: &Fqdn,
) -> Result<Ready, BackupError>
    ensures rising { IfOk result (λ ready. AreRising ready.keys.items) }
    ensures names { IfOk result (λ ready. AllByRecursion IsKey ready.keys.items) }
    ensures sources { IfOk result (λ ready. IfSome (P.state snap.old).held
        (λ s. AreSourcesOf node.now s (sources_of ready))) }
    ensures err { IfErr result (BlamesSources node.now (P.state snap.old).held
        (P.state snap.old).faults (P.state snap.new).faults) }
    ensures same { StaysOpen (P.state snap.old) (P.state snap.new) }
    ensures later { (P.state snap.old).faults ≤ (P.state snap.new).faults }
{
    let keys = match walk(alloc, snap) {
        Ok(keys) => keys,
        Err(WalkError::NoSnapshot) => return Err(BackupError::NoSnapshot),
        Err(WalkError::BadFileName { at }) => return Err(BackupError::BadFileName { at }),
        Err(WalkError::Snap) => return Err(BackupError::Fault(CopyFault::Snap)),
        Err(WalkError::Memory) => return Err(BackupError::Fault(CopyFault::Memory)),
    };
    let schema = match snap.schema(alloc) {
        Ok(schema) => schema,
        Err(denied) => return Err(BackupError::Fault(CopyFault::of_snap(denied))),
    };
    let text = match snap.ring(alloc) {
        Ok(text) => text,
        Err(denied) => return Err(BackupError::Fault(CopyFault::of_snap(denied))),
    };
    match ring_with(alloc, text.as_slice(), node) {
        Ok(ring) => Ok(Ready { keys, schema, ring }),
        Err(error) => Err(error),
    }
}
