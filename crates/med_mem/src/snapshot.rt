// A snapshot in memory.
ghost use Rattle.std.specs.Prelude.{◌≡◌, Some, IfOk, map, option_map};
ghost use Rattle.std.specs.FinMap.{get};
ghost use Rattle.med_outside.specs.Causes.{HasCause};
ghost use Rattle.med_outside.specs.Pieces.{piece_at, EndsInRange};
ghost use Rattle.med_outside.specs.Snapshot.{key_of_raw, HasKey};
ghost use Rattle.med_mem.specs.Failing.{FailsAsTold};
ghost use Rattle.med_mem.specs.Snaps.{parts_of, files_of, order_of, held_by, asked};

use crate::failing::FailingCalls;
use crate::indexed::Indexed;
use crate::key::copy_raw;
use med_base::{FileKey, NoMemory};
use med_outside::{Denied, OpenedFor, Piece, RawKey, Snap};
use std::alloc::Global;
use std::marker::Model;

/// A file of a snapshot.
#[derive(Drop)]
pub struct MemFile {
    pub key: RawKey,
    pub bytes: Vec<u8>,
}

/// The files of a snapshot, the text of its schema and that of its ring. Of two files with one key
/// the first counts.
#[derive(Drop)]
pub struct MemSnap {
    pub files: Vec<MemFile>,
    pub schema: Vec<u8>,
    pub ring: Vec<u8>,
}

/// A snapshot that was opened. A call of it fails exactly where `fail_snap_at` of its nodes said so
/// before it was opened.
#[derive(Drop)]
pub struct MemOpened {
    held: Indexed,
    calls: FailingCalls,
    of: OpenedFor,
}

fn copy_files(alloc: Global, files: &[MemFile]) -> Result<Vec<MemFile>, NoMemory>
    ensures { IfOk result (λ copy. files_of copy.items ≡ files_of files.now) }
{
    let mut copy = Vec::new(alloc);
    for file in files {
        let key = copy_raw(alloc, &file.key)?;
        let bytes = file.bytes.as_slice().to_vec(alloc)?;
        copy.push(MemFile { key, bytes })?;
    }
    Ok(copy)
}

// The same snapshot again.
pub(crate) fn copy_snap(alloc: Global, snap: &MemSnap) -> Result<MemSnap, NoMemory>
    ensures { IfOk result (λ copy. parts_of copy ≡ parts_of snap.now) }
{
    let files = copy_files(alloc, snap.files.as_slice())?;
    let schema = snap.schema.as_slice().to_vec(alloc)?;
    let ring = snap.ring.as_slice().to_vec(alloc)?;
    Ok(MemSnap {
        files,
        schema,
        ring,
    })
}

impl Model for MemOpened {
    ghost use Rattle.med_mem.specs.Snaps.{Opened};

    ghost Value = { Opened };

    ghost view = { λ s. record { parts = s.held; calls = s.calls; of = s.of } };
}

impl MemOpened {
    pub(crate) fn new(held: Indexed, calls: FailingCalls, of: OpenedFor) -> MemOpened
        ensures { result ≡ record { parts = held; calls = calls; of = of } }
    {
        MemOpened { held, calls, of }
    }

    // What it was opened for.
    pub(crate) fn of(&self) -> &OpenedFor
        ensures { result.now ≡ self.now.of }
    {
        &self.of
    }

    pub(crate) fn faults(&self) -> u64
        ensures { result ≡ self.now.calls.faults }
    {
        self.calls.faults()
    }
}

impl Snap for MemOpened {
    ghost use Rattle.med_mem.specs.Snaps.{snap_state};
    ghost use Rattle.med_mem.specs.OrderLaw.{listed_once_of};

    ghost state = { snap_state };

    ghost listed_once = { λ s. listed_once_of s.parts };

    fn keys(&mut self, alloc: Global) -> Result<Vec<RawKey>, Denied>
        ensures keys { IfOk result
            (λ keys. map key_of_raw keys.items ≡ order_of self.old.parts.files) }
        ensures same { self.new ≡ asked self.old }
        ensures failed { FailsAsTold self.old.calls result }
        ensures cause { HasCause self.old.calls.faults self.new.calls.faults result }
    {
        if self.calls.next_fails() {
            return Err(Denied::Failed);
        }
        Ok(self.held.keys(alloc)?)
    }

    fn read_piece(&mut self, alloc: Global, key: &FileKey, from: u64) -> Result<Piece, Denied>
        requires { HasKey key.now (held_by self.old) }
        ensures piece { IfOk result
            (λ piece. Some piece
            ≡ option_map (piece_at from) (get (held_by self.old).files key.now)) }
        ensures range { IfOk result (EndsInRange from) }
        ensures same { self.new ≡ asked self.old }
        ensures failed { FailsAsTold self.old.calls result }
        ensures cause { HasCause self.old.calls.faults self.new.calls.faults result }
    {
        if self.calls.next_fails() {
            return Err(Denied::Failed);
        }
        Ok(self.held.read_piece(alloc, key, from)?)
    }

    fn schema(&mut self, alloc: Global) -> Result<Vec<u8>, Denied>
        ensures bytes { IfOk result (λ bytes. bytes.items ≡ self.old.parts.schema) }
        ensures same { self.new ≡ asked self.old }
        ensures failed { FailsAsTold self.old.calls result }
        ensures cause { HasCause self.old.calls.faults self.new.calls.faults result }
    {
        if self.calls.next_fails() {
            return Err(Denied::Failed);
        }
        Ok(self.held.schema().to_vec(alloc)?)
    }

    fn ring(&mut self, alloc: Global) -> Result<Vec<u8>, Denied>
        ensures bytes { IfOk result (λ bytes. bytes.items ≡ self.old.parts.ring) }
        ensures same { self.new ≡ asked self.old }
        ensures failed { FailsAsTold self.old.calls result }
        ensures cause { HasCause self.old.calls.faults self.new.calls.faults result }
    {
        if self.calls.next_fails() {
            return Err(Denied::Failed);
        }
        Ok(self.held.ring().to_vec(alloc)?)
    }
}
