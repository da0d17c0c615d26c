// A backup starts: its name is claimed, or given up again.
ghost use Rattle.std.specs.Prelude.{◌≡◌, ◌≤◌, ◌-◌, [], ◌∷◌, ◌↔◌, true, IfOk, vec_len, vec_capacity};
ghost use Rattle.med_base.specs.Kinds.{IsBackupName, IsFqdn};
ghost use Rattle.med_base.specs.Layout.{backup_folder};
ghost use Rattle.med_core.specs.Section as section;
ghost use Rattle.med_core.specs.Section.{Abandon, Done};
ghost use Rattle.med_core.specs.Run.{running_after};
ghost use Rattle.med_index.specs.Modes.{is_differential};
ghost use Rattle.med_outside.specs.Causes.{HasCause};
ghost use Rattle.med_outside.specs.State.{ChangesWithin, OnlyReads};
ghost use Rattle.med_ring.specs.Written.{ring_text};
ghost use Rattle.med_shelf.specs.Acts.{ActsAsClaim};
ghost use Rattle.med_shelf.specs.Claims.{claimed, first_entry, AnswersClaim, AnswersLook, HasClaimCause, IsFirstUnder, Runs, WhereRefused};
ghost use Rattle.med_shelf.specs.Shelf.{MayAct, IsClaimOf, running_of};

use crate::puts::put_claim;
use crate::{Claim, ClaimError, Shelf};
use med_base::{BackupName, Fqdn, Layout, NoMemory, ObjPath};
use med_outside::{Denied, Entry, Mode, Storage, Trace};
use med_ring::Ring;
use std::alloc::Global;

/// The rules that the two names keep, which their references don't tell.
pub(crate) fn names_keep_rules(node: &Fqdn, name: &BackupName)
    ensures node { IsFqdn node.now }
    ensures name { IsBackupName name.now }
{
    node.as_str();
    name.as_str();
}

// The path of the first entry, which takes no memory.
fn first_path_of(entries: Vec<Entry>) -> Option<ObjPath>
    ensures { result ≡ first_entry entries.items }
{
    match entries.into_iter().next() {
        Some(entry) => Some(entry.path),
        None => None,
    }
}

// The first path that lies in the folder of the backup.
fn first_under<S: Storage>(
    alloc: Global,
    store: &mut S,
    layout: &Layout,
    node: &Fqdn,
    name: &BackupName,
) -> Result<Option<ObjPath>, Denied>
    ensures first { IfOk result
        (IsFirstUnder (backup_folder layout.now node.now name.now) (S.state store.old).content) }
    ensures looks { OnlyReads (S.state store.old) (S.state store.new) (S.stood store.old)
        (S.stood store.new) }
    ensures cause { HasCause (S.state store.old).faults (S.state store.new).faults result }
{
    let folder = match layout.backup_folder(alloc, node, name) {
        Ok(folder) => folder,
        Err(NoMemory) => return Err(Denied::Memory),
    };
    match store.list_page(alloc, folder.as_str(), None) {
        Ok(page) => Ok(first_path_of(page.entries)),
        Err(denied) => Err(denied),
    }
}

// Whether a backup of the name is being made.
fn is_running(shelf: &Shelf, name: &BackupName) -> bool
    ensures { (result ≡ true) ↔ Runs shelf.now name.now }
{
    shelf.running.as_slice().contains(name)
}

// Looks at the name: it isn't running, and no object lies in the folder of the backup.
fn look<S: Storage>(
    alloc: Global,
    store: &mut S,
    shelf: &Shelf,
    name: &BackupName,
) -> Result<(), ClaimError>
    ensures answer { AnswersLook shelf.now name.now (S.state store.old).content result }
    ensures looks { OnlyReads (S.state store.old) (S.state store.new) (S.stood store.old)
        (S.stood store.new) }
    ensures cause { HasClaimCause (S.state store.old).faults (S.state store.new).faults result }
{
    if is_running(shelf, name) {
        return match name.copy(alloc) {
            Ok(name) => Err(ClaimError::Running { name }),
            Err(NoMemory) => Err(ClaimError::Memory),
        };
    }
    match first_under(alloc, store, &shelf.layout, &shelf.node, name) {
        Ok(None) => Ok(()),
        Ok(Some(path)) => Err(ClaimError::Taken { path }),
        Err(Denied::Failed) => Err(ClaimError::Store),
        Err(Denied::Memory) => Err(ClaimError::Memory),
    }
}

// A claim on the shelf, without records yet.
fn new_claim(alloc: Global, shelf: &Shelf, name: &BackupName, mode: Mode) -> Result<Claim, NoMemory>
    ensures { IfOk result (λ claim. claim ≡ claimed shelf.now name.now mode) }
{
    let layout = shelf.layout.copy(alloc)?;
    let node = shelf.node.copy(alloc)?;
    let name = name.copy(alloc)?;
    Ok(Claim {
        layout,
        node,
        name,
        mode,
        records: Vec::new(alloc),
    })
}

// What a claim takes memory for before its first put, beside a place among the running names: the
// claim, its name as a running one, and the text of the ring.
#[derive(Drop)]
struct ReadyClaim {
    claim: Claim,
    name: BackupName,
    ring: Vec<u8>,
}

fn ready_claim(
    alloc: Global,
    shelf: &Shelf,
    name: &BackupName,
    mode: Mode,
    ring: &Ring,
) -> Result<ReadyClaim, NoMemory>
    ensures claim { IfOk result (λ ready. ready.claim ≡ claimed shelf.now name.now mode) }
    ensures name { IfOk result (λ ready. ready.name ≡ name.now) }
    ensures text { IfOk result (λ ready. ready.ring.items ≡ ring_text ring.now) }
{
    let claim = new_claim(alloc, shelf, name, mode)?;
    let name = name.copy(alloc)?;
    let ring = ring.write(alloc)?;
    Ok(ReadyClaim { claim, name, ring })
}

// Puts a name before the others, in the place that was reserved.
fn add_name(names: &mut Vec<BackupName>, name: BackupName)
    requires { 1 ≤ vec_capacity names.old - vec_len names.old }
    ensures { names.new.items ≡ name ∷ names.old.items }
{
    match names.insert(0, name) {
        Ok(()) => {}
        Err(_) => {}
    }
}

impl Shelf {
    /// Starts a backup: its schema, the mark of a differential backup and its token map are put,
    /// and then its entries in the index. `Running` comes exactly where a backup of the name is
    /// being made, else `Taken` exactly where an object lies in its folder, with the first such path
    /// in byte order; then nothing was put. After `Store` and `Memory` a first part of these was
    /// put, and the name isn't running. All memory but that of the puts is taken before them.
    pub fn claim<S: Storage>(
        &mut self,
        alloc: Global,
        store: &mut S,
        name: &BackupName,
        mode: Mode,
        schema: &[u8],
        ring: &Ring,
        trace: &mut Trace,
    ) -> Result<Claim, ClaimError>
        requires { MayAct self.old (S.state store.old) trace.old }
        ensures acts { ActsAsClaim self.old self.new
            (section.Claim name.now (is_differential mode) schema.now (ring_text ring.now)) result
            (S.state store.old) (S.state store.new) (S.stood store.old) (S.stood store.new)
            trace.old trace.new }
        ensures answer { AnswersClaim self.old name.now mode result }
        ensures still { WhereRefused result (ChangesWithin [] (S.state store.old)
            (S.state store.new) (S.stood store.old) (S.stood store.new)) }
        ensures cause { HasClaimCause (S.state store.old).faults (S.state store.new).faults
            result }
    {
        names_keep_rules(&self.node, name);
        match look(alloc, store, self, name) {
            Ok(()) => {}
            Err(error) => return Err(error),
        }
        match self.running.reserve(1) {
            Ok(()) => {}
            Err(_) => return Err(ClaimError::Memory),
        }
        let ready = match ready_claim(alloc, self, name, mode, ring) {
            Ok(ready) => ready,
            Err(NoMemory) => return Err(ClaimError::Memory),
        };
        let (layout, node, ring) = (&self.layout, &self.node, ready.ring.as_slice());
        match put_claim(alloc, store, layout, node, name, mode, schema, ring, trace) {
            Ok(()) => {}
            Err(Denied::Failed) => return Err(ClaimError::Store),
            Err(Denied::Memory) => return Err(ClaimError::Memory),
        }
        add_name(&mut self.running, ready.name);
        Ok(ready.claim)
    }

    /// Gives a claim up: its name is no longer running. What was put stays, and its name taken. It
    /// takes no memory.
    pub fn abandon(&mut self, claim: Claim)
        requires { IsClaimOf self.old claim }
        ensures layout { self.new.layout ≡ self.old.layout }
        ensures node { self.new.node ≡ self.old.node }
        ensures running { running_of self.new
            ≡ running_after (running_of self.old) self.old.node (Abandon claim.name) Done }
    {
        self.running.retain(|name| *name != claim.name);
    }
}
