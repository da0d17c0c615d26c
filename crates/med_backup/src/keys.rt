// The keys of a snapshot, in order.
ghost use Rattle.std.specs.Prelude.{◌≡◌, ◌≤◌, None, IfOk, IfErr, OnOk, IfSome, IsErrOf, MatchOption, map};
ghost use Rattle.std.specs.List.{AllByRecursion};
ghost use Rattle.std.specs.FinMap as finite;
ghost use Rattle.med_base.specs.Names.{component_fault};
ghost use Rattle.med_base.specs.Key.{AreRising, IsKey};
ghost use Rattle.med_outside.specs.Causes.{RoseOrFull};
ghost use Rattle.med_outside.specs.Snapshot.{StaysOpen, key_of_raw};
ghost use Rattle.med_backup.specs.Walked.{CanBeWalked, BlamesWalk, BlamesKeys, added};

use med_base::{Component, FileKey, NameError, NoMemory};
use med_outside::{Denied, RawKey, Snap};
use std::alloc::{AllocError, Global};
use std::collections::BTreeMap;

/// Why the keys of a snapshot are no names of files.
#[derive(Clone, Copy, Debug, PartialEq, Eq)]
pub enum WalkError {
    /// The snapshot has no key.
    NoSnapshot,
    /// The key at this place of the snapshot's list is the first with a part that is no component.
    BadFileName { at: usize },
    /// The snapshot's count of faults rose.
    Snap,
    Memory,
}

// The component of the text, or `None` where it is none.
fn component(alloc: Global, text: &str) -> Result<Option<Component>, NoMemory>
    ensures { IfOk result
        (λ name. MatchOption name (component_fault text.now ≡ None → ⊥)
        (λ c. (c ≡ text.now) × (component_fault text.now ≡ None))) }
{
    match Component::read(alloc, text) {
        Ok(name) => Ok(Some(name)),
        Err(NameError::BadName { at: _ }) => Ok(None),
        Err(NameError::Memory) => Err(NoMemory),
    }
}

// The key of three components, or `None` where a part is none.
fn file_key(alloc: Global, raw: &RawKey) -> Result<Option<FileKey>, NoMemory>
    ensures { IfOk result
        (λ key. MatchOption key (IsKey (key_of_raw raw.now) → ⊥)
        (λ k. (k ≡ key_of_raw raw.now) × IsKey (key_of_raw raw.now))) }
{
    let Some(keyspace) = component(alloc, raw.keyspace.as_str())? else {
        return Ok(None);
    };
    let Some(table) = component(alloc, raw.table.as_str())? else {
        return Ok(None);
    };
    let Some(file) = component(alloc, raw.file.as_str())? else {
        return Ok(None);
    };
    Ok(Some(FileKey {
        keyspace,
        table,
        file,
    }))
}

// The keys in order, each once.
fn ordered(alloc: Global, raws: &[RawKey]) -> Result<BTreeMap<FileKey, ()>, WalkError>
    ensures keys { IfOk result
        (λ keys. keys.entries ≡ finite.entries (added finite.empty (map key_of_raw raws.now))) }
    ensures names { OnOk result (AllByRecursion IsKey (map key_of_raw raws.now)) }
    ensures err { IfErr result (BlamesKeys (map key_of_raw raws.now)) }
{
    let mut keys = BTreeMap::new(alloc);
    for (at, raw) in raws.iter().enumerate() {
        let key = match file_key(alloc, raw) {
            Ok(Some(key)) => key,
            Ok(None) => return Err(WalkError::BadFileName { at }),
            Err(NoMemory) => return Err(WalkError::Memory),
        };
        match keys.insert(key, ()) {
            Ok(_) => {}
            Err(_) => return Err(WalkError::Memory),
        }
    }
    Ok(keys)
}

// The keys of the map, in its order.
fn key_list(alloc: Global, keys: BTreeMap<FileKey, ()>) -> Result<Vec<FileKey>, AllocError>
    ensures { IfOk result (λ list. list.items ≡ map (λ e. e.0) keys.entries) }
{
    keys.into_keys().collect(alloc)
}

/// The keys of the snapshot, in order and without repeats.
pub fn walk<P: Snap>(alloc: Global, snap: &mut P) -> Result<Vec<FileKey>, WalkError>
    ensures rising { IfOk result (λ keys. AreRising keys.items) }
    ensures names { IfOk result (λ keys. AllByRecursion IsKey keys.items) }
    ensures keys { IfOk result
        (λ keys. IfSome (P.state snap.old).held (λ s. keys.items ≡ finite.keys s.files)) }
    ensures walked { OnOk result (IfSome (P.state snap.old).held CanBeWalked) }
    ensures err { IfErr result (λ error. IfSome (P.state snap.old).held (λ s. BlamesWalk s error)) }
    ensures same { StaysOpen (P.state snap.old) (P.state snap.new) }
    ensures later { (P.state snap.old).faults ≤ (P.state snap.new).faults }
    ensures snap_fault { IsErrOf result WalkError.Snap
        → RoseOrFull (P.state snap.old).faults (P.state snap.new).faults }
{
    let raws = match snap.keys(alloc) {
        Ok(raws) => raws,
        Err(Denied::Failed) => return Err(WalkError::Snap),
        Err(Denied::Memory) => return Err(WalkError::Memory),
    };
    if raws.as_slice().is_empty() {
        return Err(WalkError::NoSnapshot);
    }
    let keys = ordered(alloc, raws.as_slice())?;
    match key_list(alloc, keys) {
        Ok(keys) => Ok(keys),
        Err(AllocError) => Err(WalkError::Memory),
    }
}
