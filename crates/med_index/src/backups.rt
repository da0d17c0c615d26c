// The backups of a node as rows.
ghost use Rattle.std.specs.Prelude.{◌≡◌, [], None, Some, IfOk, IfSome, OnOk, map};
ghost use Rattle.std.specs.BTreeMap.{IsOrdered, Updates, get};
ghost use Rattle.std.specs.List.Sorted.{IsPermutation, IsSorted};
ghost use Rattle.med_base.specs.NameOrder.{name_cmp};
ghost use Rattle.med_base.specs.Names.{backup_fault};
ghost use Rattle.med_outside.specs.State.{IsReady, OnlyReads};
ghost use Rattle.med_index.specs.Errors.{HasStoreCause};
ghost use Rattle.med_index.specs.Marks.{with_mark, or_none, row_of as row_with};
ghost use Rattle.med_index.specs.Rows.{AreApart, AreBackups, AreInOrder, AreMarked, row_cmp};
ghost use Rattle.med_index.specs.Visits.{AreFound};

use crate::ListError;
use crate::marks::Marks;
use crate::meta::meta_at;
use crate::pages::{Visitor, walk};
use crate::running::set_of;
use med_base::{BackupName, Fqdn, Layout, MetaKind, NameError, NoMemory};
use med_outside::{BackupRow, Entry, Storage};
use std::alloc::Global;
use std::cmp::Ordering;
use std::collections::{BTreeMap, BTreeSet};

// What was found of the backups of a node.
#[derive(Drop)]
struct Backups<'a> {
    node: &'a Fqdn,
    found: BTreeMap<BackupName, Marks>,
}

// What was found of the backup.
fn marks_at(found: &BTreeMap<BackupName, Marks>, name: &BackupName) -> Marks
    ensures { result ≡ or_none (get name_cmp found.now name.now) }
{
    match found.get(name) {
        Some(marks) => *marks,
        None => Marks::none(),
    }
}

// Notes the second of an object of a backup.
fn note(
    alloc: Global,
    found: &mut BTreeMap<BackupName, Marks>,
    backup: &str,
    kind: MetaKind,
    second: u64,
) -> Result<(), NoMemory>
    requires { backup_fault backup.now ≡ None }
    ensures { OnOk result
        (Updates name_cmp found.old found.new backup.now
        (Some (with_mark kind second (or_none (get name_cmp found.old backup.now))))) }
{
    let name = match BackupName::read(alloc, backup) {
        Ok(name) => name,
        Err(NameError::BadName { at: _ }) => unreachable!(),
        Err(NameError::Memory) => return Err(NoMemory),
    };
    let marks = marks_at(found, &name).with(kind, second);
    found.insert(name, marks)?;
    Ok(())
}

impl Visitor for Backups<'_> {
    ghost use Rattle.med_index.specs.Visits.{AreFound};

    ghost Terms = { Unit {0} };

    ghost terms = { λ _. tt };

    ghost found = { λ b before f c rest. AreFound b.node.now b.found before f c rest };

    ghost held = { λ b before f n. Unit {0} };

    fn visit(&mut self, alloc: Global, layout: &Layout, entry: &Entry) -> Result<(), NoMemory> {
        let node = self.node.as_str();
        let Some((owner, backup, kind)) = meta_at(layout, &entry.path) else {
            return Ok(());
        };
        if owner == node {
            note(alloc, &mut self.found, backup, kind, entry.second)
        } else {
            Ok(())
        }
    }
}

fn row_of(name: BackupName, marks: Marks, running: &BTreeSet<BackupName>) -> BackupRow
    ensures { result ≡ row_with running.now (name, marks) }
{
    let running = running.contains(&name);
    BackupRow {
        name,
        mode: marks.mode(),
        started: marks.start(),
        finished: marks.manifest,
        running,
    }
}

// The rows of the backups that were found, in order of their names.
fn rows_of(
    alloc: Global,
    found: BTreeMap<BackupName, Marks>,
    running: &BTreeSet<BackupName>,
) -> Result<Vec<BackupRow>, NoMemory>
    ensures rows { IfOk result (λ rows. rows.items ≡ map (row_with running.now) found.entries) }
    ensures order { OnOk result (IsOrdered name_cmp found) }
{
    let mut rows = Vec::new(alloc);
    for (name, marks) in found {
        rows.push(row_of(name, marks, running))?;
    }
    Ok(rows)
}

fn row_order(a: &BackupRow, b: &BackupRow) -> Ordering
    ensures { result ≡ row_cmp a.now b.now }
{
    let started = a.started.cmp(&b.started);
    started.then(a.name.cmp(&b.name))
}

fn sort_rows(rows: &mut Vec<BackupRow>)
    ensures same { IsPermutation rows.old.items rows.new.items }
    ensures order { IsSorted row_cmp rows.new.items }
{
    rows.sort_unstable_by(row_order);
}

/// What is found of the backups of the node, by their names. The bucket is only read; `Store` comes
/// only where its count of faults rose.
pub fn find_backups<S: Storage>(
    alloc: Global,
    store: &mut S,
    layout: &Layout,
    node: &Fqdn,
) -> Result<BTreeMap<BackupName, Marks>, ListError>
    ensures found { IfOk result
        (λ found. IfSome (S.state store.old).content
        (λ c. AreFound node.now found layout.now node.now c [])) }
    ensures looks { OnlyReads (S.state store.old) (S.state store.new) (S.stood store.old)
        (S.stood store.new) }
    ensures cause { HasStoreCause (S.state store.old).faults (S.state store.new).faults result }
{
    let folder = match layout.node_folder(alloc, node) {
        Ok(folder) => folder,
        Err(NoMemory) => return Err(ListError::Memory),
    };
    let mut backups = Backups {
        node,
        found: BTreeMap::new(alloc),
    };
    walk(alloc, store, layout, folder.as_str(), &mut backups)?;
    Ok(backups.found)
}

/// The backups of the node in order of their start, and then of their names. A row is marked as
/// running where its name is in the given list. The bucket is only read; `Store` comes only where
/// its count of faults rose.
pub fn rows<S: Storage>(
    alloc: Global,
    store: &mut S,
    layout: &Layout,
    node: &Fqdn,
    running: &[BackupName],
) -> Result<Vec<BackupRow>, ListError>
    requires { IsReady layout.now (S.state store.old) }
    ensures ok { IfOk result
        (λ rows. IfSome (S.state store.old).content
        (λ c. AreBackups c layout.now node.now rows.items)) }
    ensures order { IfOk result (λ rows. AreInOrder rows.items) }
    ensures apart { IfOk result (λ rows. AreApart rows.items) }
    ensures running { IfOk result (λ rows. AreMarked running.now rows.items) }
    ensures looks { OnlyReads (S.state store.old) (S.state store.new) (S.stood store.old)
        (S.stood store.new) }
    ensures cause { HasStoreCause (S.state store.old).faults (S.state store.new).faults result }
{
    let found = find_backups(alloc, store, layout, node)?;
    let running = match set_of(alloc, running) {
        Ok(running) => running,
        Err(NoMemory) => return Err(ListError::Memory),
    };
    match rows_of(alloc, found, &running) {
        Ok(mut rows) => {
            sort_rows(&mut rows);
            Ok(rows)
        }
        Err(NoMemory) => Err(ListError::Memory),
    }
}
