// All that goes with backups of a node.
ghost use Rattle.std.specs.Prelude.{◌≡◌, [], List, ℕ, OnOk, IfSome};
ghost use Rattle.std.specs.BTreeMap.{get};
ghost use Rattle.std.specs.List.{flat_map};
ghost use Rattle.med_base.specs.Content.{Content};
ghost use Rattle.med_base.specs.Layout.{meta_path};
ghost use Rattle.med_base.specs.NameOrder.{name_cmp};
ghost use Rattle.med_core.specs.Reach.{Removing};
ghost use Rattle.med_core.specs.Removal.{paths_of_backup};
ghost use Rattle.med_core.specs.Section.{Call, Remove};
ghost use Rattle.med_manifest.specs.Listed.{if_stands, paths_of};
ghost use Rattle.med_manifest.specs.Rebuild.{is_entry_of};
ghost use Rattle.med_manifest.specs.Vault.{second_of};
ghost use Rattle.med_outside.specs.State.{IsReady, OnlyReads};
ghost use Rattle.med_index.specs.Errors.{HasStoreCause};
ghost use Rattle.med_index.specs.Marks.{or_none};
ghost use Rattle.med_index.specs.Visits.{AreFound};
ghost use Rattle.med_removal.specs.Going.{Adds, AreRemovable};
ghost use Rattle.med_removal.specs.Marked.{AreMarksOf, paths_of_folder, paths_of_signs};

use crate::Going;
use crate::picking::add_content;
use med_base::{BackupName, Fqdn, Layout, MetaKind, NoMemory};
use med_index::{ListError, Marks, clean_entries};
use med_outside::Storage;
use std::alloc::Global;
use std::collections::BTreeMap;

// Adds the entries that the index has of the backup.
fn add_entries<S: Storage>(
    alloc: Global,
    store: &mut S,
    layout: &Layout,
    node: &Fqdn,
    name: &BackupName,
    going: &mut Going,
) -> Result<(), ListError>
    requires { IsReady layout.now (S.state store.old) }
    ensures told { OnOk result
        (IfSome (S.state store.old).content
        (λ c. Adds layout.now node.now c (paths_of layout.now c (is_entry_of node.now name.now))
        going.old going.new)) }
    ensures within { OnOk result
        ((call : Call) → AreRemovable layout.now node.now call going.old.paths.items
        → AreRemovable layout.now node.now call going.new.paths.items) }
    ensures ready { IsReady layout.now (S.state store.new) }
    ensures looks { OnlyReads (S.state store.old) (S.state store.new) (S.stood store.old)
        (S.stood store.new) }
    ensures cause { HasStoreCause (S.state store.old).faults (S.state store.new).faults result }
{
    let paths = match clean_entries(alloc, store, layout, node, name) {
        Ok(paths) => paths,
        Err(error) => return Err(error),
    };
    let entries = Going {
        paths,
        files: 0,
        bytes: 0,
    };
    match going.join(entries) {
        Ok(()) => Ok(()),
        Err(NoMemory) => Err(ListError::Memory),
    }
}

// Adds an object that tells of the backup, where it was found with a second.
fn add_meta(
    alloc: Global,
    layout: &Layout,
    node: &Fqdn,
    name: &BackupName,
    kind: MetaKind,
    second: Option<u64>,
    going: &mut Going,
) -> Result<(), NoMemory>
    ensures told { OnOk result
        ((c : Content) → second_of c layout.now node.now name.now kind ≡ second
        → Adds layout.now node.now c (if_stands c (meta_path layout.now node.now name.now kind))
        going.old going.new) }
    ensures within { OnOk result
        ((call : Call) → Removing call name.now
        → AreRemovable layout.now node.now call going.old.paths.items
        → AreRemovable layout.now node.now call going.new.paths.items) }
{
    let Some(_) = second else {
        return Ok(());
    };
    let path = layout.meta(alloc, node, name, kind)?;
    going.add(path, None)
}

// Adds the objects that tell of the backup, but for its manifest, where they were found.
fn add_signs(
    alloc: Global,
    layout: &Layout,
    node: &Fqdn,
    name: &BackupName,
    marks: Marks,
    going: &mut Going,
) -> Result<(), NoMemory>
    ensures told { OnOk result
        ((c : Content) → AreMarksOf c layout.now node.now name.now marks
        → Adds layout.now node.now c (paths_of_signs layout.now c node.now name.now) going.old
        going.new) }
    ensures within { OnOk result
        ((call : Call) → Removing call name.now
        → AreRemovable layout.now node.now call going.old.paths.items
        → AreRemovable layout.now node.now call going.new.paths.items) }
{
    let (marker, ring) = (MetaKind::Differential, MetaKind::Tokenmap);
    add_meta(alloc, layout, node, name, marker, marks.differential, going)?;
    add_meta(alloc, layout, node, name, ring, marks.tokenmap, going)?;
    add_meta(
        alloc,
        layout,
        node,
        name,
        MetaKind::Schema,
        marks.schema,
        going,
    )
}

// Adds the manifest of the backup, where it was found, what lies in the folder of the backup, and the
// other objects that tell of it.
fn add_folder<S: Storage>(
    alloc: Global,
    store: &mut S,
    layout: &Layout,
    node: &Fqdn,
    name: &BackupName,
    marks: Marks,
    going: &mut Going,
) -> Result<(), ListError>
    ensures told { OnOk result
        (IfSome (S.state store.old).content
        (λ c. AreMarksOf c layout.now node.now name.now marks
        → Adds layout.now node.now c (paths_of_folder layout.now c node.now name.now) going.old
        going.new)) }
    ensures within { OnOk result
        ((call : Call) → Removing call name.now
        → AreRemovable layout.now node.now call going.old.paths.items
        → AreRemovable layout.now node.now call going.new.paths.items) }
    ensures looks { OnlyReads (S.state store.old) (S.state store.new) (S.stood store.old)
        (S.stood store.new) }
    ensures cause { HasStoreCause (S.state store.old).faults (S.state store.new).faults result }
{
    let kind = MetaKind::Manifest;
    match add_meta(alloc, layout, node, name, kind, marks.manifest, going) {
        Ok(()) => {}
        Err(NoMemory) => return Err(ListError::Memory),
    }
    match add_content(alloc, store, layout, node, name, going) {
        Ok(()) => {}
        Err(error) => return Err(error),
    }
    match add_signs(alloc, layout, node, name, marks, going) {
        Ok(()) => Ok(()),
        Err(NoMemory) => Err(ListError::Memory),
    }
}

// Adds all that goes with the backup, in the order in which it goes, where `marks` is what was found
// of it.
fn add_backup<S: Storage>(
    alloc: Global,
    store: &mut S,
    layout: &Layout,
    node: &Fqdn,
    name: &BackupName,
    marks: Marks,
    going: &mut Going,
) -> Result<(), ListError>
    requires { IsReady layout.now (S.state store.old) }
    ensures told { OnOk result
        (IfSome (S.state store.old).content
        (λ c. AreMarksOf c layout.now node.now name.now marks
        → Adds layout.now node.now c (paths_of_backup layout.now c node.now name.now) going.old
        going.new)) }
    ensures within { OnOk result
        ((call : Call) → Removing call name.now
        → AreRemovable layout.now node.now call going.old.paths.items
        → AreRemovable layout.now node.now call going.new.paths.items) }
    ensures ready { IsReady layout.now (S.state store.new) }
    ensures looks { OnlyReads (S.state store.old) (S.state store.new) (S.stood store.old)
        (S.stood store.new) }
    ensures cause { HasStoreCause (S.state store.old).faults (S.state store.new).faults result }
{
    match add_entries(alloc, store, layout, node, name, going) {
        Ok(()) => {}
        Err(error) => return Err(error),
    }
    add_folder(alloc, store, layout, node, name, marks, going)
}

// What was found of the backup.
fn marks_at(found: &BTreeMap<BackupName, Marks>, name: &BackupName) -> Marks
    ensures { result ≡ or_none (get name_cmp found.now name.now) }
{
    match found.get(name) {
        Some(marks) => *marks,
        None => Marks {
            schema: None,
            differential: None,
            tokenmap: None,
            manifest: None,
        },
    }
}

/// Adds all that goes with these backups, one after the other, where `found` is what was found of the
/// node's backups. The bucket is only read; `Store` comes only where its count of faults rose.
pub fn add_backups<S: Storage>(
    alloc: Global,
    store: &mut S,
    layout: &Layout,
    node: &Fqdn,
    found: &BTreeMap<BackupName, Marks>,
    names: &[BackupName],
    going: &mut Going,
) -> Result<(), ListError>
    requires { IsReady layout.now (S.state store.old) }
    ensures told { OnOk result
        (IfSome (S.state store.old).content
        (λ c. AreFound node.now found.now layout.now node.now c []
        → Adds layout.now node.now c (flat_map (paths_of_backup layout.now c node.now) names.now)
        going.old going.new)) }
    ensures within { OnOk result
        ((grace now : ℕ) → AreRemovable layout.now node.now (Remove names.now grace now)
        going.old.paths.items
        → AreRemovable layout.now node.now (Remove names.now grace now) going.new.paths.items) }
    ensures ready { IsReady layout.now (S.state store.new) }
    ensures looks { OnlyReads (S.state store.old) (S.state store.new) (S.stood store.old)
        (S.stood store.new) }
    ensures cause { HasStoreCause (S.state store.old).faults (S.state store.new).faults result }
{
    for name in names {
        // The contract of `as_str` says that it is a name.
        let _ = name.as_str();
        let marks = marks_at(found, name);
        match add_backup(alloc, store, layout, node, name, marks, going) {
            Ok(()) => {}
            Err(error) => return Err(error),
        }
    }
    Ok(())
}
