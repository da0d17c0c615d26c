// The paths that the manifests of a node name.
ghost use Rattle.std.specs.Prelude.{◌≡◌, ◌∷◌, [], ℕ, List, IfErr, IfOk, IfSome, OnOk};
ghost use Rattle.std.specs.BTreeMap.{IsOrdered};
ghost use Rattle.med_base.specs.Classify.{kind_of};
ghost use Rattle.med_base.specs.NameOrder.{name_cmp};
ghost use Rattle.med_outside.specs.State.{IsReady, OnlyReads};
ghost use Rattle.med_index.specs.Errors.{HasIndexCause};
ghost use Rattle.med_index.specs.Manifests.{AreNamed, IsBadManifest, IsManifestPath, IsStopped};
ghost use Rattle.med_index.specs.Marks.{IsSetOf};
ghost use Rattle.med_index.specs.Visits.{AreFound};
ghost use Rattle.med_removal.specs.Named.{AreNamesNoted, AreNamesOutside, AreNoted, HasShared, IsManifestNoted, TellsUnreadOutside, is_shared_kind, paths_in};

use crate::Named;
use med_base::{BackupName, Fqdn, Layout, NoMemory, ObjPath, OrMemory, PathKind};
use med_index::{IndexError, Manifests, Marks, manifests_outside};
use med_manifest::{FileRecord, Manifest};
use med_outside::{Denied, Storage};
use std::alloc::Global;
use std::collections::{BTreeMap, BTreeSet};

// Whether the path is that of a file that the backups of a node share.
fn is_shared_file(layout: &Layout, path: &ObjPath) -> bool
    ensures { result ≡ is_shared_kind (kind_of layout.now path.now) }
{
    match layout.classify(path) {
        PathKind::Shared { .. } => true,
        PathKind::Own { .. } | PathKind::Meta { .. } | PathKind::IndexEntry { .. } => false,
        PathKind::Latest { .. } | PathKind::Stray { .. } | PathKind::Other => false,
    }
}

// Notes a path, where it is that of a shared file.
fn note_path(layout: &Layout, path: ObjPath, named: &mut Named) -> Result<(), NoMemory>
    ensures { OnOk result (AreNoted layout.now (path ∷ []) named.old named.new) }
{
    if !is_shared_file(layout, &path) {
        return Ok(());
    }
    named.insert(path)?;
    Ok(())
}

// Notes the paths of the files.
fn note_files(layout: &Layout, files: Vec<FileRecord>, named: &mut Named) -> Result<(), NoMemory>
    ensures { OnOk result (AreNoted layout.now (paths_in files.items) named.old named.new) }
{
    for file in files {
        note_path(layout, file.path, named)?;
    }
    Ok(())
}

// Notes the paths that the manifest of a backup names. A storage that told of a manifest and then
// answers that none stands isn't one that is told: there nothing is noted.
fn note_manifest<S: Storage>(
    alloc: Global,
    store: &mut S,
    layout: &Layout,
    node: &Fqdn,
    name: &BackupName,
    path: &ObjPath,
    named: &mut Named,
) -> Result<(), IndexError>
    requires ready { IsReady layout.now (S.state store.old) }
    requires path { IsManifestPath layout.now node.now name.now path.now }
    ensures ok { OnOk result
        (IsManifestNoted (S.state store.old).content layout.now node.now name.now path.now
        named.old named.new) }
    ensures err { IfErr result
        (IsBadManifest (S.state store.old).content layout.now node.now name.now path.now) }
    ensures ready { IsReady layout.now (S.state store.new) }
    ensures looks { OnlyReads (S.state store.old) (S.state store.new) (S.stood store.old)
        (S.stood store.new) }
    ensures cause { HasIndexCause (S.state store.old).faults (S.state store.new).faults result }
{
    let found = match store.get(alloc, path) {
        Ok(found) => found,
        Err(Denied::Failed) => return Err(IndexError::Store),
        Err(Denied::Memory) => return Err(IndexError::Memory),
    };
    let Some(bytes) = found else {
        return Ok(());
    };
    match Manifest::read(alloc, layout, node, name, bytes.as_slice()) {
        Ok(manifest) => match note_files(layout, manifest.files, named) {
            Ok(()) => Ok(()),
            Err(NoMemory) => Err(IndexError::Memory),
        },
        Err(OrMemory::Memory) => Err(IndexError::Memory),
        Err(OrMemory::Why(why)) => match path.copy(alloc) {
            Ok(path) => Err(IndexError::BadManifest { path, why }),
            Err(NoMemory) => Err(IndexError::Memory),
        },
    }
}

// Notes the paths that the manifests name, in the order of the paths of the manifests.
fn note_manifests<S: Storage>(
    alloc: Global,
    store: &mut S,
    layout: &Layout,
    node: &Fqdn,
    manifests: Manifests,
    named: &mut Named,
) -> Result<(), IndexError>
    requires ready { IsReady layout.now (S.state store.old) }
    requires named { AreNamed layout.now node.now manifests }
    ensures ok { OnOk result
        (AreNamesNoted (S.state store.old).content layout.now node.now manifests.entries named.old
        named.new) }
    ensures err { IfErr result
        (IsStopped (S.state store.old).content layout.now node.now manifests.entries) }
    ensures order { IsOrdered name_cmp manifests }
    ensures ready { IsReady layout.now (S.state store.new) }
    ensures looks { OnlyReads (S.state store.old) (S.state store.new) (S.stood store.old)
        (S.stood store.new) }
    ensures cause { HasIndexCause (S.state store.old).faults (S.state store.new).faults result }
{
    for (path, name) in manifests {
        match note_manifest(alloc, store, layout, node, &name, &path, named) {
            Ok(()) => {}
            Err(error) => return Err(error),
        }
    }
    Ok(())
}

// No paths.
fn no_paths(alloc: Global) -> Named
    ensures { (before : List ℕ) → HasShared before [] result }
{
    BTreeSet::new(alloc)
}

/// The shared files that the manifests of the node's backups name, but for backups of some names, where
/// `found` is what was found of its backups. `BadManifest` comes exactly where one of these manifests
/// doesn't read, with the first such path in byte order. The bucket is only read; `Store` comes only
/// where its count of faults rose.
pub fn read_named<S: Storage>(
    alloc: Global,
    store: &mut S,
    layout: &Layout,
    node: &Fqdn,
    found: &BTreeMap<BackupName, Marks>,
    but: &BTreeSet<BackupName>,
) -> Result<Named, IndexError>
    requires ready { IsReady layout.now (S.state store.old) }
    ensures ok { IfOk result
        (λ named. IfSome (S.state store.old).content
        (λ c. AreFound node.now found.now layout.now node.now c [] → (names : List (List ℕ))
        → IsSetOf names but.now → AreNamesOutside layout.now c node.now names named)) }
    ensures err { IfErr result
        (λ e. IfSome (S.state store.old).content
        (λ c. AreFound node.now found.now layout.now node.now c [] → (names : List (List ℕ))
        → IsSetOf names but.now → TellsUnreadOutside layout.now c node.now names e)) }
    ensures ready { IsReady layout.now (S.state store.new) }
    ensures looks { OnlyReads (S.state store.old) (S.state store.new) (S.stood store.old)
        (S.stood store.new) }
    ensures cause { HasIndexCause (S.state store.old).faults (S.state store.new).faults result }
{
    // The contract of `as_str` says that the node has a name, whatever is read.
    let _ = node.as_str();
    let manifests = match manifests_outside(alloc, layout, node, found, but) {
        Ok(manifests) => manifests,
        Err(NoMemory) => return Err(IndexError::Memory),
    };
    let mut named = no_paths(alloc);
    match note_manifests(alloc, store, layout, node, manifests, &mut named) {
        Ok(()) => Ok(named),
        Err(error) => Err(error),
    }
}
