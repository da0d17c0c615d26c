// The manifests of the finished backups of a node, read in the order of their paths.
ghost use Rattle.std.specs.Prelude.{IfErr, IfOk, OnOk};
ghost use Rattle.std.specs.BTreeMap.{IsOrdered};
ghost use Rattle.med_base.specs.NameOrder.{name_cmp};
ghost use Rattle.med_outside.specs.State.{IsReady, OnlyReads};
ghost use Rattle.med_index.specs.Errors.{HasIndexCause};
ghost use Rattle.med_index.specs.Given.{AreOfNode};
ghost use Rattle.med_index.specs.Manifests.{AreManifests, AreNamed, AreReadTold, IsBadManifest, IsManifestNoted, IsManifestPath, IsManifestRead, IsStopped};

use crate::IndexError;
use crate::given::{Given, give_copy};
use crate::marks::Marks;
use crate::mend::read;
use crate::newest::second_outside;
use med_base::{BackupName, Fqdn, IndexKind, Layout, MetaKind, NoMemory, ObjPath, OrMemory};
use med_manifest::Manifest;
use med_outside::Storage;
use std::alloc::Global;
use std::collections::{BTreeMap, BTreeSet};

/// The manifests of the finished backups that were found, by their paths, each with the name of its
/// backup.
pub type Manifests = BTreeMap<ObjPath, BackupName>;

// Notes the manifest of a backup, if there is one, by its second.
fn note_manifest(
    alloc: Global,
    layout: &Layout,
    node: &Fqdn,
    name: &BackupName,
    second: Option<u64>,
    manifests: &mut Manifests,
) -> Result<(), NoMemory>
    ensures { OnOk result
        (IsManifestNoted layout.now node.now name.now second manifests.old
        manifests.new) }
{
    if second.is_none() {
        return Ok(());
    }
    let path = layout.meta(alloc, node, name, MetaKind::Manifest)?;
    let name = name.copy(alloc)?;
    manifests.insert(path, name)?;
    Ok(())
}

/// The manifests of the finished backups of those that were found and aren't among some names.
pub fn manifests_outside(
    alloc: Global,
    layout: &Layout,
    node: &Fqdn,
    found: &BTreeMap<BackupName, Marks>,
    but: &BTreeSet<BackupName>,
) -> Result<Manifests, NoMemory>
    ensures manifests { IfOk result
        (AreManifests layout.now node.now found.now but.now found.now.entries) }
    ensures order { OnOk result (IsOrdered name_cmp found.now) }
{
    let mut manifests = BTreeMap::new(alloc);
    for (name, marks) in found {
        let second = second_outside(name, *marks, but);
        note_manifest(alloc, layout, node, name, second, &mut manifests)?;
    }
    Ok(manifests)
}

// Reads the manifest of a backup, and gives its entry to the index. A storage that told of a
// manifest and then answers that none stands isn't one that is told: there nothing is given.
fn read_manifest<S: Storage>(
    alloc: Global,
    store: &mut S,
    layout: &Layout,
    node: &Fqdn,
    name: &BackupName,
    path: &ObjPath,
    given: &mut Given,
) -> Result<(), IndexError>
    requires ready { IsReady layout.now (S.state store.old) }
    requires path { IsManifestPath layout.now node.now name.now path.now }
    ensures ok { OnOk result
        (IsManifestRead (S.state store.old).content layout.now node.now name.now path.now given.old
        given.new) }
    ensures err { IfErr result
        (IsBadManifest (S.state store.old).content layout.now node.now name.now path.now) }
    ensures ready { IsReady layout.now (S.state store.new) }
    ensures looks { OnlyReads (S.state store.old) (S.state store.new) (S.stood store.old)
        (S.stood store.new) }
    ensures cause { HasIndexCause (S.state store.old).faults (S.state store.new).faults result }
{
    let Some(bytes) = read(alloc, store, layout, path)? else {
        return Ok(());
    };
    match Manifest::read(alloc, layout, node, name, bytes.as_slice()) {
        Ok(_) => {
            let kind = IndexKind::Manifest;
            match give_copy(alloc, store, layout, node, name, kind, bytes, given) {
                Ok(()) => Ok(()),
                Err(error) => Err(IndexError::from(error)),
            }
        }
        Err(OrMemory::Memory) => Err(IndexError::Memory),
        Err(OrMemory::Why(why)) => match path.copy(alloc) {
            Ok(path) => Err(IndexError::BadManifest { path, why }),
            Err(NoMemory) => Err(IndexError::Memory),
        },
    }
}

/// Reads the manifests in the order of their paths, and gives their entries to the index. The bytes
/// of a manifest are kept only where they are to be put.
pub(crate) fn read_manifests<S: Storage>(
    alloc: Global,
    store: &mut S,
    layout: &Layout,
    node: &Fqdn,
    manifests: Manifests,
    given: &mut Given,
) -> Result<(), IndexError>
    requires ready { IsReady layout.now (S.state store.old) }
    requires named { AreNamed layout.now node.now manifests }
    ensures within { OnOk result
        (AreOfNode layout.now node.now given.old → AreOfNode layout.now node.now given.new) }
    ensures ok { OnOk result
        (AreReadTold (S.state store.old).content layout.now node.now manifests.entries given.old
        given.new) }
    ensures err { IfErr result
        (IsStopped (S.state store.old).content layout.now node.now manifests.entries) }
    ensures order { IsOrdered name_cmp manifests }
    ensures ready { IsReady layout.now (S.state store.new) }
    ensures looks { OnlyReads (S.state store.old) (S.state store.new) (S.stood store.old)
        (S.stood store.new) }
    ensures cause { HasIndexCause (S.state store.old).faults (S.state store.new).faults result }
{
    for (path, name) in manifests {
        match read_manifest(alloc, store, layout, node, &name, &path, given) {
            Ok(()) => {}
            Err(error) => return Err(error),
        }
    }
    Ok(())
}
