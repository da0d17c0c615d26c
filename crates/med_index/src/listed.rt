// The entries that the index has of a backup, and those of a node.
ghost use Rattle.std.specs.Prelude.{◌≡◌, ◌++◌, true, codes, IfOk, IfSome, string_bytes};
ghost use Rattle.std.specs.List.{AllByRecursion};
ghost use Rattle.med_base.specs.Classify.{kind_of};
ghost use Rattle.med_manifest.specs.Listed.{paths_of};
ghost use Rattle.med_manifest.specs.Rebuild.{is_entry_of, is_entry_of_node};
ghost use Rattle.med_outside.specs.State.{IsReady, OnlyReads};
ghost use Rattle.med_index.specs.Errors.{HasStoreCause};
ghost use Rattle.med_index.specs.Given.{AreOfNode, AreSizes};
ghost use Rattle.med_index.specs.Listed.{IsEntryOfBackup};

use crate::ListError;
use crate::given::Sizes;
use crate::pages::{Visitor, walk};
use med_base::{BackupName, Fqdn, Layout, NoMemory, ObjPath, PathKind};
use med_outside::{Entry, Storage};
use std::alloc::Global;
use std::collections::BTreeMap;

// The paths of the entries of a backup, as far as they were found.
#[derive(Drop)]
struct Kept<'a> {
    node: &'a Fqdn,
    name: &'a BackupName,
    paths: Vec<ObjPath>,
}

// Whether the path is that of an entry of the backup.
fn is_entry(layout: &Layout, node: &Fqdn, name: &BackupName, path: &ObjPath) -> bool
    ensures { result ≡ is_entry_of node.now name.now (kind_of layout.now path.now) }
{
    match layout.classify(path) {
        PathKind::IndexEntry { owner, backup, .. } => {
            owner == node.as_str() && backup == name.as_str()
        }
        PathKind::Shared { .. } | PathKind::Own { .. } | PathKind::Meta { .. } => false,
        PathKind::Latest { .. } | PathKind::Stray { .. } | PathKind::Other => false,
    }
}

impl Visitor for Kept<'_> {
    ghost use Rattle.med_index.specs.Listed.{AreKept, IsKeeping};

    ghost Terms = { Unit {0} };

    ghost terms = { λ _. tt };

    ghost found = { λ k before f c rest.
        AreKept k.node.now k.name.now k.paths.items before c rest };

    ghost held = { λ k before f n. IsKeeping before f n k.node.now k.name.now k.paths.items };

    fn visit(&mut self, alloc: Global, layout: &Layout, entry: &Entry) -> Result<(), NoMemory> {
        if is_entry(layout, self.node, self.name, &entry.path) {
            self.paths.push(entry.path.copy(alloc)?)?;
        }
        Ok(())
    }
}

/// The paths of the entries that the index has of a backup, in byte order. The bucket is only read;
/// `Store` comes only where its count of faults rose.
pub fn clean_entries<S: Storage>(
    alloc: Global,
    store: &mut S,
    layout: &Layout,
    node: &Fqdn,
    name: &BackupName,
) -> Result<Vec<ObjPath>, ListError>
    requires ready { IsReady layout.now (S.state store.old) }
    ensures ok { IfOk result
        (λ paths. IfSome (S.state store.old).content
        (λ c. paths.items ≡ paths_of layout.now c (is_entry_of node.now name.now))) }
    ensures within { IfOk result
        (λ paths. AllByRecursion (IsEntryOfBackup layout.now node.now name.now) paths.items) }
    ensures looks { OnlyReads (S.state store.old) (S.state store.new) (S.stood store.old)
        (S.stood store.new) }
    ensures cause { HasStoreCause (S.state store.old).faults (S.state store.new).faults result }
{
    let folder = match layout.index_folder(alloc, name) {
        Ok(folder) => folder,
        Err(NoMemory) => return Err(ListError::Memory),
    };
    let mut kept = Kept {
        node,
        name,
        paths: Vec::new(alloc),
    };
    walk(alloc, store, layout, folder.as_str(), &mut kept)?;
    Ok(kept.paths)
}

// The sizes of the entries of a node, as far as they were found.
#[derive(Drop)]
struct Sized<'a> {
    node: &'a Fqdn,
    sizes: Sizes,
}

// Whether the path is that of an entry of the node.
fn is_node_entry(layout: &Layout, node: &Fqdn, path: &ObjPath) -> bool
    ensures { result ≡ is_entry_of_node node.now (kind_of layout.now path.now) }
{
    match layout.classify(path) {
        PathKind::IndexEntry { owner, .. } => owner == node.as_str(),
        PathKind::Shared { .. } | PathKind::Own { .. } | PathKind::Meta { .. } => false,
        PathKind::Latest { .. } | PathKind::Stray { .. } | PathKind::Other => false,
    }
}

impl Visitor for Sized<'_> {
    ghost use Rattle.med_index.specs.Given.{AreSizesFound, IsSizing};

    ghost Terms = { Unit {0} };

    ghost terms = { λ _. tt };

    ghost found = { λ s before f c rest. AreSizesFound before s.node.now c s.sizes rest };

    ghost held = { λ s before f n. IsSizing before f s.node.now s.sizes };

    fn visit(&mut self, alloc: Global, layout: &Layout, entry: &Entry) -> Result<(), NoMemory> {
        if is_node_entry(layout, self.node, &entry.path) {
            self.sizes.insert(entry.path.copy(alloc)?, entry.size)?;
        }
        Ok(())
    }
}

// The folder of all entries of the index, with a slash at its end.
fn entries_folder(alloc: Global, layout: &Layout) -> Result<String, NoMemory>
    ensures { IfOk result
        (λ text. string_bytes text ≡ layout.now ++ codes "index/backup_index/") }
{
    let before = layout.before();
    Ok(format!(in alloc; "{before}index/backup_index/")?)
}

/// The sizes of the entries that the index has of a node, by their paths.
pub(crate) fn sizes_of<S: Storage>(
    alloc: Global,
    store: &mut S,
    layout: &Layout,
    node: &Fqdn,
) -> Result<Sizes, ListError>
    ensures ok { IfOk result
        (λ sizes. IfSome (S.state store.old).content
        (λ c. AreSizes layout.now node.now c sizes)) }
    ensures within { IfOk result (AreOfNode layout.now node.now) }
    ensures looks { OnlyReads (S.state store.old) (S.state store.new) (S.stood store.old)
        (S.stood store.new) }
    ensures cause { HasStoreCause (S.state store.old).faults (S.state store.new).faults result }
{
    let folder = match entries_folder(alloc, layout) {
        Ok(folder) => folder,
        Err(NoMemory) => return Err(ListError::Memory),
    };
    let mut sized = Sized {
        node,
        sizes: BTreeMap::new(alloc),
    };
    walk(alloc, store, layout, folder.as_str(), &mut sized)?;
    Ok(sized.sizes)
}
