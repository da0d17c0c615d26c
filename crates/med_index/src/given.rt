// What the backups of a node give to its index, as far as it isn't known to stand.
ghost use Rattle.std.specs.Prelude.{◌≡◌, ◌↔◌, [], true, None, Some, OnOk, if◌then◌else◌, option_map};
ghost use Rattle.std.specs.BTreeMap.{IsOrdered, get};
ghost use Rattle.med_base.specs.NameOrder.{name_cmp};
ghost use Rattle.med_outside.specs.State.{IsReady, OnlyReads};
ghost use Rattle.med_index.specs.Errors.{HasStoreCause};
ghost use Rattle.med_index.specs.Given.{AreMarksNoted, IsCopyNoted, IsEmptyNoted, IsNotedWhere, IsRingNoted, IsRestNoted, AreOfNode, AreRestsTold, bytes_to_put, difference_of as difference_in, finish_of as finish_in, unless_bytes};

use crate::ListError;
use crate::marks::Marks;
use crate::mend::{read, tokenmap_of};
use med_base::{BackupName, Fqdn, IndexKind, Layout, NoMemory, ObjPath};
use med_outside::Storage;
use std::alloc::Global;
use std::collections::BTreeMap;

/// The sizes of the entries that the index has of a node, by their paths.
pub(crate) type Sizes = BTreeMap<ObjPath, u64>;

/// The paths of the entries that are given, each with the bytes that are to be put, or nothing
/// where these stand. The bytes that stand already aren't kept.
pub(crate) type Given = BTreeMap<ObjPath, Option<Vec<u8>>>;

// Whether an entry stands under the path and is empty.
fn stands_empty(sizes: &Sizes, path: &ObjPath) -> bool
    ensures { (result ≡ true) ↔ (get name_cmp sizes.now path.now ≡ Some 0) }
{
    match sizes.get(path) {
        Some(size) => *size == 0,
        None => false,
    }
}

// No bytes, unless an entry stands empty.
fn empty_unless(alloc: Global, stands: bool) -> Option<Vec<u8>>
    ensures { bytes_to_put result ≡ (if stands then None else Some []) }
{
    if stands { None } else { Some(Vec::new(alloc)) }
}

// Gives an empty entry to the index: it is to be put, unless it stands and is empty.
fn give_empty(
    alloc: Global,
    layout: &Layout,
    node: &Fqdn,
    name: &BackupName,
    kind: IndexKind,
    sizes: &Sizes,
    given: &mut Given,
) -> Result<(), NoMemory>
    ensures { OnOk result
        (IsEmptyNoted layout.now node.now name.now kind sizes.now given.old given.new) }
{
    let path = layout.index_entry(alloc, node, name, kind)?;
    let bytes = empty_unless(alloc, stands_empty(sizes, &path));
    given.insert(path, bytes)?;
    Ok(())
}

// Gives an empty entry, if one is asked for.
fn give_where(
    alloc: Global,
    layout: &Layout,
    node: &Fqdn,
    name: &BackupName,
    kind: Option<IndexKind>,
    sizes: &Sizes,
    given: &mut Given,
) -> Result<(), NoMemory>
    ensures { OnOk result
        (IsNotedWhere layout.now node.now name.now kind sizes.now given.old given.new) }
{
    match kind {
        Some(kind) => give_empty(alloc, layout, node, name, kind, sizes, given),
        None => Ok(()),
    }
}

// The entry that tells when the backup finished.
fn finish_of(marks: Marks) -> Option<IndexKind>
    ensures { result ≡ finish_in marks }
{
    match marks.manifest {
        Some(second) => Some(IndexKind::Finished(second)),
        None => None,
    }
}

// The entry of a differential backup.
fn difference_of(marks: Marks) -> Option<IndexKind>
    ensures { result ≡ difference_in marks }
{
    match marks.differential {
        Some(_) => Some(IndexKind::Differential),
        None => None,
    }
}

// Gives the empty entries of a backup, by what was found of it.
fn give_marks(
    alloc: Global,
    layout: &Layout,
    node: &Fqdn,
    name: &BackupName,
    marks: Marks,
    sizes: &Sizes,
    given: &mut Given,
) -> Result<(), NoMemory>
    ensures { OnOk result
        (AreMarksNoted layout.now node.now name.now marks sizes.now given.old given.new) }
{
    let start = IndexKind::Started(marks.start());
    give_empty(alloc, layout, node, name, start, sizes, given)?;
    give_where(alloc, layout, node, name, finish_of(marks), sizes, given)?;
    give_where(
        alloc,
        layout,
        node,
        name,
        difference_of(marks),
        sizes,
        given,
    )
}

// The bytes, unless they are those that stand.
fn unless_same(bytes: Vec<u8>, stands: Option<Vec<u8>>) -> Option<Vec<u8>>
    ensures { bytes_to_put result ≡ unless_bytes (option_map (λ v. v.items) stands) bytes.items }
{
    match stands {
        Some(other) => {
            if other.as_slice() == bytes.as_slice() {
                None
            } else {
                Some(bytes)
            }
        }
        None => Some(bytes),
    }
}

/// Gives an entry with these bytes to the index: it is to be put, unless it stands with them.
pub(crate) fn give_copy<S: Storage>(
    alloc: Global,
    store: &mut S,
    layout: &Layout,
    node: &Fqdn,
    name: &BackupName,
    kind: IndexKind,
    bytes: Vec<u8>,
    given: &mut Given,
) -> Result<(), ListError>
    requires ready { IsReady layout.now (S.state store.old) }
    ensures noted { OnOk result
        (IsCopyNoted (S.state store.old).content layout.now node.now name.now kind bytes.items
        given.old given.new) }
    ensures ready { IsReady layout.now (S.state store.new) }
    ensures looks { OnlyReads (S.state store.old) (S.state store.new) (S.stood store.old)
        (S.stood store.new) }
    ensures cause { HasStoreCause (S.state store.old).faults (S.state store.new).faults result }
{
    let path = match layout.index_entry(alloc, node, name, kind) {
        Ok(path) => path,
        Err(NoMemory) => return Err(ListError::Memory),
    };
    let stands = read(alloc, store, layout, &path)?;
    match given.insert(path, unless_same(bytes, stands)) {
        Ok(_) => Ok(()),
        Err(_) => Err(ListError::Memory),
    }
}

// Gives the entry of the token map of a backup, where the token map stands.
fn give_ring<S: Storage>(
    alloc: Global,
    store: &mut S,
    layout: &Layout,
    node: &Fqdn,
    name: &BackupName,
    given: &mut Given,
) -> Result<(), ListError>
    requires ready { IsReady layout.now (S.state store.old) }
    ensures noted { OnOk result
        (IsRingNoted (S.state store.old).content layout.now node.now name.now given.old
        given.new) }
    ensures ready { IsReady layout.now (S.state store.new) }
    ensures looks { OnlyReads (S.state store.old) (S.state store.new) (S.stood store.old)
        (S.stood store.new) }
    ensures cause { HasStoreCause (S.state store.old).faults (S.state store.new).faults result }
{
    match tokenmap_of(alloc, store, layout, node, name)? {
        Some(bytes) => {
            let kind = IndexKind::Tokenmap;
            give_copy(alloc, store, layout, node, name, kind, bytes, given)
        }
        None => Ok(()),
    }
}

// Gives the entries of a backup to the index, but that of its manifest.
fn give_rest<S: Storage>(
    alloc: Global,
    store: &mut S,
    layout: &Layout,
    node: &Fqdn,
    name: &BackupName,
    marks: Marks,
    sizes: &Sizes,
    given: &mut Given,
) -> Result<(), ListError>
    requires ready { IsReady layout.now (S.state store.old) }
    ensures noted { OnOk result
        (IsRestNoted (S.state store.old).content layout.now node.now name.now marks sizes.now
        given.old given.new) }
    ensures ready { IsReady layout.now (S.state store.new) }
    ensures looks { OnlyReads (S.state store.old) (S.state store.new) (S.stood store.old)
        (S.stood store.new) }
    ensures cause { HasStoreCause (S.state store.old).faults (S.state store.new).faults result }
{
    match give_marks(alloc, layout, node, name, marks, sizes, given) {
        Ok(()) => {}
        Err(NoMemory) => return Err(ListError::Memory),
    }
    give_ring(alloc, store, layout, node, name, given)
}

/// Gives the entries of the backups that were found to the index, but those of their manifests.
pub(crate) fn give_rests<S: Storage>(
    alloc: Global,
    store: &mut S,
    layout: &Layout,
    node: &Fqdn,
    found: BTreeMap<BackupName, Marks>,
    sizes: &Sizes,
    given: &mut Given,
) -> Result<(), ListError>
    requires ready { IsReady layout.now (S.state store.old) }
    ensures within { OnOk result
        (AreOfNode layout.now node.now given.old → AreOfNode layout.now node.now given.new) }
    ensures told { OnOk result
        (AreRestsTold (S.state store.old).content layout.now node.now found sizes.now
        found.entries given.old given.new) }
    ensures order { OnOk result (IsOrdered name_cmp found) }
    ensures ready { IsReady layout.now (S.state store.new) }
    ensures looks { OnlyReads (S.state store.old) (S.state store.new) (S.stood store.old)
        (S.stood store.new) }
    ensures cause { HasStoreCause (S.state store.old).faults (S.state store.new).faults result }
{
    for (name, marks) in found {
        give_rest(alloc, store, layout, node, &name, marks, sizes, given)?;
    }
    Ok(())
}
