// What the files that a text names are in a backup.
ghost use Rattle.std.specs.Prelude.{◌≡◌, ◌++◌, ◌∷◌, [], false, true, IfOk, OnOk, IfErr, IfSome, IsTrue, List, ℕ, map, length, None, option_map};
ghost use Rattle.med_base.specs.declared.key.FileKey.{FileKey};
ghost use Rattle.std.specs.BTreeSet.{contains, Updates};
ghost use Rattle.std.specs.List.{AllByRecursion};
ghost use Rattle.std.specs.declared.cmp.Ordering.TheVariants.{Less};
ghost use Rattle.med_base.specs.Key.{key_cmp, AreRising};
ghost use Rattle.med_base.specs.Kinds.{as_data};
ghost use Rattle.med_base.specs.Memory.{WhyIs};
ghost use Rattle.med_base.specs.Names.{component_fault};
ghost use Rattle.med_manifest.specs.declared.manifest.FileRecord.{FileRecord};
ghost use Rattle.med_manifest.specs.Manifest.{IsKeyOf, IsRecordOf, AreRecords};
ghost use Rattle.med_manifest.specs.Named.{named};
ghost use Rattle.med_manifest.specs.Places.{file_told, key_told, is_of_table};
ghost use Rattle.med_manifest.specs.Refusals.{HasFault, IsFirstFault};
ghost use Rattle.med_manifest.specs.Seen.{IsSeen};

use crate::shape::NamedFile;
use crate::{FileRecord, ManifestError, ManifestWhy};
use med_base::{
    BackupName, Component, FileKey, Fingerprint, Fqdn, Layout, NameError, NoMemory, ObjPath,
    PathKind, read_md5,
};
use std::alloc::Global;
use std::collections::BTreeSet;

fn is_of_table_of(raw: &NamedFile<'_>, keyspace: &str, table: &str) -> bool
    ensures { result ≡ is_of_table (named raw.now)
        (record { keyspace = keyspace.now; table = table.now; file = [] }) }
{
    keyspace == raw.keyspace && table == raw.table
}

// The name of the file, where the kind is a shared file of the node or an own file of the backup,
// and of the table of the named file.
fn file_in<'a>(kind: PathKind<'a>, node: &str, name: &str, raw: &NamedFile<'_>) -> Option<&'a str>
    ensures { option_map (λ s. s.now) result
        ≡ file_told node.now name.now (named raw.now) (as_data kind.entry) }
{
    match kind {
        PathKind::Shared {
            owner,
            keyspace,
            table,
            file,
        } if owner == node && is_of_table_of(raw, keyspace, table) => Some(file),
        PathKind::Own {
            owner,
            backup,
            keyspace,
            table,
            file,
        } if owner == node && backup == name && is_of_table_of(raw, keyspace, table) => Some(file),
        _ => None,
    }
}

// The name of the file of the table that the backup has at this path, if it has one there.
fn file_at<'a>(
    layout: &Layout,
    node: &Fqdn,
    name: &BackupName,
    raw: &NamedFile<'_>,
    path: &'a ObjPath,
) -> Option<&'a str>
    requires { path.now ≡ raw.now.path.now }
    ensures found { IfSome result (λ file. IsKeyOf layout.now node.now name.now (named raw.now)
        (key_told (named raw.now) file.now)) }
    ensures none { result ≡ None
        → (key : FileKey) → IsKeyOf layout.now node.now name.now (named raw.now) key → ⊥ }
{
    file_in(layout.classify(path), node.as_str(), name.as_str(), raw)
}

// The component that a text is known to be.
fn component(alloc: Global, text: &str) -> Result<Component, NoMemory>
    requires { component_fault text.now ≡ None }
    ensures { IfOk result (λ name. name ≡ text.now) }
{
    match Component::read(alloc, text) {
        Ok(name) => Ok(name),
        Err(NameError::BadName { .. }) => unreachable!(),
        Err(NameError::Memory) => Err(NoMemory),
    }
}

// The keyspace and the table of the named file. Where the last record before it is of the same
// table, they are copied from there.
fn table_of(
    alloc: Global,
    raw: &NamedFile<'_>,
    earlier: &[FileRecord],
) -> Result<(Component, Component), NoMemory>
    requires { (component_fault raw.now.keyspace.now ≡ None)
        × (component_fault raw.now.table.now ≡ None) }
    ensures { IfOk result (λ names. (names.0 ≡ raw.now.keyspace.now)
        × (names.1 ≡ raw.now.table.now)) }
{
    if let [.., last] = earlier {
        let (keyspace, table) = (&last.key.keyspace, &last.key.table);
        if is_of_table_of(raw, keyspace.as_str(), table.as_str()) {
            return Ok((keyspace.copy(alloc)?, table.copy(alloc)?));
        }
    }
    Ok((
        component(alloc, raw.keyspace)?,
        component(alloc, raw.table)?,
    ))
}

// The key of the named file, if the backup has a file of its table at its path.
fn key_at(
    alloc: Global,
    layout: &Layout,
    node: &Fqdn,
    name: &BackupName,
    raw: &NamedFile<'_>,
    path: &ObjPath,
    earlier: &[FileRecord],
) -> Result<Option<FileKey>, NoMemory>
    requires { path.now ≡ raw.now.path.now }
    ensures found { IfOk result
        (λ o. IfSome o (IsKeyOf layout.now node.now name.now (named raw.now))) }
    ensures none { IfOk result (λ o. o ≡ None
        → (key : FileKey) → IsKeyOf layout.now node.now name.now (named raw.now) key → ⊥) }
{
    let Some(file) = file_at(layout, node, name, raw, path) else {
        return Ok(None);
    };
    let (keyspace, table) = table_of(alloc, raw, earlier)?;
    let file = component(alloc, file)?;
    Ok(Some(FileKey {
        keyspace,
        table,
        file,
    }))
}

// What the named file is in the backup, where `at` files stand before it, which are the earlier
// records.
fn record_of(
    alloc: Global,
    layout: &Layout,
    node: &Fqdn,
    name: &BackupName,
    raw: &NamedFile<'_>,
    at: usize,
    earlier: &[FileRecord],
) -> Result<FileRecord, ManifestError>
    ensures ok { IfOk result (IsRecordOf layout.now node.now name.now (named raw.now)) }
    ensures err { IfErr result (λ e. (earlier : List FileRecord) → length earlier ≡ at
        → WhyIs (HasFault layout.now node.now name.now earlier (named raw.now)) e) }
{
    let Ok(md5) = read_md5(raw.md5) else {
        return Err(ManifestError::Why(ManifestWhy::BadDigest { at }));
    };
    let path = ObjPath::of(alloc, raw.path)?;
    let Some(key) = key_at(alloc, layout, node, name, raw, &path, earlier)? else {
        return Err(ManifestError::Why(ManifestWhy::ForeignPath { path }));
    };
    let size = raw.size;
    Ok(FileRecord {
        key,
        path,
        fingerprint: Fingerprint { size, md5 },
    })
}

// One more record, if its key is not among those seen.
fn add(
    alloc: Global,
    seen: &mut BTreeSet<FileKey>,
    records: &mut Vec<FileRecord>,
    file: FileRecord,
) -> Result<(), ManifestError>
    ensures fresh { OnOk result (contains key_cmp seen.old file.key ≡ false) }
    ensures seen { OnOk result (Updates key_cmp seen.old seen.new file.key true) }
    ensures records { OnOk result (records.new.items ≡ records.old.items ++ file ∷ []) }
    ensures err { IfErr result (WhyIs (IsSeen seen.old file)) }
{
    if !seen.insert(file.key.copy(alloc)?)? {
        let path = file.path;
        return Err(ManifestError::Why(ManifestWhy::DuplicatePath { path }));
    }
    records.push(file)?;
    Ok(())
}

// Whether a key is above that of the last of these records.
fn is_above(key: &FileKey, records: &[FileRecord]) -> bool
    ensures { IsTrue result → AreRising (map (λ r. r.key) records.now)
        → AllByRecursion (λ k. key_cmp k key.now ≡ Less) (map (λ r. r.key) records.now) }
{
    if let [.., last] = records {
        last.key < *key
    } else {
        true
    }
}

// What the named files are in the backup, if each key is above the one before it. No key is looked
// for among those seen.
fn rising_records(
    alloc: Global,
    layout: &Layout,
    node: &Fqdn,
    name: &BackupName,
    files: &[NamedFile<'_>],
) -> Result<Option<Vec<FileRecord>>, ManifestError>
    ensures ok { IfOk result (λ o. IfSome o (λ records. AreRecords layout.now node.now name.now
        (map named files.now) records.items)) }
    ensures err { IfErr result
        (WhyIs (IsFirstFault layout.now node.now name.now (map named files.now))) }
{
    let mut records = Vec::new(alloc);
    for (at, raw) in files.iter().enumerate() {
        let earlier = records.as_slice();
        let file = record_of(alloc, layout, node, name, raw, at, earlier)?;
        if !is_above(&file.key, earlier) {
            return Ok(None);
        }
        records.push(file)?;
    }
    Ok(Some(records))
}

// What the named files are in the backup, in whatever order their keys stand.
fn records_in_any_order(
    alloc: Global,
    layout: &Layout,
    node: &Fqdn,
    name: &BackupName,
    files: &[NamedFile<'_>],
) -> Result<Vec<FileRecord>, ManifestError>
    ensures ok { IfOk result (λ records. AreRecords layout.now node.now name.now
        (map named files.now) records.items) }
    ensures err { IfErr result
        (WhyIs (IsFirstFault layout.now node.now name.now (map named files.now))) }
{
    let mut seen = BTreeSet::new(alloc);
    let mut records = Vec::new(alloc);
    for (at, raw) in files.iter().enumerate() {
        let record = record_of(alloc, layout, node, name, raw, at, records.as_slice())?;
        add(alloc, &mut seen, &mut records, record)?;
    }
    Ok(records)
}

/// What the named files are in the backup.
pub(crate) fn records_of(
    alloc: Global,
    layout: &Layout,
    node: &Fqdn,
    name: &BackupName,
    files: &[NamedFile<'_>],
) -> Result<Vec<FileRecord>, ManifestError>
    ensures ok { IfOk result (λ records. AreRecords layout.now node.now name.now
        (map named files.now) records.items) }
    ensures err { IfErr result
        (WhyIs (IsFirstFault layout.now node.now name.now (map named files.now))) }
{
    match rising_records(alloc, layout, node, name, files)? {
        Some(records) => Ok(records),
        None => records_in_any_order(alloc, layout, node, name, files),
    }
}
