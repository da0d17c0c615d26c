// The keys of a snapshot, as its folders have them.
ghost use Rattle.std.specs.Prelude.{◌≡◌, ◌++◌, IfOk, OnOk, map, string_bytes};
ghost use Rattle.med_outside.specs.Snapshot.{key_of_raw};
ghost use Rattle.med_folder.specs.Snapshots.{table_folder, key_of, keys_for};

use crate::faults::is_absent;
use crate::files::{Found, check_folder, look_below};
use crate::paths::joined;
use crate::ways::Ways;
use med_outside::RawKey;
use std::alloc::{AllocError, Global};
use std::fs::{Files, Metadata, ReadDir};
use std::{fs, io};

/// What a folder holds, in byte order: the names of its plain files, and those of its folders.
#[derive(Drop)]
struct Names {
    files: Vec<String>,
    folders: Vec<String>,
}

fn names_of<R: Files + Clone + Drop>(
    alloc: Global,
    listing: ReadDir<R, Global>,
) -> io::Result<Names> {
    let mut files = Vec::new(alloc);
    let mut folders = Vec::new(alloc);
    for entry in listing {
        let entry = entry?;
        let metadata = entry.metadata()?;
        let name = String::from_str(alloc, entry.file_name())?;
        if metadata.is_dir() {
            folders.push(name)?;
        } else if metadata.is_file() {
            files.push(name)?;
        }
    }
    files.sort_unstable();
    folders.sort_unstable();
    Ok(Names { files, folders })
}

// What a folder holds that was seen before. One that is gone is a refusal.
fn names_in<R: Files + AllocGlobal + Clone + Drop>(
    rt: &R,
    alloc: Global,
    path: &str,
) -> io::Result<Names> {
    names_of(alloc, fs::read_dir(rt, path)?)
}

fn raw_key(alloc: Global, keyspace: &str, table: &str, file: &str) -> Result<RawKey, AllocError>
    ensures { IfOk result (λ key. key_of_raw key ≡ key_of keyspace.now table.now file.now) }
{
    let keyspace = String::from_str(alloc, keyspace)?;
    let table = String::from_str(alloc, table)?;
    let file = String::from_str(alloc, file)?;
    Ok(RawKey {
        keyspace,
        table,
        file,
    })
}

fn push_keys(
    alloc: Global,
    keyspace: &str,
    table: &str,
    files: &Vec<String>,
    keys: &mut Vec<RawKey>,
) -> Result<(), AllocError>
    ensures { OnOk result (map key_of_raw keys.new.items ≡ map key_of_raw keys.old.items
        ++ keys_for keyspace.now table.now (map string_bytes files.now.items)) }
{
    for file in files {
        keys.push(raw_key(alloc, keyspace, table, file.as_str())?)?;
    }
    Ok(())
}

// The files of a table, and those of its indexes.
fn keys_of_table<R: Files + AllocGlobal + Clone + Drop>(
    rt: &R,
    alloc: Global,
    folder: &str,
    keyspace: &str,
    table: &str,
    keys: &mut Vec<RawKey>,
) -> io::Result<()> {
    let names = names_in(rt, alloc, folder)?;
    push_keys(alloc, keyspace, table, &names.files, keys)?;
    for index in &names.folders {
        if index.as_str().starts_with('.') {
            let path = joined(alloc, folder, index.as_str())?;
            let below = names_in(rt, alloc, path.as_str())?;
            let mut whole = String::from_str(alloc, table)?;
            whole.push_str(index.as_str())?;
            push_keys(alloc, keyspace, whole.as_str(), &below.files, keys)?;
        }
    }
    Ok(())
}

/// The folder of a table's files, below the folder of the node's data.
pub(crate) fn table_folder(
    alloc: Global,
    keyspace: &str,
    table: &str,
    tag: &str,
) -> Result<String, AllocError>
    ensures { IfOk result
        (λ folder. string_bytes folder ≡ table_folder keyspace.now table.now tag.now) }
{
    let mut folder = joined(alloc, keyspace, table)?;
    folder.push_str("/snapshots/")?;
    folder.push_str(tag)?;
    Ok(folder)
}

// The folder of a table's files, noted as found plain.
fn found_folder(
    alloc: Global,
    table: &str,
    below: &str,
    metadata: &Metadata,
    ways: &mut Ways,
) -> io::Result<String> {
    let folder = joined(alloc, table, below)?;
    ways.note(alloc, folder.as_str(), metadata)?;
    Ok(folder)
}

// The folder of the files of the table whose own folder is given, or none where the table has no such
// snapshot or a link leads there. The table's own folder was looked at when it was listed; where it
// is gone, it is a refusal.
fn snapshot_folder<R: Files>(
    rt: &R,
    alloc: Global,
    table: &str,
    tag: &str,
    ways: &mut Ways,
) -> io::Result<Option<String>> {
    let below = joined(alloc, "snapshots", tag)?;
    match look_below(rt, alloc, table, below.as_str())? {
        Found::Here(metadata) if metadata.is_dir() => {
            let folder = found_folder(alloc, table, below.as_str(), &metadata, ways)?;
            Ok(Some(folder))
        }
        Found::Nothing => {
            check_folder(rt, table)?;
            Ok(None)
        }
        _ => Ok(None),
    }
}

// The files of a table of a keyspace, where it has such a snapshot.
fn keys_of_snapshot<R: Files + AllocGlobal + Clone + Drop>(
    rt: &R,
    alloc: Global,
    data: &str,
    keyspace: &str,
    table: &str,
    tag: &str,
    ways: &mut Ways,
    keys: &mut Vec<RawKey>,
) -> io::Result<()> {
    let place = joined(alloc, joined(alloc, data, keyspace)?.as_str(), table)?;
    match snapshot_folder(rt, alloc, place.as_str(), tag, ways)? {
        Some(folder) => keys_of_table(rt, alloc, folder.as_str(), keyspace, table, keys),
        None => Ok(()),
    }
}

fn keys_of_keyspace<R: Files + AllocGlobal + Clone + Drop>(
    rt: &R,
    alloc: Global,
    data: &str,
    keyspace: &str,
    tag: &str,
    ways: &mut Ways,
    keys: &mut Vec<RawKey>,
) -> io::Result<()> {
    let path = joined(alloc, data, keyspace)?;
    let tables = names_in(rt, alloc, path.as_str())?;
    for table in &tables.folders {
        let table = table.as_str();
        if !table.contains('.') {
            keys_of_snapshot(rt, alloc, data, keyspace, table, tag, ways, keys)?;
        }
    }
    Ok(())
}

/// The keys of all files that the node has under a tag: none where it has no folder of data. A
/// folder that was listed and is gone when it is read is a refusal. The folders of tables are noted
/// as found plain.
pub(crate) fn keys_of_node<R: Files + AllocGlobal + Clone + Drop>(
    rt: &R,
    alloc: Global,
    node: &str,
    tag: &str,
    ways: &mut Ways,
) -> io::Result<Vec<RawKey>> {
    let data = joined(alloc, node, "data")?;
    let data = data.as_str();
    let mut keys = Vec::new(alloc);
    let keyspaces = match fs::read_dir(rt, data) {
        Ok(listing) => names_of(alloc, listing)?,
        Err(error) if is_absent(&error) => return Ok(keys),
        Err(error) => return Err(error),
    };
    for keyspace in &keyspaces.folders {
        keys_of_keyspace(rt, alloc, data, keyspace.as_str(), tag, ways, &mut keys)?;
    }
    Ok(keys)
}
