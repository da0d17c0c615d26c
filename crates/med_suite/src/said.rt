// Runs of the top call over the outside in memory, and what is seen of them.
use med_base::{NoMemory, ObjPath};
use med_commands::medusa_main;
use med_mem::{MemFile, MemFiles, MemNodes, MemObject, MemSink, MemSnap, MemStore};
use med_outside::{RawKey, Storage};
use std::alloc::Global;

pub(crate) const NODES: &str = "/var/lib/medusa/nodes";

// The words of the first backup, with a bar between two.
pub(crate) const BACKUP: &str = "--config-file|m.ini|backup|--backup-name|b1|--mode|full";

pub(crate) const INI: &str =
    "[storage]\nstorage_provider = local\nbase_path = /b\nbucket_name = k\n\
    fqdn = n1\n";

// What the first backup says: status, standard output and standard error, with a `¶` for each line
// feed.
pub(crate) const DONE: &str =
    "0|backup b1 of n1: 1 files, 3 bytes, 0 reused, 1 stored, 0 aside\u{b6}||";

// The token map of a node's snapshot.
pub(crate) const RING: &str = "{\"n1\":{\"tokens\":[-5,7],\"is_up\":true}}";

// The puts of the first backup in their order, a line each: path and bytes. A line feed is a `¶`, and
// an at sign stands for the prefix.
pub(crate) const PUTS: &str = "\
@n1/b1/meta/schema.cql -- s¶
@n1/b1/meta/tokenmap.json {\"n1\":{\"dc\":\"\",\"is_up\":true,\"rack\":\"\",\"tokens\":[-5,7]}}
@index/backup_index/b1/tokenmap_n1.json {\"n1\":{\"dc\":\"\",\"is_up\":true,\"rack\":\"\",\
\"tokens\":[-5,7]}}
@index/backup_index/b1/started_n1_1000.timestamp
@n1/b1/data/ks/t-1/nb-1-big-Data.db abc
@n1/b1/meta/manifest.json [{\"columnfamily\":\"t-1\",\"keyspace\":\"ks\",\"objects\":[{\"MD5\":\
\"900150983cd24fb0d6963f7d28e17f72\",\"path\":\"@n1/b1/data/ks/t-1/nb-1-big-Data.db\",\
\"size\":3}]}]
@index/backup_index/b1/manifest_n1.json [{\"columnfamily\":\"t-1\",\"keyspace\":\"ks\",\
\"objects\":[{\"MD5\":\"900150983cd24fb0d6963f7d28e17f72\",\
\"path\":\"@n1/b1/data/ks/t-1/nb-1-big-Data.db\",\"size\":3}]}]
@index/backup_index/b1/finished_n1_1000.timestamp
@index/latest_backup/n1/backup_name.txt b1
@index/latest_backup/n1/tokenmap.json {\"n1\":{\"dc\":\"\",\"is_up\":true,\"rack\":\"\",\
\"tokens\":[-5,7]}}";

// How many these are.
pub(crate) const ALL: usize = 10;

// What a run finds.
#[derive(Clone, Copy)]
pub(crate) struct Scene<'a> {
    // the text of the config file m.ini, if there is one
    pub(crate) ini: Option<&'a str>,
    // the read of a file that fails, counted from 1
    pub(crate) failing: Option<u64>,
    pub(crate) node: &'a str,
    // the name of the backup whose snapshot the node has
    pub(crate) backup: &'a str,
    // the names of the files in that snapshot, if there is one, each with a `=` and its bytes where
    // they aren't `abc`
    pub(crate) names: Option<&'a [&'a str]>,
    // the token map in it
    pub(crate) ring: &'a str,
    // how many bytes the standard output takes
    pub(crate) limit: usize,
}

// Neither a config file nor a snapshot.
pub(crate) fn nothing<'a>() -> Scene<'a> {
    Scene {
        ini: None,
        failing: None,
        node: "n1",
        backup: "b1",
        names: None,
        ring: RING,
        limit: 1000,
    }
}

// The scene of the first backup, with a config file of this text.
pub(crate) fn with_ini<'a>(ini: &'a str) -> Scene<'a> {
    Scene {
        ini: Some(ini),
        failing: None,
        node: "n1",
        backup: "b1",
        names: Some(["nb-1-big-Data.db"].as_slice()),
        ring: RING,
        limit: 1000,
    }
}

// The same over the config file of the example, and a snapshot with files of these names.
pub(crate) fn with_names<'a>(names: &'a [&'a str]) -> Scene<'a> {
    Scene {
        ini: Some(INI),
        failing: None,
        node: "n1",
        backup: "b1",
        names: Some(names),
        ring: RING,
        limit: 1000,
    }
}

pub(crate) fn words(alloc: Global, line: &str) -> Result<Vec<String>, NoMemory> {
    let mut words = Vec::new(alloc);
    for word in line.split('|') {
        words.push(String::from_str(alloc, word)?)?;
    }
    Ok(words)
}

fn add_ini(alloc: Global, files: &mut MemFiles, ini: &str) -> Result<(), NoMemory> {
    files.add(alloc, "m.ini", ini.as_bytes().to_vec(alloc)?)
}

// The files of a scene.
pub(crate) fn files(alloc: Global, scene: &Scene) -> Result<MemFiles, NoMemory> {
    let mut files = MemFiles::new(alloc);
    if let Some(ini) = scene.ini {
        add_ini(alloc, &mut files, ini)?;
    }
    if let Some(step) = scene.failing {
        files.fail_at(step)?;
    }
    Ok(files)
}

pub(crate) fn key(alloc: Global, name: &str) -> Result<RawKey, NoMemory> {
    Ok(RawKey {
        keyspace: String::from_str(alloc, "ks")?,
        table: String::from_str(alloc, "t-1")?,
        file: String::from_str(alloc, name)?,
    })
}

fn file(alloc: Global, name: &str) -> Result<MemFile, NoMemory> {
    let (name, bytes) = name.split_once('=').unwrap_or((name, "abc"));
    let key = key(alloc, name)?;
    let bytes = bytes.as_bytes().to_vec(alloc)?;
    Ok(MemFile { key, bytes })
}

// The snapshot of files of these names, with a token map of this text.
fn snapshot(alloc: Global, names: &[&str], ring: &str) -> Result<MemSnap, NoMemory> {
    let mut files = Vec::new(alloc);
    for name in names {
        files.push(file(alloc, name)?)?;
    }
    let schema = b"-- s\n".to_vec(alloc)?;
    let ring = ring.as_bytes().to_vec(alloc)?;
    Ok(MemSnap {
        files,
        schema,
        ring,
    })
}

fn add_snapshot(
    alloc: Global,
    nodes: &mut MemNodes,
    scene: &Scene,
    names: &[&str],
) -> Result<(), NoMemory> {
    let tag = format!(in alloc; "medusa-{}", scene.backup)?;
    let snapshot = snapshot(alloc, names, scene.ring)?;
    nodes.add(alloc, NODES, scene.node, tag.as_str(), snapshot)
}

// The node of a scene, with its snapshot.
pub(crate) fn nodes(alloc: Global, scene: &Scene) -> Result<MemNodes, NoMemory> {
    let mut nodes = MemNodes::new(alloc);
    if let Some(names) = scene.names {
        add_snapshot(alloc, &mut nodes, scene, names)?;
    }
    Ok(nodes)
}

fn append_bytes(text: &mut String, bytes: &[u8]) -> Result<(), NoMemory> {
    for byte in bytes {
        text.push(char::from(*byte))?;
    }
    text.push('|')?;
    Ok(())
}

// What a command answered: its status and what it wrote to both sinks, with a bar after each.
pub(crate) fn append_said(
    alloc: Global,
    text: &mut String,
    status: u8,
    out: &MemSink,
    err: &MemSink,
) -> Result<(), NoMemory> {
    text.push_str(format!(in alloc; "{status}|")?.as_str())?;
    append_bytes(text, out.bytes())?;
    append_bytes(text, err.bytes())
}

// A line of an object: path, second and bytes.
fn append_object(alloc: Global, text: &mut String, object: &MemObject) -> Result<(), NoMemory> {
    let path = object.path.as_str();
    let second = object.second;
    text.push_str(format!(in alloc; "{path} {second} ")?.as_str())?;
    for byte in &object.bytes {
        text.push(char::from(*byte))?;
    }
    text.push('\n')?;
    Ok(())
}

// The objects of a store, a line each, and a bar.
pub(crate) fn append_objects(
    alloc: Global,
    text: &mut String,
    store: &MemStore,
) -> Result<(), NoMemory> {
    let objects = store.content(alloc)?;
    for object in &objects {
        append_object(alloc, text, object)?;
    }
    text.push('|')?;
    Ok(())
}

// The top call, of which no more is known here than that it ends. It asks for a storage at rest.
fn status(
    alloc: Global,
    words: &[String],
    files: &mut MemFiles,
    store: &mut MemStore,
    nodes: &mut MemNodes,
    out: &mut MemSink,
    err: &mut MemSink,
) -> u8 {
    store.drop_upload();
    medusa_main(alloc, words, files, store, nodes, out, err)
}

// Runs a command over a standard output that takes so many bytes.
fn append_answer(
    alloc: Global,
    text: &mut String,
    words: &[String],
    files: &mut MemFiles,
    store: &mut MemStore,
    nodes: &mut MemNodes,
    limit: usize,
) -> Result<(), NoMemory> {
    let mut out = MemSink::new(alloc, limit)?;
    let mut err = MemSink::new(alloc, 1000)?;
    let status = status(alloc, words, files, store, nodes, &mut out, &mut err);
    append_said(alloc, text, status, &out, &err)
}

// Runs a command, and adds to a text what is seen of it, with a bar after each part: status,
// standard output, standard error, and the objects of the store.
pub(crate) fn append_run(
    alloc: Global,
    text: &mut String,
    words: &[String],
    scene: &Scene,
    store: &mut MemStore,
    nodes: &mut MemNodes,
) -> Result<(), NoMemory> {
    let mut files = files(alloc, scene)?;
    append_answer(alloc, text, words, &mut files, store, nodes, scene.limit)?;
    append_objects(alloc, text, store)
}

// What is seen of a command over an empty store.
pub(crate) fn seen(alloc: Global, words: &[String], scene: &Scene) -> Result<String, NoMemory> {
    let mut text = String::new(alloc);
    let mut store = MemStore::new(alloc, 1000, 0);
    let mut nodes = nodes(alloc, scene)?;
    append_run(alloc, &mut text, words, scene, &mut store, &mut nodes)?;
    Ok(text)
}

// Lays an object of second 1000.
fn lay_object(
    alloc: Global,
    store: &mut MemStore,
    path: &str,
    bytes: &str,
) -> Result<(), NoMemory> {
    let path = ObjPath::of(alloc, path)?;
    let bytes = bytes.replace(alloc, '\u{b6}', "\n")?;
    store.add(alloc, path, bytes.as_bytes().to_vec(alloc)?, 1000)
}

// Lays the object of a line, path and bytes, unless its path is this one.
pub(crate) fn lay(
    alloc: Global,
    store: &mut MemStore,
    line: &str,
    without: &str,
) -> Result<(), NoMemory> {
    let (path, bytes) = line.split_once(' ').unwrap_or((line, ""));
    if path.is_empty() || path == without {
        return Ok(());
    }
    lay_object(alloc, store, path, bytes)
}

// Lays the first so many objects of lines.
fn lay_first(
    alloc: Global,
    store: &mut MemStore,
    lines: &str,
    count: usize,
) -> Result<(), NoMemory> {
    for line in lines.split('\n').take(count) {
        lay(alloc, store, line, "")?;
    }
    Ok(())
}

// The lines with this prefix.
pub(crate) fn under(alloc: Global, lines: &str, prefix: &str) -> Result<String, NoMemory> {
    Ok(lines.replace(alloc, '@', prefix)?)
}

// What is to be seen: `STATUS|OUTPUT|ERROR|`, with a `¶` for each line feed, and the first so many
// objects of lines without a prefix.
pub(crate) fn wanted(
    alloc: Global,
    said: &str,
    lines: &str,
    count: usize,
) -> Result<String, NoMemory> {
    let mut text = said.replace(alloc, '\u{b6}', "\n")?;
    let lines = under(alloc, lines, "")?;
    let mut store = MemStore::new(alloc, 1000, 0);
    lay_first(alloc, &mut store, lines.as_str(), count)?;
    append_objects(alloc, &mut text, &store)?;
    Ok(text)
}

// Whether these words in a scene give exactly that.
pub(crate) fn are_seen(
    alloc: Global,
    words: &[String],
    scene: &Scene,
    said: &str,
    lines: &str,
) -> Result<bool, NoMemory> {
    let seen = seen(alloc, words, scene)?;
    let wanted = wanted(alloc, said, lines, lines.len())?;
    Ok(seen.as_str() == wanted.as_str())
}

// The same of the words of a line.
pub(crate) fn is_seen(
    alloc: Global,
    line: &str,
    scene: &Scene,
    said: &str,
    lines: &str,
) -> Result<bool, NoMemory> {
    let words = words(alloc, line)?;
    are_seen(alloc, words.as_slice(), scene, said, lines)
}

// Whether the words of a line in a scene are refused so, `STATUS||ERROR|`, over an empty bucket.
pub(crate) fn is_refused(
    alloc: Global,
    line: &str,
    scene: &Scene,
    said: &str,
) -> Result<bool, NoMemory> {
    is_seen(alloc, line, scene, said, "")
}
