// Snapshots of nodes, in memory and as folders.
ghost use Rattle.std.specs.Prelude.{◌≡◌, IfSome};
ghost use Rattle.med_outside.specs.Snapshot.{key_of_raw};
ghost use Rattle.med_folder.specs.Snapshots.{key_of};

use crate::names::is_text;
use med_base::{Component, FileKey, Fqdn};
use med_folder::{FolderNodes, FolderSnap};
use med_mem::{MemFile, MemNodes, MemSnap};
use med_outside::{Denied, Nodes, Piece, RawKey, Snap};
use med_suite_rows::calls::refusal;
use med_suite_rows::places::{first_undone, long_file, write_file};
use std::alloc::Global;
use std::fs::Files;

fn push_key(alloc: Global, text: &mut String, key: &RawKey) -> Option<()> {
    let (keyspace, table) = (key.keyspace.as_str(), key.table.as_str());
    let file = key.file.as_str();
    let line = format!(in alloc; "{keyspace} {table} {file};").ok()?;
    text.push_str(line.as_str()).ok()
}

fn keys_text(alloc: Global, keys: &[RawKey]) -> Option<String> {
    let mut text = String::new(alloc);
    for key in keys {
        push_key(alloc, &mut text, key)?;
    }
    Some(text)
}

fn component(alloc: Global, text: &str) -> Option<Component>
    ensures { IfSome result (λ c. c ≡ text.now) }
{
    Component::read(alloc, text).ok()
}

fn file_key(alloc: Global, keyspace: &str, table: &str, file: &str) -> Option<FileKey>
    ensures { IfSome result (λ key. key ≡ key_of keyspace.now table.now file.now) }
{
    Some(FileKey {
        keyspace: component(alloc, keyspace)?,
        table: component(alloc, table)?,
        file: component(alloc, file)?,
    })
}

// The keys of a snapshot answer themselves, each with a semicolon, `nothing`, or a refusal.
fn are_keys<P: Snap>(alloc: Global, snap: &mut P, wanted: &str) -> Option<bool> {
    match snap.keys(alloc) {
        Ok(keys) if keys.is_empty() => Some(wanted == "nothing"),
        Ok(keys) => Some(keys_text(alloc, keys.as_slice())?.as_str() == wanted),
        Err(denied) => Some(refusal(denied) == wanted),
    }
}

// Bytes answer themselves, with `¶` for a line feed, or `nothing`. `long` stands for those of the
// long file.
fn are_bytes(alloc: Global, bytes: &[u8], long: &[u8], wanted: &str) -> Option<bool> {
    if bytes.is_empty() {
        return Some(wanted == "nothing");
    }
    let wanted = wanted.replace(alloc, '\u{b6}', "\n").ok()?;
    Some(is_text(bytes, wanted.as_str(), long))
}

// The same of a piece, or a refusal.
fn is_piece(
    alloc: Global,
    answer: &Result<Piece, Denied>,
    long: &[u8],
    wanted: &str,
) -> Option<bool> {
    match answer {
        Ok(piece) => are_bytes(alloc, piece.bytes(), long, wanted),
        Err(denied) => Some(refusal(*denied) == wanted),
    }
}

fn is_schema<P: Snap>(alloc: Global, snap: &mut P, wanted: &str) -> Option<bool> {
    match snap.schema(alloc) {
        Ok(bytes) => are_bytes(alloc, bytes.as_slice(), b"", wanted),
        Err(denied) => Some(refusal(denied) == wanted),
    }
}

fn is_ring<P: Snap>(alloc: Global, snap: &mut P, wanted: &str) -> Option<bool> {
    match snap.ring(alloc) {
        Ok(bytes) => are_bytes(alloc, bytes.as_slice(), b"", wanted),
        Err(denied) => Some(refusal(denied) == wanted),
    }
}

// The key that a raw one names.
fn named_key(alloc: Global, raw: &RawKey) -> Option<FileKey>
    ensures { IfSome result (λ key. key ≡ key_of_raw raw.now) }
{
    file_key(
        alloc,
        raw.keyspace.as_str(),
        raw.table.as_str(),
        raw.file.as_str(),
    )
}

// The bytes of the first key's file, or `none` where there are no keys.
fn is_first<P: Snap>(alloc: Global, snap: &mut P, wanted: &str) -> Option<bool> {
    let Ok(keys) = snap.keys(alloc) else {
        return None;
    };
    let [first, ..] = keys.as_slice() else {
        return Some(wanted == "none");
    };
    let key = named_key(alloc, first)?;
    is_piece(alloc, &snap.read_piece(alloc, &key, 0), b"", wanted)
}

// Whether a snapshot answers `keys`, `first`, `schema` and `ring` as wanted.
fn is_told<P: Snap>(alloc: Global, snap: &mut P, row: &str) -> Option<bool> {
    let (call, wanted) = row.split_once(" => ")?;
    match call {
        "keys" => are_keys(alloc, snap, wanted),
        "first" => is_first(alloc, snap, wanted),
        "schema" => is_schema(alloc, snap, wanted),
        "ring" => is_ring(alloc, snap, wanted),
        _ => None,
    }
}

fn first_untold<'a, P: Snap>(alloc: Global, snap: &mut P, table: &'a str) -> Option<&'a str> {
    for row in table.split('\n') {
        if is_told(alloc, snap, row) != Some(true) {
            return Some(row);
        }
    }
    None
}

fn open<N: Nodes>(alloc: Global, nodes: &mut N, node: &str) -> Option<N::Snap> {
    let node = Fqdn::read(alloc, node).ok()?;
    nodes.open(alloc, "nodes", &node, "medusa-b1").ok()
}

// The first row that the snapshot of a node answers otherwise.
fn first_wrong<'a, N: Nodes>(
    alloc: Global,
    nodes: &mut N,
    node: &str,
    table: &'a str,
) -> Option<&'a str> {
    let Some(mut snap) = open(alloc, nodes, node) else {
        return Some("it isn't opened");
    };
    let wrong = first_untold(alloc, &mut snap, table);
    nodes.close(snap);
    wrong
}

fn raw_key(alloc: Global, keyspace: &str, table: &str, file: &str) -> Option<RawKey> {
    Some(RawKey {
        keyspace: String::from_str(alloc, keyspace).ok()?,
        table: String::from_str(alloc, table).ok()?,
        file: String::from_str(alloc, file).ok()?,
    })
}

// A file of the keyspace `k` with the name `f.db`.
fn file(alloc: Global, table: &str, text: &str) -> Option<MemFile> {
    let bytes = text.as_bytes().to_vec(alloc).ok()?;
    let key = raw_key(alloc, "k", table, "f.db")?;
    Some(MemFile { key, bytes })
}

// Two files with one key, and one between them.
fn three_files(alloc: Global) -> Option<Vec<MemFile>> {
    let mut files = Vec::new(alloc);
    files.push(file(alloc, "t", "first")?).ok()?;
    files.push(file(alloc, "s", "other")?).ok()?;
    files.push(file(alloc, "t", "again")?).ok()?;
    Some(files)
}

fn add_three(alloc: Global, nodes: &mut MemNodes) -> Option<()> {
    let schema = b"CREATE".as_slice().to_vec(alloc).ok()?;
    let files = three_files(alloc)?;
    let ring = b"{}".as_slice().to_vec(alloc).ok()?;
    let snap = MemSnap {
        files,
        schema,
        ring,
    };
    nodes.add(alloc, "nodes", "n1", "medusa-b1", snap).ok()
}

const ADDED: &str = "\
first => first
keys => k t f.db;k s f.db;
schema => CREATE
ring => {}";

const NOT_ADDED: &str = "\
first => none
keys => nothing
schema => nothing
ring => nothing";

#[test]
fn of_two_files_with_one_key_the_first_counts(rt: HostRuntime) {
    let mut nodes = MemNodes::new(rt.alloc());
    assert_eq!(rt; add_three(rt.alloc(), &mut nodes), Some(()));
    assert_eq!(rt; first_wrong(rt.alloc(), &mut nodes, "n1", ADDED), None);
    assert_eq!(rt; first_wrong(rt.alloc(), &mut nodes, "n2", NOT_ADDED), None);
}

// A row `KEYSPACE TABLE FILE => BYTES`.
fn is_read<R: Files + AllocGlobal + Clone + Drop>(
    alloc: Global,
    snap: &mut FolderSnap<R>,
    long: &[u8],
    row: &str,
) -> Option<bool> {
    let (key, wanted) = row.split_once(" => ")?;
    let (keyspace, key) = key.split_once(' ')?;
    let (table, file) = key.split_once(' ')?;
    let key = file_key(alloc, keyspace, table, file)?;
    is_piece(alloc, &snap.read_piece(alloc, &key, 0), long, wanted)
}

fn first_unread<'a, R: Files + AllocGlobal + Clone + Drop>(
    alloc: Global,
    snap: &mut FolderSnap<R>,
    long: &[u8],
    table: &'a str,
) -> Option<&'a str> {
    for row in table.split('\n') {
        if is_read(alloc, snap, long, row) != Some(true) {
            return Some(row);
        }
    }
    None
}

// The first row whose file is read otherwise from the snapshot of the node `n1`.
fn first_misread<'a, R: Files + AllocGlobal + Clone + Drop>(
    alloc: Global,
    nodes: &mut FolderNodes<R>,
    long: &[u8],
    table: &'a str,
) -> Option<&'a str> {
    let Some(mut snap) = open(alloc, nodes, "n1") else {
        return Some("it isn't opened");
    };
    let wrong = first_unread(alloc, &mut snap, long, table);
    nodes.close(snap);
    wrong
}

// The files of a node, and links to a file, to the folder of an index, to that of a table, and to
// that of a snapshot.
const MADE: &str = "\
file nodes/n1/data/ks/t-1/snapshots/medusa-b1/f=abc
file nodes/n1/data/ks/t-1/snapshots/medusa-b1/e=e
file nodes/n1/data/ks/t-1/snapshots/medusa-b1/.i/g=de
file nodes/n1/data/ks/t-1/snapshots/medusa-b1/.j/g=j
file nodes/n1/data/ks/t-1/snapshots/medusa-b1/deep/h=no
file nodes/n1/data/ks/t-5/snapshots/medusa-b1/f=f
file nodes/n1/data/ks/u.v/snapshots/medusa-b1/f=no
link nodes/n1/data/ks/t-1/snapshots/medusa-b1/link=f
link nodes/n1/data/ks/t-1/snapshots/medusa-b1/.l=.i
link nodes/n1/data/ks/t-3=t-1
folder nodes/n1/data/ks/t-4/snapshots
link nodes/n1/data/ks/t-4/snapshots/medusa-b1=../../t-1/snapshots/medusa-b1";

const LISTED: &str = "\
keys => k.s t-2 f;ks t-1 e;ks t-1 f;ks t-1.i g;ks t-1.j g;ks t-5 f;
schema => -- s\u{b6}";

const READ: &str = "\
ks t-1 f => abc
ks t-1.i g => de
k.s t-2 f => long
ks t-1 link => failed
ks t-1.l g => failed
ks t-3 f => failed
ks t-4 f => failed
ks t-1 absent => failed";

// Whether the node is made, its schema and its long file too.
fn is_made<R: Files>(rt: &R, long: &[u8]) -> bool {
    let path = "nodes/n1/data/k.s/t-2/snapshots/medusa-b1/f";
    first_undone(rt, MADE).is_none()
        && write_file(rt, "nodes/n1/schema.cql", b"-- s\n").is_ok()
        && write_file(rt, path, long).is_ok()
}

#[test]
fn a_snapshot_lists_and_reads_files_and_indexes_but_no_links(rt: HostRuntime) {
    let long = long_file(rt.alloc());
    assert!(rt; is_made(&rt, long.as_slice()));
    let mut nodes = FolderNodes::new(rt.alloc(), rt);
    assert_eq!(rt; first_wrong(rt.alloc(), &mut nodes, "n1", LISTED), None);
    assert_eq!(rt;
        first_misread(rt.alloc(), &mut nodes, long.as_slice(), READ),
        None
    );
}

const ABSENT: &str = "\
keys => nothing
schema => failed";

#[test]
fn a_node_without_a_folder_has_no_keys_and_no_schema(rt: HostRuntime) {
    let mut nodes = FolderNodes::new(rt.alloc(), rt);
    assert_eq!(rt; first_wrong(rt.alloc(), &mut nodes, "n2", ABSENT), None);
}

const LOOPED: &str = "\
folder nodes/n3
link nodes/n3/data=data";

#[test]
fn a_folder_that_cant_be_read_is_a_fault(rt: HostRuntime) {
    assert_eq!(rt; first_undone(&rt, LOOPED), None);
    let mut nodes = FolderNodes::new(rt.alloc(), rt);
    assert_eq!(rt;
        first_wrong(rt.alloc(), &mut nodes, "n3", "keys => failed"),
        None
    );
}
