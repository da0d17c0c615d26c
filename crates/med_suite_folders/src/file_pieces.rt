// Files of a snapshot of folders, read in pieces.
use med_base::{Component, FileKey, Fqdn};
use med_folder::{FolderNodes, FolderSnap};
use med_outside::{Nodes, PIECE, Snap};
use med_suite_rows::calls::refusal;
use med_suite_rows::places::{is_done, many_bytes, write_file};
use std::alloc::Global;
use std::fs::Files;

fn key_of(alloc: Global, file: &str) -> Option<FileKey> {
    Some(FileKey {
        keyspace: Component::read(alloc, "ks").ok()?,
        table: Component::read(alloc, "t-1").ok()?,
        file: Component::read(alloc, file).ok()?,
    })
}

// The bytes of a file, by pieces up to the first one that isn't full.
fn read_by_pieces<R: Files + AllocGlobal + Clone + Drop>(
    alloc: Global,
    snap: &mut FolderSnap<R>,
    key: &FileKey,
) -> Option<Vec<u8>> {
    let mut bytes = Vec::new(alloc);
    for _ in 0..u64::MAX {
        let piece = snap.read_piece(alloc, key, bytes.len() as u64).ok()?;
        bytes.extend_from_slice(piece.bytes()).ok()?;
        if piece.bytes().len() < PIECE {
            return Some(bytes);
        }
    }
    None
}

// Makes a file of so many bytes, and tells whether it is read as what it is.
fn is_read<R: Files + AllocGlobal + Clone + Drop>(
    rt: &R,
    alloc: Global,
    snap: &mut FolderSnap<R>,
    size: &str,
) -> Option<bool> {
    let bytes = many_bytes(alloc, size.parse::<u32>().ok()? as usize)?;
    let path = format!(in alloc; "nodes/n1/data/ks/t-1/snapshots/medusa-b1/{size}").ok()?;
    write_file(rt, path.as_str(), bytes.as_slice()).ok()?;
    let read = read_by_pieces(alloc, snap, &key_of(alloc, size)?)?;
    Some(read.as_slice() == bytes.as_slice())
}

// The first size of which a file is misread.
fn first_misread<'a, R: Files + AllocGlobal + Clone + Drop>(
    rt: &R,
    alloc: Global,
    snap: &mut FolderSnap<R>,
    sizes: &'a str,
) -> Option<&'a str> {
    for size in sizes.split(' ') {
        if is_read(rt, alloc, snap, size) != Some(true) {
            return Some(size);
        }
    }
    None
}

// The same of the snapshot of the node `n1`.
fn first_lost<'a, R: Files + AllocGlobal + Clone + Drop>(
    rt: &R,
    alloc: Global,
    nodes: &mut FolderNodes<R>,
    sizes: &'a str,
) -> Option<&'a str> {
    let Some(mut snap) = open(alloc, nodes) else {
        return Some("it isn't opened");
    };
    let lost = first_misread(rt, alloc, &mut snap, sizes);
    nodes.close(snap);
    lost
}

fn open<R: Files + AllocGlobal + Clone + Drop>(
    alloc: Global,
    nodes: &mut FolderNodes<R>,
) -> Option<FolderSnap<R>> {
    let node = Fqdn::read(alloc, "n1").ok()?;
    nodes.open(alloc, "nodes", &node, "medusa-b1").ok()
}

#[test]
fn a_file_of_a_snapshot_is_read_in_pieces_byte_for_byte(rt: HostRuntime) {
    let mut nodes = FolderNodes::new(rt.alloc(), rt);
    let sizes = "0 1 1048575 1048576 1048577 3145745";
    assert_eq!(rt; first_lost(&rt, rt.alloc(), &mut nodes, sizes), None);
}

// A row `FILE PLACE => ANSWER`: `nothing`, `full` for a piece that is full, the bytes, or a
// refusal.
fn is_piece<R: Files + AllocGlobal + Clone + Drop>(
    alloc: Global,
    snap: &mut FolderSnap<R>,
    row: &str,
) -> Option<bool> {
    let (call, wanted) = row.split_once(" => ")?;
    let (file, from) = call.split_once(' ')?;
    let key = key_of(alloc, file)?;
    match snap.read_piece(alloc, &key, from.parse::<u64>().ok()?) {
        Ok(piece) if piece.bytes().is_empty() => Some(wanted == "nothing"),
        Ok(piece) if piece.bytes().len() == PIECE => Some(wanted == "full"),
        Ok(piece) => Some(piece.bytes() == wanted.as_bytes()),
        Err(denied) => Some(refusal(denied) == wanted),
    }
}

// A row with an answer is a piece, and one without makes or removes a file.
fn is_right<R: Files + AllocGlobal + Clone + Drop>(
    rt: &R,
    alloc: Global,
    snap: &mut FolderSnap<R>,
    row: &str,
) -> Option<bool> {
    if row.contains(" => ") {
        is_piece(alloc, snap, row)
    } else {
        Some(is_done(rt, row))
    }
}

fn first_untold<'a, R: Files + AllocGlobal + Clone + Drop>(
    rt: &R,
    alloc: Global,
    snap: &mut FolderSnap<R>,
    table: &'a str,
) -> Option<&'a str> {
    for row in table.split('\n') {
        if is_right(rt, alloc, snap, row) != Some(true) {
            return Some(row);
        }
    }
    None
}

// Makes the file `long` of two pieces and the bytes `end`, and answers the first row that the
// snapshot of the node `n1` answers otherwise.
fn first_wrong<'a, R: Files + AllocGlobal + Clone + Drop>(
    rt: &R,
    alloc: Global,
    nodes: &mut FolderNodes<R>,
    table: &'a str,
) -> Option<&'a str> {
    if make_long(rt, alloc) != Some(()) {
        return Some("it isn't made");
    }
    let Some(mut snap) = open(alloc, nodes) else {
        return Some("it isn't opened");
    };
    let wrong = first_untold(rt, alloc, &mut snap, table);
    nodes.close(snap);
    wrong
}

fn make_long<R: Files>(rt: &R, alloc: Global) -> Option<()> {
    let mut bytes = many_bytes(alloc, 2_097_152)?;
    bytes.extend_from_slice(b"end").ok()?;
    let path = "nodes/n1/data/ks/t-1/snapshots/medusa-b1/long";
    write_file(rt, path, bytes.as_slice()).ok()
}

// From any place on, in any order, and of files in turn. A file that was removed is read on while
// it is open, and is a fault afterwards.
const PLACES: &str = "\
file nodes/n1/data/ks/t-1/snapshots/medusa-b1/f=abc
long 2097152 => end
long 2097153 => nd
long 2097155 => nothing
long 4000000000 => nothing
long 18446744073709551615 => failed
long 1048576 => full
f 2097152 => nothing
f 1 => bc
long 0 => full
long 0 => full
long 1048576 => full
long 2097152 => end
link nodes/n1/data/ks/t-1/snapshots/medusa-b1/link=f
link 0 => failed
absent 0 => failed
long 1048576 => full
remove nodes/n1/data/ks/t-1/snapshots/medusa-b1/long
long 2097152 => end
long 2097152 => failed
f 0 => abc";

#[test]
fn a_piece_of_a_file_is_read_from_a_place_on(rt: HostRuntime) {
    let mut nodes = FolderNodes::new(rt.alloc(), rt);
    assert_eq!(rt; first_wrong(&rt, rt.alloc(), &mut nodes, PLACES), None);
}
