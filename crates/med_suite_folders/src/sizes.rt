// Objects of a storage of folders of each of some sizes, stored and read in pieces.
use crate::uploads::{first_wrong, piece_of};
use med_base::ObjPath;
use med_folder::FolderStore;
use med_outside::{PIECE, Storage};
use med_suite_rows::places::many_bytes;
use std::alloc::Global;
use std::fs::{File, Files};
use std::time::Clock;

// Stores bytes in pieces, each as long as a piece may be but for the last one.
fn upload<R: Files<File = File> + Clock + AllocGlobal + Clone + Drop>(
    alloc: Global,
    store: &mut FolderStore<R>,
    path: &ObjPath,
    bytes: &[u8],
) -> Option<u64> {
    store.begin(alloc, path).ok()?;
    for part in bytes.chunks(PIECE) {
        store.append(alloc, &piece_of(alloc, part)?).ok()?;
    }
    store.commit(alloc).ok()
}

// The bytes of an object, by pieces up to the first one that isn't full.
fn read_by_pieces<R: Files<File = File> + Clock + AllocGlobal + Clone + Drop>(
    alloc: Global,
    store: &mut FolderStore<R>,
    path: &ObjPath,
) -> Option<Vec<u8>> {
    let mut bytes = Vec::new(alloc);
    for _ in 0..u64::MAX {
        let piece = store.get_piece(alloc, path, bytes.len() as u64).ok()??;
        bytes.extend_from_slice(piece.bytes()).ok()?;
        if piece.bytes().len() < PIECE {
            return Some(bytes);
        }
    }
    None
}

// Whether the object alone is listed under its path, with that size and second.
fn is_listed<R: Files<File = File> + Clock + AllocGlobal + Clone + Drop>(
    alloc: Global,
    store: &mut FolderStore<R>,
    path: &ObjPath,
    size: usize,
    second: u64,
) -> Option<bool> {
    match store
        .list_page(alloc, path.as_str(), None)
        .ok()?
        .entries
        .as_slice()
    {
        [entry] => Some(entry.size == size as u64 && entry.second == second),
        _ => Some(false),
    }
}

// Whether bytes are stored in pieces, and read as what they are, whole and in pieces.
fn is_kept<R: Files<File = File> + Clock + AllocGlobal + Clone + Drop>(
    alloc: Global,
    store: &mut FolderStore<R>,
    path: &ObjPath,
    bytes: &[u8],
) -> Option<bool> {
    let second = upload(alloc, store, path, bytes)?;
    let is_dated = is_listed(alloc, store, path, bytes.len(), second)?;
    let whole = store.get(alloc, path).ok()??;
    let pieces = read_by_pieces(alloc, store, path)?;
    let is_read = whole.as_slice() == bytes && pieces.as_slice() == bytes;
    Some(is_read && is_dated)
}

fn is_size_kept<R: Files<File = File> + Clock + AllocGlobal + Clone + Drop>(
    alloc: Global,
    store: &mut FolderStore<R>,
    size: &str,
) -> Option<bool> {
    let path = ObjPath::of(alloc, "sized").ok()?;
    let bytes = many_bytes(alloc, size.parse::<u32>().ok()? as usize)?;
    is_kept(alloc, store, &path, bytes.as_slice())
}

// The first size of which an object isn't kept.
fn first_lost<'a, R: Files<File = File> + Clock + AllocGlobal + Clone + Drop>(
    alloc: Global,
    store: &mut FolderStore<R>,
    sizes: &'a str,
) -> Option<&'a str> {
    for size in sizes.split(' ') {
        if is_size_kept(alloc, store, size) != Some(true) {
            return Some(size);
        }
    }
    None
}

#[test]
fn an_object_is_stored_and_read_in_pieces_byte_for_byte(rt: HostRuntime) {
    let mut store = FolderStore::new(rt.alloc(), rt);
    assert_eq!(rt;
        first_wrong(
            &rt,
            rt.alloc(),
            &mut store,
            "small",
            "object sized => absent"
        ),
        None
    );
    let sizes = "0 1 1048575 1048576 1048577";
    assert_eq!(rt; first_lost(rt.alloc(), &mut store, sizes), None);
}

#[test]
fn an_object_of_some_pieces_is_stored_and_read(rt: HostRuntime) {
    let mut store = FolderStore::new(rt.alloc(), rt);
    assert_eq!(rt;
        first_wrong(
            &rt,
            rt.alloc(),
            &mut store,
            "large",
            "object sized => absent"
        ),
        None
    );
    assert_eq!(rt; first_lost(rt.alloc(), &mut store, "3145745"), None);
}
