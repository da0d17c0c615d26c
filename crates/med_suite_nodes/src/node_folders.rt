// Snapshots of folders: the ring, and what goes while it is read.
use med_base::{Component, FileKey, Fqdn};
use med_folder::{FolderNodes, FolderSnap};
use med_outside::{Nodes, Snap};
use med_suite_rows::calls::{is_number, refusal};
use med_suite_rows::places::first_undone;
use std::alloc::{Alloc, Allocator, Global};
use std::cell::Cell;
use std::fs::{Files, Metadata, OpenOptions};
use std::io;
use std::io::ErrorKind;

// The system. What has a text in its path is gone once it was asked for so often.
#[derive(Clone, Drop)]
struct Vanishing<'a, R> {
    rt: R,
    text: &'a str,
    left: &'a Cell<u8>,
}

impl<R> Vanishing<'_, R> {
    fn check(&self, path: &str) -> io::Result<()> {
        if !path.contains(self.text) {
            return Ok(());
        }
        match self.left.get().checked_sub(1) {
            Some(left) => {
                self.left.set(left);
                Ok(())
            }
            None => Err(io::Error::from(ErrorKind::NotFound)),
        }
    }
}

impl<R: Alloc<A = Global>> Alloc for Vanishing<'_, R> {
    type A = Global;

    fn alloc(&self) -> Global {
        self.rt.alloc()
    }
}

impl<R: Files> Files for Vanishing<'_, R> {
    type File = R::File;

    type Dir = R::Dir;

    fn open_file(&self, how: &OpenOptions, path: &str) -> io::Result<R::File> {
        self.check(path)?;
        self.rt.open_file(how, path)
    }

    fn open_dir(&self, path: &str) -> io::Result<R::Dir> {
        self.check(path)?;
        self.rt.open_dir(path)
    }

    fn metadata(&self, path: &str) -> io::Result<Metadata> {
        self.check(path)?;
        self.rt.metadata(path)
    }

    fn symlink_metadata(&self, path: &str) -> io::Result<Metadata> {
        self.check(path)?;
        self.rt.symlink_metadata(path)
    }

    fn copy(&self, from: &str, to: &str) -> io::Result<u64> {
        self.rt.copy(from, to)
    }

    fn rename(&self, from: &str, to: &str) -> io::Result<()> {
        self.rt.rename(from, to)
    }

    fn remove_file(&self, path: &str) -> io::Result<()> {
        self.rt.remove_file(path)
    }

    fn create_dir(&self, path: &str) -> io::Result<()> {
        self.rt.create_dir(path)
    }

    fn remove_dir(&self, path: &str) -> io::Result<()> {
        self.rt.remove_dir(path)
    }

    fn remove_dir_all<B: Allocator>(&self, alloc: B, path: &str) -> io::Result<()> {
        self.rt.remove_dir_all(alloc, path)
    }
}

fn open<R: Files + AllocGlobal + Clone + Drop>(
    alloc: Global,
    nodes: &mut FolderNodes<R>,
    node: &str,
) -> Option<FolderSnap<R>> {
    let node = Fqdn::read(alloc, node).ok()?;
    nodes.open(alloc, "nodes", &node, "medusa-b1").ok()
}

// How many keys the node `n1` has where what has a text in its path goes after so many looks.
fn is_counted<R: Files + AllocGlobal + Clone + Drop>(
    rt: &R,
    alloc: Global,
    row: &str,
) -> Option<bool> {
    let (gone, wanted) = row.split_once(" => ")?;
    let (text, looks) = gone.split_once(' ')?;
    let left = Cell::new(looks.parse::<u8>().ok()?);
    let rt = rt.clone().ok()?;
    let left = &left;
    let mut nodes = FolderNodes::new(alloc, Vanishing { rt, text, left });
    match open(alloc, &mut nodes, "n1")?.keys(alloc) {
        Ok(keys) => is_number(alloc, keys.len() as u64, wanted),
        Err(denied) => Some(refusal(denied) == wanted),
    }
}

fn first_wrong<'a, R: Files + AllocGlobal + Clone + Drop>(
    rt: &R,
    alloc: Global,
    table: &'a str,
) -> Option<&'a str> {
    for row in table.split('\n') {
        if is_counted(rt, alloc, row) != Some(true) {
            return Some(row);
        }
    }
    None
}

const MADE: &str = "\
file nodes/n1/data/ks/t-1/snapshots/medusa-b1/f=f
file nodes/n1/data/ks/t-1/snapshots/medusa-b1/.i/g=g
file nodes/n1/data/ks/t-2/snapshots/medusa-b2/f=no";

// A node without data and a table without the snapshot have no files. What was listed and is gone
// when it is looked into is a fault: a keyspace, a table, the snapshot of one, an index, a file.
const GONE: &str = "\
none 0 => 2
n1/data 0 => 0
n1/data/ks 0 => failed
n1/data/ks 1 => failed
/t-1 0 => failed
/t-1 1 => failed
/t-1/ 0 => 0
/medusa-b1 0 => 0
/medusa-b1 1 => failed
/.i 0 => failed
/.i 1 => failed
/f 0 => failed";

#[test]
fn what_goes_while_a_snapshot_is_listed_is_a_fault(rt: HostRuntime) {
    assert_eq!(rt; first_undone(&rt, MADE), None);
    assert_eq!(rt; first_wrong(&rt, rt.alloc(), GONE), None);
}

// Whether the file of a name in the first table is read, whose bytes are its name.
fn is_file<R: Files + AllocGlobal + Clone + Drop>(
    alloc: Global,
    snap: &mut FolderSnap<R>,
    name: &str,
) -> Option<bool> {
    let key = FileKey {
        keyspace: Component::read(alloc, "ks").ok()?,
        table: Component::read(alloc, "t-1").ok()?,
        file: Component::read(alloc, name).ok()?,
    };
    match snap.read_piece(alloc, &key, 0) {
        Ok(piece) => Some(piece.bytes() == name.as_bytes()),
        Err(_) => Some(false),
    }
}

// Whether two files of one folder of the node `n8` are both read where what has a text in its path
// goes after so many looks and openings.
fn are_read<R: Files + AllocGlobal + Clone + Drop>(
    rt: &R,
    alloc: Global,
    text: &str,
    looks: u8,
) -> Option<bool> {
    let left = Cell::new(looks);
    let rt = rt.clone().ok()?;
    let left = &left;
    let mut nodes = FolderNodes::new(alloc, Vanishing { rt, text, left });
    let mut snap = open(alloc, &mut nodes, "n8")?;
    Some(is_file(alloc, &mut snap, "f")? && is_file(alloc, &mut snap, "g")?)
}

const TWO: &str = "\
file nodes/n8/data/ks/t-1/snapshots/medusa-b1/f=f
file nodes/n8/data/ks/t-1/snapshots/medusa-b1/g=g";

// Two folders on the way are looked at once, and each file is looked at and opened.
#[test]
fn the_way_to_files_of_one_folder_is_looked_at_once(rt: HostRuntime) {
    assert_eq!(rt; first_undone(&rt, TWO), None);
    assert_eq!(rt; are_read(&rt, rt.alloc(), "/snapshots", 6), Some(true));
    assert_eq!(rt; are_read(&rt, rt.alloc(), "/snapshots", 5), Some(false));
}

// The ring of a node answers itself, or a refusal.
fn is_ring<R: Files + AllocGlobal + Clone + Drop>(
    alloc: Global,
    nodes: &mut FolderNodes<R>,
    row: &str,
) -> Option<bool> {
    let (node, wanted) = row.split_once(" => ")?;
    let mut snap = open(alloc, nodes, node)?;
    let is_right = match snap.ring(alloc) {
        Ok(ring) => ring.as_slice() == wanted.as_bytes(),
        Err(denied) => refusal(denied) == wanted,
    };
    nodes.close(snap);
    Some(is_right)
}

fn first_other<'a, R: Files + AllocGlobal + Clone + Drop>(
    alloc: Global,
    nodes: &mut FolderNodes<R>,
    table: &'a str,
) -> Option<&'a str> {
    for row in table.split('\n') {
        if is_ring(alloc, nodes, row) != Some(true) {
            return Some(row);
        }
    }
    None
}

const RINGS: &str = "\
file nodes/n4/ring.json={}
folder nodes/n5/ring.json
folder nodes/n6
link nodes/n6/ring.json=../n4/ring.json";

const RING: &str = "\
n4 => {}
n5 => failed
n6 => failed
n7 => failed";

#[test]
fn a_node_without_a_file_of_its_ring_is_a_fault(rt: HostRuntime) {
    assert_eq!(rt; first_undone(&rt, RINGS), None);
    let mut nodes = FolderNodes::new(rt.alloc(), rt);
    assert_eq!(rt; first_other(rt.alloc(), &mut nodes, RING), None);
}
