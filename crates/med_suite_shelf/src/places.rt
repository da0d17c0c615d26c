// Files that are placed by a claim.
ghost use Rattle.std.specs.Prelude.{◌≡◌, []};
ghost use Rattle.med_outside.specs.State.{IsReady};

use crate::claims::{shelf_of, try_claim};
use crate::snapshot::Changing;
use med_base::{BackupName, Component, FileKey};
use med_core::{How, Mode};
use med_mem::MemStore;
use med_outside::{Storage, Trace};
use med_shelf::{PlaceError, Shelf};
use med_suite_rows::calls::first_wrong;
use std::alloc::Global;

/// The key of the file `ks/t-1/f`.
pub(crate) fn key_of(alloc: Global) -> Option<FileKey> {
    let keyspace = Component::read(alloc, "ks").ok()?;
    let table = Component::read(alloc, "t-1").ok()?;
    let file = Component::read(alloc, "f").ok()?;
    Some(FileKey {
        keyspace,
        table,
        file,
    })
}

/// How a file came to its path, in a word.
pub(crate) fn word_of(how: How) -> &'static str {
    match how {
        How::Reused => "reused",
        How::Stored => "stored",
        How::Aside => "aside",
    }
}

fn word(answer: Result<How, PlaceError>) -> &'static str {
    match answer {
        Ok(how) => word_of(how),
        Err(PlaceError::Store) => "store",
        Err(PlaceError::Snap) => "snap",
        Err(PlaceError::Memory) => "memory",
    }
}

// What the place of the file answers under a claim of the name, which is given up then.
fn place_under<S: Storage>(
    alloc: Global,
    store: &mut S,
    shelf: &mut Shelf,
    name: &BackupName,
    mode: Mode,
    key: &FileKey,
    snap: &mut Changing,
) -> Option<&'static str>
    requires layout { shelf.old.layout ≡ [] }
    requires ready { IsReady [] (S.state store.old) }
    ensures ready { IsReady [] (S.state store.new) }
{
    let Ok(mut claim) = try_claim(alloc, store, shelf, name, mode) else {
        return None;
    };
    let mut trace = Trace::new(alloc);
    let answer = shelf.place(alloc, store, &mut claim, key, snap, &mut trace);
    shelf.abandon(claim);
    Some(word(answer))
}

// What the place of the file `ks/t-1/f` answers, under a claim of the name on a shelf of its own.
fn placed<S: Storage>(
    alloc: Global,
    store: &mut S,
    name: &str,
    mode: Mode,
    snap: &mut Changing,
) -> Option<&'static str>
    requires { IsReady [] (S.state store.old) }
    ensures { IsReady [] (S.state store.new) }
{
    let mut shelf = shelf_of(alloc)?;
    let name = BackupName::read(alloc, name).ok()?;
    let key = key_of(alloc)?;
    place_under(alloc, store, &mut shelf, &name, mode, &key, snap)
}

const SHARED: &str = "\
piece n1/data/ks/t-1/f 0 => abc
sizes n1/d3/data/ => n1/d3/data/ks/t-1/f 1;
sizes n1/d2/data/ => nothing
sizes n1/d1/data/ => nothing
piece n1/d3/data/ks/t-1/f 0 => a
piece n1/b1/data/ks/t-1/f 0 => abc";

#[test]
fn a_file_is_stored_named_or_set_aside(rt: HostRuntime) {
    let mut store = MemStore::new(rt.alloc(), 1000, 1);
    assert_eq!(rt;
        first_wrong(rt.alloc(), &mut store, "open b/k => done"),
        None
    );
    let mode = Mode::Differential;
    assert_eq!(rt;
        placed(rt.alloc(), &mut store, "d1", mode, &mut Changing::of("abc")),
        Some("stored")
    );
    assert_eq!(rt;
        placed(rt.alloc(), &mut store, "d2", mode, &mut Changing::of("abc")),
        Some("reused")
    );
    assert_eq!(rt;
        placed(rt.alloc(), &mut store, "d3", mode, &mut Changing::of("a")),
        Some("aside")
    );
    assert_eq!(rt;
        placed(
            rt.alloc(),
            &mut store,
            "b1",
            Mode::Full,
            &mut Changing::of("abc")
        ),
        Some("stored")
    );
    assert_eq!(rt; first_wrong(rt.alloc(), &mut store, SHARED), None);
}

// Bytes that have the length of the shared file, and not its MD5.
const SAME_SIZE: &str = "\
piece n1/data/ks/t-1/f 0 => abc
piece n1/d2/data/ks/t-1/f 0 => abd";

#[test]
fn a_file_of_the_same_size_is_set_aside(rt: HostRuntime) {
    let mut store = MemStore::new(rt.alloc(), 1000, 1);
    assert_eq!(rt;
        first_wrong(rt.alloc(), &mut store, "open b/k => done"),
        None
    );
    let mode = Mode::Differential;
    assert_eq!(rt;
        placed(rt.alloc(), &mut store, "d1", mode, &mut Changing::of("abc")),
        Some("stored")
    );
    assert_eq!(rt;
        placed(rt.alloc(), &mut store, "d2", mode, &mut Changing::of("abd")),
        Some("aside")
    );
    assert_eq!(rt; first_wrong(rt.alloc(), &mut store, SAME_SIZE), None);
}

#[test]
fn bytes_that_are_the_shared_ones_the_second_time_are_not_stored(rt: HostRuntime) {
    let mut store = MemStore::new(rt.alloc(), 1000, 1);
    assert_eq!(rt;
        first_wrong(rt.alloc(), &mut store, "open b/k => done"),
        None
    );
    let mode = Mode::Differential;
    assert_eq!(rt;
        placed(rt.alloc(), &mut store, "d1", mode, &mut Changing::of("abc")),
        Some("stored")
    );
    let mut changing = Changing::between("x", "abc");
    assert_eq!(rt;
        placed(rt.alloc(), &mut store, "d2", mode, &mut changing),
        Some("reused")
    );
    let nothing = "sizes n1/d2/data/ => nothing";
    assert_eq!(rt; first_wrong(rt.alloc(), &mut store, nothing), None);
}

// A row `MODE NAME READ => ANSWER`: the file has the bytes `abd`, and the read of that number fails.
fn is_placed<S: Storage>(alloc: Global, store: &mut S, row: &str) -> Option<bool>
    requires { IsReady [] (S.state store.old) }
    ensures { IsReady [] (S.state store.new) }
{
    let (set, wanted) = row.split_once(" => ")?;
    let (mode, call) = set.split_once(' ')?;
    let (name, read) = call.split_once(' ')?;
    let mode = if mode == "full" {
        Mode::Full
    } else {
        Mode::Differential
    };
    let mut snap = Changing::failing_at("abd", read.parse::<u64>().ok());
    Some(placed(alloc, store, name, mode, &mut snap)? == wanted)
}

// The first row that is placed otherwise.
fn first_misplaced<'a, S: Storage>(alloc: Global, store: &mut S, table: &'a str) -> Option<&'a str>
    requires { IsReady [] (S.state store.old) }
    ensures { IsReady [] (S.state store.new) }
{
    for row in table.split('\n') {
        if is_placed(alloc, store, row) != Some(true) {
            return Some(row);
        }
    }
    None
}

// Beside a shared file of the same size the file is read for its MD5, and then to be stored.
const FAILING: &str = "\
full b1 1 => snap
differential d2 1 => snap
differential d3 2 => snap
full b2 none => stored
differential d4 none => aside";

const LEFT: &str = "\
sizes n1/data/ => n1/data/ks/t-1/f 3;
piece n1/data/ks/t-1/f 0 => abc
sizes n1/b1/data/ => nothing
sizes n1/d2/data/ => nothing
sizes n1/d3/data/ => nothing
piece n1/b2/data/ks/t-1/f 0 => abd
piece n1/d4/data/ks/t-1/f 0 => abd";

#[test]
fn a_file_whose_read_fails_is_not_stored(rt: HostRuntime) {
    let mut store = MemStore::new(rt.alloc(), 1000, 1);
    assert_eq!(rt;
        first_wrong(rt.alloc(), &mut store, "open b/k => done"),
        None
    );
    let mode = Mode::Differential;
    assert_eq!(rt;
        placed(rt.alloc(), &mut store, "d1", mode, &mut Changing::of("abc")),
        Some("stored")
    );
    assert_eq!(rt; first_misplaced(rt.alloc(), &mut store, FAILING), None);
    assert_eq!(rt; first_wrong(rt.alloc(), &mut store, LEFT), None);
}
