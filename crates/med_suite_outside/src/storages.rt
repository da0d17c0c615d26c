// One suite for every storage.
ghost use Rattle.std.specs.Prelude.{[]};
ghost use Rattle.med_outside.specs.State.{IsReady};

use crate::calls::first_wrong;
use crate::places::write_many;
use med_base::{Layout, ObjPath};
use med_folder::FolderStore;
use med_mem::MemStore;
use med_outside::Storage;
use std::alloc::Global;

const CALLS: &str = "\
open suite/k => done
sizes => nothing
put n1/b-1/x=1 => listed
put n1/b/x=12 => listed
put n1/b.2/\u{e9}=123 => listed
sizes => n1/b-1/x 1;n1/b.2/\u{e9} 3;n1/b/x 2;
sizes n1/b. => n1/b.2/\u{e9} 3;
get n1/b/x => 12
stat n1/b/x => 12
get n1/b => absent
put n1/b/x= => listed
sizes n1/b/ => n1/b/x 0;
stat n1/b/x => 
get n1/b/x => 
delete n1/b/x => done
get n1/b/x => absent
stat n1/b/x => absent
sizes n1/b/ => nothing
delete n1/b/x => done
delete n1/b => done
sizes => n1/b-1/x 1;n1/b.2/\u{e9} 3;
room 1000 => done
put n1/b/x=1234 => listed
get n1/b/x => 1234
stat n1/b/x => 1234";

// Bars divide the pieces of an upload. What is stored twice has the bytes of the second time.
const UPLOADS: &str = "\
drop u/b/x=ab|c => done
sizes u/ => nothing
upload u/b/x=ab||c => listed
get u/b/x => abc
stat u/b/x => abc
drop u/b/x=dropped => done
get u/b/x => abc
upload u/b/x=de => listed
get u/b/x => de
put u/b/x=put => listed
upload u/b/x=f|gh|i => listed
get u/b/x => fghi
stat u/b/x => fghi
upload u/b-1= => listed
sizes u/ => u/b-1 0;u/b/x 4;
delete u/b/x => done
get u/b/x => absent
upload u/b/x=k => listed
sizes u/ => u/b-1 0;u/b/x 1;";

const PIECES: &str = "\
piece v/x 0 => absent
put v/x=abc => listed
piece v/x 0 => abc
piece v/x 2 => c
piece v/x 3 => nothing
piece v/x 4000000000 => nothing
piece v 0 => absent
upload v/x=de|fg => listed
piece v/x 1 => efg
put v/x= => listed
piece v/x 0 => nothing";

// The first call of the suite that a storage answers otherwise.
fn check_store<S: Storage>(alloc: Global, store: &mut S) -> Option<&'static str>
    requires { IsReady [] (S.state store.old) }
    ensures { IsReady [] (S.state store.new) }
{
    if let Some(row) = first_wrong(alloc, store, CALLS) {
        return Some(row);
    }
    if let Some(row) = first_wrong(alloc, store, UPLOADS) {
        return Some(row);
    }
    first_wrong(alloc, store, PIECES)
}

#[test]
fn a_store_in_memory_passes(rt: HostRuntime) {
    let mut store = MemStore::new(rt.alloc(), 1000, 1);
    assert_eq!(rt; check_store(rt.alloc(), &mut store), None);
}

#[test]
fn a_store_of_folders_passes(rt: HostRuntime) {
    let mut store = FolderStore::new(rt.alloc(), rt);
    assert_eq!(rt; check_store(rt.alloc(), &mut store), None);
}

// The listings of a bucket of 2,500 objects, from `p/1000` to `p/3499`.
const PAGES: &str = "\
pages p/ => 1000 p/1000 p/1999 1500;1000 p/2000 p/2999 500;500 p/3000 p/3499 0;
pages  => 1000 p/1000 p/1999 1500;1000 p/2000 p/2999 500;500 p/3000 p/3499 0;
pages p/1 => 1000 p/1000 p/1999 0;
pages p/2 => 1000 p/2000 p/2999 0;
pages p/34 => 100 p/3400 p/3499 0;
pages p/3499 => 1 p/3499 p/3499 0;
pages q => 0 - - 0;";

fn add(alloc: Global, store: &mut MemStore, number: u32) -> Option<()> {
    let path = format!(in alloc; "p/{number}").ok()?;
    let bytes = b"x".to_vec(alloc).ok()?;
    store
        .add(alloc, ObjPath::from_string(path), bytes, 1000)
        .ok()
}

// Adds so many objects.
fn add_many(alloc: Global, store: &mut MemStore, count: u32) -> Option<()> {
    for i in 0..count {
        add(alloc, store, i.checked_add(1000)?)?;
    }
    Some(())
}

#[test]
fn a_store_in_memory_lists_in_pages(rt: HostRuntime) {
    let mut store = MemStore::new(rt.alloc(), 1000, 1);
    assert_eq!(rt; add_many(rt.alloc(), &mut store, 2500), Some(()));
    store.drop_upload();
    let layout = Layout::plain(rt.alloc());
    match store.open(rt.alloc(), "b", "k", &layout) {
        Ok(()) => assert_eq!(rt; first_wrong(rt.alloc(), &mut store, PAGES), None),
        Err(_) => panic!(rt; "the bucket isn't opened"),
    }
}

#[test]
fn a_store_of_folders_lists_in_pages(rt: HostRuntime) {
    let mut store = FolderStore::new(rt.alloc(), rt);
    assert_eq!(rt;
        first_wrong(rt.alloc(), &mut store, "open suite/pages => done"),
        None
    );
    assert_eq!(rt;
        write_many(&rt, rt.alloc(), "suite/pages/p", 2500),
        Some(())
    );
    assert_eq!(rt; first_wrong(rt.alloc(), &mut store, PAGES), None);
}
