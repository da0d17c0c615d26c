// A storage in memory.
use med_base::ObjPath;
use med_mem::{MemObject, MemStore};
use med_outside::Storage;
use med_suite_rows::calls::first_wrong;
use std::alloc::Global;

const PUTS: &str = "\
open base/bucket => done
put a/x=123 => 100
put a-b=12 => 105
put b= => 110
sizes => a-b 2;a/x 3;b 0;
seconds => a-b 105;a/x 100;b 110;
sizes a => a-b 2;a/x 3;
seconds a => a-b 105;a/x 100;
sizes a/ => a/x 3;
seconds a/ => a/x 100;
now => 115";

#[test]
fn a_listing_is_in_byte_order_and_a_text_cuts_it_anywhere(rt: HostRuntime) {
    let mut store = MemStore::new(rt.alloc(), 100, 5);
    assert_eq!(rt; first_wrong(rt.alloc(), &mut store, PUTS), None);
}

fn add(alloc: Global, store: &mut MemStore, path: &str, bytes: &[u8]) -> Option<()> {
    let bytes = bytes.to_vec(alloc).ok()?;
    let path = ObjPath::of(alloc, path).ok()?;
    store.add(alloc, path, bytes, 7).ok()
}

fn is_object(object: &MemObject, path: &str, bytes: &[u8]) -> bool {
    object.path.as_str() == path && object.bytes.as_slice() == bytes && object.second == 7
}

// Whether the store holds `a` and `b`, each with these bytes.
fn holds(alloc: Global, store: &MemStore, a: &[u8], b: &[u8]) -> Option<bool> {
    match store.content(alloc).ok()?.as_slice() {
        [first, second] => Some(is_object(first, "a", a) && is_object(second, "b", b)),
        _ => Some(false),
    }
}

fn is_replaced(alloc: Global, store: &mut MemStore) -> Option<bool> {
    add(alloc, store, "b", b"1")?;
    add(alloc, store, "a", b"2")?;
    add(alloc, store, "b", b"3")?;
    holds(alloc, store, b"2", b"3")
}

#[test]
fn an_object_that_is_added_replaces_one(rt: HostRuntime) {
    let mut store = MemStore::new(rt.alloc(), 100, 5);
    assert_eq!(rt; is_replaced(rt.alloc(), &mut store), Some(true));
    assert_eq!(rt; store.now(), 100);
    store.set_now(40);
    assert_eq!(rt; store.now(), 40);
}
