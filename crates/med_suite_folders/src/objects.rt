// The objects of a storage of folders, byte for byte.
ghost use Rattle.std.specs.Prelude.{[]};
ghost use Rattle.med_outside.specs.State.{IsReady};

use med_base::{Fingerprint, Layout, ObjPath};
use med_folder::FolderStore;
use med_outside::Storage;
use med_suite_rows::calls::is_listed;
use med_suite_rows::places::many_bytes;
use med_suite_rows::rows::first_wrong;
use std::alloc::Global;

// Whether bytes are stored, and looked at and read as what they are.
fn is_kept<S: Storage>(alloc: Global, store: &mut S, path: &ObjPath, bytes: &[u8]) -> Option<bool>
    requires { IsReady [] (S.state store.old) }
    ensures { IsReady [] (S.state store.new) }
{
    if Layout::plain(alloc).is_data(path) {
        return None;
    }
    store.put(alloc, path, bytes).ok()?;
    let stat = store.stat(alloc, path).ok()??;
    let is_measured = stat.fingerprint == Fingerprint::of(bytes);
    let read = store.get(alloc, path).ok()??;
    let is_read = read.as_slice() == bytes;
    Some(is_measured && is_read && is_listed(alloc, store, path.as_str(), &stat)?)
}

fn is_size_kept<S: Storage>(alloc: Global, store: &mut S, size: &str) -> Option<bool>
    requires { IsReady [] (S.state store.old) }
    ensures { IsReady [] (S.state store.new) }
{
    let path = ObjPath::of(alloc, "sized").ok()?;
    let bytes = many_bytes(alloc, size.parse::<u32>().ok()? as usize)?;
    is_kept(alloc, store, &path, bytes.as_slice())
}

// The first size of which an object isn't kept.
fn first_lost<'a, S: Storage>(alloc: Global, store: &mut S, sizes: &'a str) -> Option<&'a str>
    requires { IsReady [] (S.state store.old) }
    ensures { IsReady [] (S.state store.new) }
{
    for size in sizes.split(' ') {
        if is_size_kept(alloc, store, size) != Some(true) {
            return Some(size);
        }
    }
    None
}

// The digests are those of RFC 1321, A.5.
const READ: &str = "\
open objects/read => done
object a => absent
put a= => done
digest a => d41d8cd98f00b204e9800998ecf8427e
put a=abc => done
object a => abc
digest a => 900150983cd24fb0d6963f7d28e17f72
file objects/read/by/hand=abc
object by/hand => abc";

#[test]
fn an_object_is_read_and_measured_byte_for_byte(rt: HostRuntime) {
    let mut store = FolderStore::new(rt.alloc(), rt);
    assert_eq!(rt; first_wrong(&rt, rt.alloc(), &mut store, READ), None);
    let sizes = "0 1 1048575 1048576 1048577";
    assert_eq!(rt; first_lost(rt.alloc(), &mut store, sizes), None);
}

#[test]
fn an_object_of_some_mebibytes_is_read_and_measured(rt: HostRuntime) {
    let mut store = FolderStore::new(rt.alloc(), rt);
    assert_eq!(rt;
        first_wrong(&rt, rt.alloc(), &mut store, "open objects/large => done"),
        None
    );
    assert_eq!(rt; first_lost(rt.alloc(), &mut store, "3145745"), None);
}

// What a put left in the folder of unfinished files is no object.
const DELETED: &str = "\
open objects/deleted => done
delete a/x => done
put a/x=first => done
put a/y=other => done
delete a/x => done
absent objects/deleted/a/x
object a/x => absent
sizes  => a/y 5;
delete a/x => done
put a/x=second => done
object a/x => second
sizes  => a/x 6;a/y 5;
delete a/y => done
delete a/x => done
sizes  => nothing
rmdir objects/deleted/a
delete a/x => done
file objects/deleted/.medusa-tmp/rest=left
object .medusa-tmp/rest => failed
delete .medusa-tmp/rest => failed
remove objects/deleted/.medusa-tmp/rest";

#[test]
fn a_deleted_object_is_gone_and_its_folder_stays(rt: HostRuntime) {
    let mut store = FolderStore::new(rt.alloc(), rt);
    assert_eq!(rt; first_wrong(&rt, rt.alloc(), &mut store, DELETED), None);
}

// A name of 255 bytes is that of an object, and one of 256 bytes is a fault. Ten folders deep.
const LONG: &str = "\
open objects/long => done
put %=long => done
object % => long
sizes  => % 4;
delete % => done
object % => absent
put n%=long => failed
object n% => failed
delete n% => failed
put %/%/%/%/%/%/%/%/%/%/%=deep => done
object %/%/%/%/%/%/%/%/%/%/% => deep
object %/%/%/%/%/%/%/%/%/% => absent
object %/%/%/%/%/%/%/%/%/%/a => absent
delete %/%/%/%/%/%/%/%/%/%/% => done
object %/%/%/%/%/%/%/%/%/%/% => absent";

#[test]
fn a_long_name_is_one_and_a_longer_one_a_fault(rt: HostRuntime) {
    let mut store = FolderStore::new(rt.alloc(), rt);
    assert_eq!(rt; first_wrong(&rt, rt.alloc(), &mut store, LONG), None);
}

// A folder in place of the file, and a file in place of a folder, mean that there is no object. A
// link in place of either is a fault, and leads nowhere; so is a path that no object has.
const BESIDE: &str = "\
open objects/beside => done
put a/x=abc => done
object a => absent
delete a => done
object a/x/y => absent
delete a/x/y => done
object a/x/y/z => absent
folder objects/away
file objects/away/y=away
link objects/beside/a/link=x
link objects/beside/a/far=../../away
link objects/beside/a/dangling=nowhere
object a/link => failed
delete a/link => failed
object a/far => failed
delete a/far => failed
object a/far/y => failed
delete a/far/y => failed
object a/far/no => failed
object a/dangling => failed
delete a/dangling => failed
object a/dangling/no => failed
remove objects/beside/a/link
remove objects/beside/a/far
remove objects/beside/a/dangling
remove objects/away/y
object a/x => abc
object  => failed
delete  => failed
object a/ => failed
object a//x => failed
object a/../a/x => failed
delete a/../a/x => failed
object ../beside/a/x => failed
delete ../beside/a/x => failed
object /a/x => failed
object a/x\0 => failed
delete a/x\0 => failed
object a/x => abc";

#[test]
fn what_is_no_object_is_absent_or_a_fault(rt: HostRuntime) {
    let mut store = FolderStore::new(rt.alloc(), rt);
    assert_eq!(rt; first_wrong(&rt, rt.alloc(), &mut store, BESIDE), None);
}

const CLOSED: &str = "\
object a/x => failed
delete a/x => failed";

#[test]
fn a_store_that_isnt_open_looks_at_nothing(rt: HostRuntime) {
    let mut store = FolderStore::new(rt.alloc(), rt);
    assert_eq!(rt; first_wrong(&rt, rt.alloc(), &mut store, CLOSED), None);
}

#[test]
fn a_storage_of_folders_has_room_for_all_changes(rt: HostRuntime) {
    let mut store = FolderStore::new(rt.alloc(), rt);
    assert_eq!(rt; store.make_room(rt.alloc(), u64::MAX), Ok(()));
}
