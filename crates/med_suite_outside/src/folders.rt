// A storage of folders.
ghost use Rattle.std.specs.Prelude.{[]};
ghost use Rattle.med_outside.specs.State.{IsReady};

use crate::calls::{entries_text, is_answered, list, put};
use med_folder::FolderStore;
use med_outside::Storage;
use med_suite_rows::rows::first_wrong;
use std::alloc::Global;
use std::fs;
use std::fs::Files;
use std::os::unix::fs::MetadataExt;
use std::time::{Clock, SystemTime, UNIX_EPOCH};

fn clock_second<R: Clock>(rt: &R) -> Option<u64> {
    let now = SystemTime::now(rt).ok()?;
    Some(now.duration_since(UNIX_EPOCH).ok()?.as_secs())
}

// Puts three objects, and answers their seconds.
fn put_three<S: Storage>(alloc: Global, store: &mut S) -> Option<[u64; 3]>
    requires { IsReady [] (S.state store.old) }
    ensures { IsReady [] (S.state store.new) }
{
    let schema = put(alloc, store, "n1/b1/meta/schema.cql", "abc").ok()?;
    let empty = put(alloc, store, "a/x", "").ok()?;
    let dashed = put(alloc, store, "a-b/x", "de").ok()?;
    Some([schema, empty, dashed])
}

fn is_seconds<S: Storage>(alloc: Global, store: &mut S, under: &str, wanted: &str) -> Option<bool>
    requires { IsReady [] (S.state store.old) }
    ensures { IsReady [] (S.state store.new) }
{
    let entries = list(alloc, store, under).ok()?;
    Some(entries_text(alloc, entries.as_slice(), false)?.as_str() == wanted)
}

// Whether the listings under nothing and under a text that is no folder have these seconds.
fn are_dated<S: Storage>(alloc: Global, store: &mut S, seconds: [u64; 3]) -> Option<bool>
    requires { IsReady [] (S.state store.old) }
{
    let [schema, empty, dashed] = seconds;
    let under = format!(in alloc; "n1/b1/meta/schema.cql {schema};").ok()?;
    let under = under.as_str();
    let all = format!(in alloc; "a-b/x {dashed};a/x {empty};{under}").ok()?;
    let is_all = is_seconds(alloc, store, "", all.as_str())?;
    Some(is_all && is_seconds(alloc, store, "n1/b", under)?)
}

const PLANTED: &str = "\
file b/k/.medusa-tmp/left=left
link b/k/a/link=x
link b/k/linked=a
put linked/y= => failed
sizes => a-b/x 2;a/x 0;n1/b1/meta/schema.cql 3;
sizes n1/b => n1/b1/meta/schema.cql 3;
sizes linked/ => nothing";

// Whether a store that is open lists three objects with the seconds that their puts answered, the
// first not before the clock's, and nothing of what is planted beside them.
fn is_listed<R: Files + Clock, S: Storage>(rt: &R, alloc: Global, store: &mut S) -> Option<bool>
    requires { IsReady [] (S.state store.old) }
{
    let start = clock_second(rt)?;
    let seconds = put_three(alloc, store)?;
    let is_shown = first_wrong(rt, alloc, store, PLANTED).is_none();
    Some(is_shown && start <= seconds[0] && are_dated(alloc, store, seconds)?)
}

#[test]
fn a_store_lists_its_plain_files_in_byte_order(rt: HostRuntime) {
    let mut store = FolderStore::new(rt.alloc(), rt);
    assert_eq!(rt;
        first_wrong(&rt, rt.alloc(), &mut store, "open b/k => done"),
        None
    );
    assert_eq!(rt; is_listed(&rt, rt.alloc(), &mut store), Some(true));
}

const CLOSED: &str = "\
put a/x=no => failed
sizes => failed";

#[test]
fn a_store_that_isnt_open_refuses_each_call(rt: HostRuntime) {
    let mut store = FolderStore::new(rt.alloc(), rt);
    assert_eq!(rt; first_wrong(&rt, rt.alloc(), &mut store, CLOSED), None);
}

const LEFT: &str = "\
file c/k/.medusa-tmp/left=left
open c/k => done
remove c/k/.medusa-tmp/left
file c/k/.medusa-tmp/part-a=a longer rest
put a/x=longer => listed
put a/x=new => listed
absent c/k/.medusa-tmp/part-a
file c/k/far=1
date c/k/far=4000000000
sizes => a/x 3;far 1;
seconds far => far 4000000000;";

// The rights that a file or a folder gives.
fn rights_of<R: Files>(rt: &R, path: &str) -> Option<u32> {
    Some(fs::symlink_metadata(rt, path).ok()?.mode() & 0o777)
}

#[test]
fn what_was_left_isnt_in_the_way_and_an_object_is_replaced(rt: HostRuntime) {
    let mut store = FolderStore::new(rt.alloc(), rt);
    assert_eq!(rt; first_wrong(&rt, rt.alloc(), &mut store, LEFT), None);
    let is_far = is_answered(rt.alloc(), &mut store, "seconds a/", "a/x 4000000000;");
    assert_eq!(rt; is_far, Some(false));
    assert_eq!(rt; rights_of(&rt, "c/k/a/x"), Some(0o600));
    assert_eq!(rt; rights_of(&rt, "c/k/a"), Some(0o700));
}

const LINKED: &str = "\
open d/k => done
folder away/below
folder d/k/a
link d/k/a/deep=../../../away
rmdir d/k/.medusa-tmp
link d/k/.medusa-tmp=../../away
put c/x=no => failed
put x=no => failed
remove d/k/.medusa-tmp
folder d/k/.medusa-tmp
put a/deep/x=no => failed
put a/deep/below/x=no => failed
absent away/part-a
absent away/lock-c
absent away/rest
absent away/x
absent away/below/x";

#[test]
fn a_put_through_a_link_is_refused(rt: HostRuntime) {
    let mut store = FolderStore::new(rt.alloc(), rt);
    assert_eq!(rt; first_wrong(&rt, rt.alloc(), &mut store, LINKED), None);
}
