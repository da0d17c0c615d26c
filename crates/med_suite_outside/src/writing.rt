// Two storages over one folder, and what they leave there.
ghost use Rattle.std.specs.Prelude.{[]};
ghost use Rattle.med_outside.specs.State.{IsReady};

use crate::calls::{is_answered, refusal};
use crate::clocks::Failing;
use crate::places::is_done;
use med_base::ObjPath;
use med_folder::FolderStore;
use med_outside::{Denied, Piece, Storage};
use std::alloc::Global;
use std::cell::Cell;
use std::fs::Files;

// Stores an object in two pieces.
fn upload<S: Storage>(alloc: Global, store: &mut S, path: &str, text: &str) -> Result<u64, Denied>
    requires { IsReady [] (S.state store.old) }
    ensures { IsReady [] (S.state store.new) }
{
    let path = ObjPath::of(alloc, path)?;
    let (head, tail) = text.as_bytes().split_at(text.len() / 2);
    let (Some(head), Some(tail)) = (piece_of(alloc, head), piece_of(alloc, tail)) else {
        return Err(Denied::Memory);
    };
    store.begin(alloc, &path)?;
    store.append(alloc, &head)?;
    store.append(alloc, &tail)?;
    store.commit(alloc)
}

// A piece of some bytes, of which there are few.
fn piece_of(alloc: Global, bytes: &[u8]) -> Option<Piece> {
    if bytes.len() > 1000 {
        return None;
    }
    Piece::of(alloc, bytes).ok()
}

// An upload answers `done`, or a refusal.
fn is_uploaded<S: Storage>(alloc: Global, store: &mut S, object: &str, wanted: &str) -> Option<bool>
    requires { IsReady [] (S.state store.old) }
    ensures { IsReady [] (S.state store.new) }
{
    let (path, text) = object.split_once('=')?;
    match upload(alloc, store, path, text) {
        Ok(_) => Some(wanted == "done"),
        Err(denied) => Some(refusal(denied) == wanted),
    }
}

// Whether a storage answers a call as wanted: one of `is_answered`, or `upload PATH=TEXT`.
fn is_called<S: Storage>(alloc: Global, store: &mut S, call: &str, wanted: &str) -> Option<bool>
    requires { IsReady [] (S.state store.old) }
    ensures { IsReady [] (S.state store.new) }
{
    match call.split_once(' ') {
        Some(("upload", object)) => is_uploaded(alloc, store, object, wanted),
        _ => is_answered(alloc, store, call, wanted),
    }
}

// A row without an answer makes or looks for a file, or is `letter LETTER`: what ends in the letter
// isn't opened by the first storage.
fn is_made<R: Files>(rt: &R, letter: &Cell<char>, row: &str) -> Option<bool> {
    match row.split_once(' ')? {
        ("letter", unopened) => letter.set(unopened.chars().next()?),
        _ => return Some(is_done(rt, row)),
    }
    Some(true)
}

// Whether a row is right. A call is of the storage `one` or `two`.
fn is_right<R: Files, S: Storage, T: Storage>(
    rt: &R,
    alloc: Global,
    letter: &Cell<char>,
    one: &mut S,
    two: &mut T,
    row: &str,
) -> Option<bool>
    requires one { IsReady [] (S.state one.old) }
    requires two { IsReady [] (T.state two.old) }
    ensures one { IsReady [] (S.state one.new) }
    ensures two { IsReady [] (T.state two.new) }
{
    let Some((call, wanted)) = row.split_once(" => ") else {
        return is_made(rt, letter, row);
    };
    match call.split_once(' ') {
        Some(("one", call)) => is_called(alloc, one, call, wanted),
        Some(("two", call)) => is_called(alloc, two, call, wanted),
        _ => None,
    }
}

// The first row that is answered otherwise, or can't be done.
pub(crate) fn first_wrong<'a, R: Files, S: Storage, T: Storage>(
    rt: &R,
    alloc: Global,
    letter: &Cell<char>,
    one: &mut S,
    two: &mut T,
    table: &'a str,
) -> Option<&'a str>
    requires one { IsReady [] (S.state one.old) }
    requires two { IsReady [] (T.state two.old) }
    ensures one { IsReady [] (S.state one.new) }
    ensures two { IsReady [] (T.state two.new) }
{
    for row in table.split('\n') {
        if is_right(rt, alloc, letter, one, two, row) != Some(true) {
            return Some(row);
        }
    }
    None
}

// The first wrong row of a table, of a storage whose files fail where told and another one.
pub(crate) fn first_wrong_of<'a>(rt: HostRuntime, table: &'a str) -> Option<&'a str> {
    let (readings, letter) = (Cell::new(0), Cell::new('-'));
    let failing = Failing {
        rt,
        readings: Some(&readings),
        letter: &letter,
    };
    let mut one = FolderStore::new(rt.alloc(), failing);
    let mut two = FolderStore::new(rt.alloc(), rt);
    first_wrong(&rt, rt.alloc(), &letter, &mut one, &mut two, table)
}

// A node's paths are changed by the storage that changed one first, and those of nobody by both.
const BESIDE: &str = "\
one open writing/k => done
two open writing/k => done
one upload n1/files/ks/t/a=1 => done
two upload n1/files/ks/t/b=2 => failed
two put n1/b/meta/schema.cql=2 => failed
two put index/latest_backup/n1/backup_name.txt=2 => failed
two delete n1/files/ks/t/a => failed
absent writing/k/n1/b
absent writing/k/index
two sizes => n1/files/ks/t/a 1;
two get n1/files/ks/t/a => 1
two stat n1/files/ks/t/a => 1
two upload n2/files/ks/t/b=22 => done
two put other=2 => listed
one put n2/b/meta/schema.cql=1 => failed
one put other=12 => listed
one delete n1/files/ks/t/a => done
one sizes => n2/files/ks/t/b 2;other 2;";

// When both are gone, so are their locks.
const AFTERWARDS: &str = "\
one open writing/k => done
one upload n2/files/ks/t/c=1 => done
one upload n1/files/ks/t/c=1 => done
one sizes => n1/files/ks/t/c 1;n2/files/ks/t/b 2;n2/files/ks/t/c 1;other 2;";

#[test]
fn two_storages_change_two_nodes_of_one_bucket(rt: HostRuntime) {
    assert_eq!(rt; first_wrong_of(rt, BESIDE), None);
    assert_eq!(rt; first_wrong_of(rt, AFTERWARDS), None);
}

// What runs that were killed left.
const LEFT: &str = "\
file writing/l/.medusa-tmp/part-n1=left by an upload
file writing/l/.medusa-tmp/rest=left by a put
file writing/l/.medusa-tmp/lock-n1=
file writing/l/.medusa-tmp/part-n2=kept
one open writing/l => done
one upload n1/files/ks/t/a=new => done
one put other=12 => listed
absent writing/l/.medusa-tmp/part-n1
absent writing/l/.medusa-tmp/rest
one get n1/files/ks/t/a => new
one get other => 12
two open writing/l => done
two sizes => n1/files/ks/t/a 3;other 2;
remove writing/l/.medusa-tmp/lock-n1
remove writing/l/.medusa-tmp/part-n2
rmdir writing/l/.medusa-tmp";

#[test]
fn an_opening_removes_nothing_and_a_change_what_is_in_its_way(rt: HostRuntime) {
    assert_eq!(rt; first_wrong_of(rt, LEFT), None);
}

// What was uploaded is kept by the system before a put or a delete is made. Where it can't be, no
// later one is made either.
const KEPT: &str = "\
one open writing/w => done
two open writing/w => done
two put other=2 => listed
one upload n1/files/ks/t/a=abc => done
one put n1/b/meta/schema.cql=1 => listed
letter t
one put n1/b/meta/schema.cql=12 => listed
one upload n1/files/ks/t/b=abc => done
one delete other => failed
letter -
one put n1/b/meta/manifest.json=1 => failed
one delete other => failed
one sizes => n1/b/meta/schema.cql 2;n1/files/ks/t/a 3;n1/files/ks/t/b 3;other 1;";

#[test]
fn a_put_waits_until_what_was_uploaded_is_kept(rt: HostRuntime) {
    assert_eq!(rt; first_wrong_of(rt, KEPT), None);
}

// A link that is planted between two uploads isn't followed, and a folder that is gone is made.
const PLANTED: &str = "\
one open writing/p => done
one upload n1/files/ks/t/a=1 => done
remove writing/p/n1/files/ks/t/a
rmdir writing/p/n1/files/ks/t
folder writing/away
link writing/p/n1/files/ks/t=../../../../away
one upload n1/files/ks/t/b=2 => failed
one upload n1/files/ks/t/u/b=2 => failed
absent writing/away/b
absent writing/away/u
absent writing/p/.medusa-tmp/part-n1
remove writing/p/n1/files/ks/t
one upload n1/files/ks/t/b=2 => done
remove writing/p/.medusa-tmp/lock-n1
rmdir writing/p/.medusa-tmp
link writing/p/.medusa-tmp=../away
one upload n1/files/ks/t/c=3 => failed
one upload n2/files/ks/t/c=3 => failed
absent writing/away/part-n1
absent writing/away/lock-n2
one sizes => n1/files/ks/t/b 1;";

#[test]
fn a_link_that_is_planted_between_two_uploads_isnt_followed(rt: HostRuntime) {
    assert_eq!(rt; first_wrong_of(rt, PLANTED), None);
}

// Uploads the objects of a text up to the first that is refused, and answers how many could be.
fn count_uploads<S: Storage>(alloc: Global, store: &mut S, text: &str) -> u32
    requires { IsReady [] (S.state store.old) }
    ensures { IsReady [] (S.state store.new) }
{
    let mut count = 0u32;
    for path in text.split(' ') {
        if is_uploaded(alloc, store, path, "done") != Some(true) {
            return count;
        }
        count = count.saturating_add(1);
    }
    count
}

// A row of a thousand objects.
fn thousand(alloc: Global) -> Option<String> {
    let mut text = String::from_str(alloc, "n1/files/ks/t/a=abc").ok()?;
    for _ in 1..1000u32 {
        text.push_str(" n1/files/ks/t/a=abc").ok()?;
    }
    Some(text)
}

// The folder `t` can't be kept, which is found when five hundred files wait.
#[test]
fn no_more_than_five_hundred_files_wait(rt: HostRuntime) {
    let (readings, letter) = (Cell::new(0), Cell::new('t'));
    let failing = Failing {
        rt,
        readings: Some(&readings),
        letter: &letter,
    };
    let mut store = FolderStore::new(rt.alloc(), failing);
    let is_open = is_answered(rt.alloc(), &mut store, "open writing/m", "done");
    assert_eq!(rt; is_open, Some(true));
    match thousand(rt.alloc()) {
        Some(text) => {
            let count = count_uploads(rt.alloc(), &mut store, text.as_str());
            assert_eq!(rt; count, 499);
        }
        None => assert_eq!(rt; true, false),
    }
}
