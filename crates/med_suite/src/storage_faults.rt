// Backups whose storage fails at one call.
use crate::said::{ALL, BACKUP, INI, PUTS, append_run, nodes, under, wanted, with_ini, words};
use med_base::{NoMemory, ObjPath};
use med_mem::{MemStore, MemWhen};
use std::alloc::Global;

fn append_backup(alloc: Global, text: &mut String, store: &mut MemStore) -> Result<(), NoMemory> {
    let words = words(alloc, BACKUP)?;
    let scene = with_ini(INI);
    let mut nodes = nodes(alloc, &scene)?;
    append_run(alloc, text, words.as_slice(), &scene, store, &mut nodes)
}

// What is seen of the first backup where a call of the storage fails.
fn seen(alloc: Global, when: MemWhen, lands: bool) -> Result<String, NoMemory> {
    let mut text = String::new(alloc);
    let mut store = MemStore::new(alloc, 1000, 0);
    store.fail(when, lands)?;
    append_backup(alloc, &mut text, &mut store)?;
    Ok(text)
}

// Whether the first so many puts stand, and the fault is told.
fn is_left(alloc: Global, when: MemWhen, lands: bool, count: usize) -> Result<bool, NoMemory> {
    let seen = seen(alloc, when, lands)?;
    let wanted = wanted(alloc, "8||medusa: storage fault\u{b6}|", PUTS, count)?;
    Ok(seen.as_str() == wanted.as_str())
}

// The path that is put behind so many others.
fn path_at(alloc: Global, at: usize) -> Option<ObjPath> {
    let lines = under(alloc, PUTS, "").ok()?;
    let line = lines.as_str().split('\n').nth(at)?;
    let (path, _) = line.split_once(' ').unwrap_or((line, ""));
    ObjPath::of(alloc, path).ok()
}

// Whether that put fails so: with it or without it, by whether it takes effect.
fn does_fail(alloc: Global, at: usize, lands: bool) -> Option<bool> {
    let path = path_at(alloc, at)?;
    let count = if lands { at.saturating_add(1) } else { at };
    is_left(alloc, MemWhen::PutOf(path), lands, count).ok()
}

// The first put that doesn't fail so.
fn first_wrong(alloc: Global, lands: bool) -> Option<usize> {
    for at in 0..ALL {
        if does_fail(alloc, at, lands) != Some(true) {
            return Some(at);
        }
    }
    None
}

#[test]
fn a_failing_put_ends_the_backup_with_what_was_put(rt: HostRuntime) {
    let alloc = rt.alloc();
    assert_eq!(rt; first_wrong(alloc, false), None);
    assert_eq!(rt; first_wrong(alloc, true), None);
}

// The first call opens the bucket, and the second one looks at the folder of the name.
#[test]
fn a_failing_call_before_the_first_put_leaves_nothing(rt: HostRuntime) {
    let alloc = rt.alloc();
    assert_eq!(rt; is_left(alloc, MemWhen::Step(1), false, 0), Ok(true));
    assert_eq!(rt; is_left(alloc, MemWhen::Step(2), false, 0), Ok(true));
}

// Behind the four puts of the claim the upload begins, its one piece is appended, and it is committed.
#[test]
fn a_failing_append_leaves_no_object_of_the_file(rt: HostRuntime) {
    let alloc = rt.alloc();
    assert_eq!(rt; is_left(alloc, MemWhen::Step(7), false, 4), Ok(true));
    assert_eq!(rt; is_left(alloc, MemWhen::Step(8), false, 4), Ok(true));
    assert_eq!(rt; is_left(alloc, MemWhen::Step(9), true, 5), Ok(true));
}
