// The worked rows of a backup.
use crate::said::{
    BACKUP, DONE, INI, PUTS, RING, Scene, append_objects, append_run, is_refused, is_seen, nodes,
    nothing, wanted, with_ini, with_names, words,
};
use med_base::NoMemory;
use med_mem::{MemNodes, MemStore};
use std::alloc::Global;

#[test]
fn one_file_is_backed_up(rt: HostRuntime) {
    assert_eq!(rt;
        is_seen(rt.alloc(), BACKUP, &with_ini(INI), DONE, PUTS),
        Ok(true)
    );
}

// What is seen of the first backup, and then of the same words over what it left.
fn append_two(
    alloc: Global,
    text: &mut String,
    store: &mut MemStore,
    nodes: &mut MemNodes,
) -> Result<(), NoMemory> {
    let words = words(alloc, BACKUP)?;
    let scene = with_ini(INI);
    append_run(alloc, text, words.as_slice(), &scene, store, nodes)?;
    append_run(alloc, text, words.as_slice(), &scene, store, nodes)
}

fn seen_twice(alloc: Global) -> Result<String, NoMemory> {
    let mut text = String::new(alloc);
    let mut store = MemStore::new(alloc, 1000, 0);
    let mut nodes = nodes(alloc, &with_ini(INI))?;
    append_two(alloc, &mut text, &mut store, &mut nodes)?;
    Ok(text)
}

fn is_taken(alloc: Global) -> Result<bool, NoMemory> {
    let seen = seen_twice(alloc)?;
    let taken = "5||medusa: name b1 is taken by n1/b1/data/ks/t-1/nb-1-big-Data.db\u{b6}|";
    let first = wanted(alloc, DONE, PUTS, PUTS.len())?;
    let again = wanted(alloc, taken, PUTS, PUTS.len())?;
    Ok(seen.as_str().strip_prefix(first.as_str()) == Some(again.as_str()))
}

#[test]
fn a_name_is_taken(rt: HostRuntime) {
    assert_eq!(rt; is_taken(rt.alloc()), Ok(true));
}

// The line of a backup of two files, of which the second one is empty.
const TWO_DONE: &str = "0|backup b1 of n1: 2 files, 3 bytes, 0 reused, 2 stored, 0 aside\u{b6}||";

// What follows the first file in its manifest, and the second file.
const SECOND: &str = "3},{\"MD5\":\"d41d8cd98f00b204e9800998ecf8427e\",\
    \"path\":\"@n1/b1/data/ks/t-1/nb-1-big-TOC.txt\",\"size\":0}]}]";

const SECOND_FILE: &str = "\n@n1/b1/data/ks/t-1/nb-1-big-TOC.txt";

fn are_two(alloc: Global) -> Result<bool, NoMemory> {
    let mut puts = PUTS.replace(alloc, "3}]}]", SECOND)?;
    puts.push_str(SECOND_FILE)?;
    let names = ["nb-1-big-TOC.txt=", "nb-1-big-Data.db"];
    is_seen(
        alloc,
        BACKUP,
        &with_names(names.as_slice()),
        TWO_DONE,
        puts.as_str(),
    )
}

#[test]
fn two_files_are_backed_up(rt: HostRuntime) {
    assert_eq!(rt; are_two(rt.alloc()), Ok(true));
}

#[test]
fn a_snapshot_without_names_of_files_is_refused(rt: HostRuntime) {
    let alloc = rt.alloc();
    let said = "11||medusa: no snapshot medusa-b1\u{b6}|";
    assert_eq!(rt;
        is_refused(alloc, BACKUP, &with_names([].as_slice()), said),
        Ok(true)
    );
    let names = ["a", "b/c", "d\n"];
    let said = "11||medusa: bad file name at 1\u{b6}|";
    assert_eq!(rt;
        is_refused(alloc, BACKUP, &with_names(names.as_slice()), said),
        Ok(true)
    );
    let said = "11||medusa: bad file name at 0\u{b6}|";
    assert_eq!(rt;
        is_refused(alloc, BACKUP, &with_names(["."].as_slice()), said),
        Ok(true)
    );
}

#[test]
fn a_node_without_a_snapshot_is_refused(rt: HostRuntime) {
    let mut scene = nothing();
    scene.ini = Some(INI);
    let said = "11||medusa: no snapshot medusa-b1\u{b6}|";
    assert_eq!(rt; is_refused(rt.alloc(), BACKUP, &scene, said), Ok(true));
}

// Token maps, and how a backup with each is refused.
const RINGS: &str = "\
{} => ring: no host n1
x => ring: not json
[] => ring: bad host 
{\"n1\":1} => ring: bad host n1
{\"n1\":{\"tokens\":[9223372036854775808],\"is_up\":true}} => ring: token out of range of n1
{\"n1\":{\"tokens\":[-5,-5],\"is_up\":true}} => ring: token -5 twice
{\"n2\":{\"tokens\":[-5],\"is_up\":true}} => ring: no host n1";

fn is_ring_refused(alloc: Global, row: &str) -> Option<bool> {
    let (ring, text) = row.split_once(" => ")?;
    let said = format!(in alloc; "12||medusa: {text}\n|").ok()?;
    let mut scene = with_ini(INI);
    scene.ring = ring;
    is_refused(alloc, BACKUP, &scene, said.as_str()).ok()
}

// The first token map that isn't refused so.
fn first_other_ring<'a>(alloc: Global, table: &'a str) -> Option<&'a str> {
    for row in table.split('\n') {
        if is_ring_refused(alloc, row) != Some(true) {
            return Some(row);
        }
    }
    None
}

#[test]
fn a_token_map_that_does_not_read_or_lacks_the_node_is_refused(rt: HostRuntime) {
    assert_eq!(rt; first_other_ring(rt.alloc(), RINGS), None);
}

// The keys are looked at before the token map.
#[test]
fn a_bad_name_is_told_before_a_bad_token_map(rt: HostRuntime) {
    let mut scene = with_names(["."].as_slice());
    scene.ring = "x";
    let said = "11||medusa: bad file name at 0\u{b6}|";
    assert_eq!(rt; is_refused(rt.alloc(), BACKUP, &scene, said), Ok(true));
}

#[test]
fn a_line_that_breaks_off_leaves_the_backup(rt: HostRuntime) {
    let mut scene = with_ini(INI);
    scene.limit = 5;
    let said = "10|backu|medusa: write fault\u{b6}|";
    assert_eq!(rt; is_seen(rt.alloc(), BACKUP, &scene, said, PUTS), Ok(true));
}

// Three differential backups, and the line of each.
const DIFFERENTIAL: &str = "\
d1 manifest.json=a => 2 files, 4 bytes, 0 reused, 2 stored, 0 aside
d2 manifest.json=a => 2 files, 4 bytes, 2 reused, 0 stored, 0 aside
d3 manifest.json= => 2 files, 3 bytes, 1 reused, 0 stored, 1 aside";

fn append_backup(
    alloc: Global,
    text: &mut String,
    store: &mut MemStore,
    scene: &Scene,
) -> Result<(), NoMemory> {
    let line = format!(in alloc; "--config-file|m.ini|backup|--backup-name|{}", scene.backup)?;
    let words = words(alloc, line.as_str())?;
    let mut nodes = nodes(alloc, scene)?;
    append_run(alloc, text, words.as_slice(), scene, store, &mut nodes)
}

// What is seen of a backup in the mode that words without one ask for.
fn seen_of<'a>(
    alloc: Global,
    store: &mut MemStore,
    backup: &'a str,
    names: &'a [&'a str],
) -> Result<String, NoMemory> {
    let mut text = String::new(alloc);
    let scene = Scene {
        ini: Some(INI),
        failing: None,
        node: "n1",
        backup,
        names: Some(names),
        ring: RING,
        limit: 1000,
    };
    append_backup(alloc, &mut text, store, &scene)?;
    Ok(text)
}

// Whether a row's backup prints its line.
fn is_shared(alloc: Global, store: &mut MemStore, row: &str) -> Option<bool> {
    let (asked, line) = row.split_once(" => ")?;
    let (backup, name) = asked.split_once(' ')?;
    let names = [name, "nb-1-big-Data.db"];
    let seen = seen_of(alloc, store, backup, names.as_slice()).ok()?;
    let said = format!(in alloc; "0|backup {backup} of n1: {line}\n||").ok()?;
    Some(seen.as_str().starts_with(said.as_str()))
}

fn first_unshared<'a>(alloc: Global, store: &mut MemStore, table: &'a str) -> Option<&'a str> {
    for row in table.split('\n') {
        if is_shared(alloc, store, row) != Some(true) {
            return Some(row);
        }
    }
    None
}

// Objects that the three leave.
const SHARED: &str = "\
n1/d3/data/ks/t-1/manifest.json 1000 \n|n1/data/ks/t-1/manifest.json 1000 a\n\
n1/data/ks/t-1/nb-1-big-Data.db 1000 abc\n";

fn are_there(alloc: Global, store: &MemStore, wanted: &str) -> Result<bool, NoMemory> {
    let mut text = String::new(alloc);
    append_objects(alloc, &mut text, store)?;
    for part in wanted.split('|') {
        if !text.as_str().contains(part) {
            return Ok(false);
        }
    }
    Ok(true)
}

#[test]
fn a_differential_backup_reuses_files_and_sets_one_aside(rt: HostRuntime) {
    let alloc = rt.alloc();
    let mut store = MemStore::new(alloc, 1000, 0);
    assert_eq!(rt; first_unshared(alloc, &mut store, DIFFERENTIAL), None);
    assert_eq!(rt; are_there(alloc, &store, SHARED), Ok(true));
}
