// The worked rows of a rebuild of the index. Each object is laid by hand, of second 1000.
use crate::said::{
    INI, PUTS, Scene, append_objects, append_run, is_seen, lay, nodes, nothing, under, words,
};
use med_base::NoMemory;
use med_mem::{MemStore, MemWhen};
use std::alloc::Global;

// The words of a rebuild, with a bar between two.
const INDEX: &str = "--config-file|m.ini|build-index";

// The config file of the example, and no snapshot.
fn scene<'a>() -> Scene<'a> {
    let mut scene = nothing();
    scene.ini = Some(INI);
    scene
}

// Lays the objects of lines, with such a mark between two, but for the one under a path.
fn lay_all(
    alloc: Global,
    store: &mut MemStore,
    lines: &str,
    mark: char,
    without: &str,
) -> Result<(), NoMemory> {
    for line in lines.split(mark) {
        lay(alloc, store, line, without)?;
    }
    Ok(())
}

// A store of a full backup and these objects more, but for the one under a path.
fn store_of(alloc: Global, more: &str, without: &str) -> Result<MemStore, NoMemory> {
    let mut store = MemStore::new(alloc, 1000, 0);
    let full = under(alloc, PUTS, "")?;
    lay_all(alloc, &mut store, full.as_str(), '\n', without)?;
    lay_all(alloc, &mut store, more, ',', without)?;
    Ok(store)
}

// What is to be seen: status, standard output, standard error, and a full backup with these objects
// more. What is written has a line feed in place of `¶`.
fn wanted(alloc: Global, said: &str, more: &str) -> Result<String, NoMemory> {
    let mut text = said.replace(alloc, '\u{b6}', "\n")?;
    let store = store_of(alloc, more, "")?;
    append_objects(alloc, &mut text, &store)?;
    Ok(text)
}

// What is seen of a rebuild over a store.
fn seen(alloc: Global, store: &mut MemStore, scene: &Scene) -> Result<String, NoMemory> {
    let mut text = String::new(alloc);
    let words = words(alloc, INDEX)?;
    let mut nodes = nodes(alloc, scene)?;
    append_run(alloc, &mut text, words.as_slice(), scene, store, &mut nodes)?;
    Ok(text)
}

// Whether a rebuild over a full backup without an object, with strays and with others ends so, and
// leaves the full backup and the others.
fn is_right(
    alloc: Global,
    without: &str,
    strays: &str,
    others: &str,
    said: &str,
) -> Result<bool, NoMemory> {
    let mut store = store_of(alloc, others, without)?;
    lay_all(alloc, &mut store, strays, ',', without)?;
    let seen = seen(alloc, &mut store, &scene())?;
    let wanted = wanted(alloc, said, others)?;
    Ok(seen.as_str() == wanted.as_str())
}

// The same of a row `WITHOUT;STRAYS;OTHERS => STATUS|OUTPUT|ERROR|`.
fn is_row_right(alloc: Global, row: &str) -> Option<bool> {
    let (laid, said) = row.split_once(" => ")?;
    let (without, rest) = laid.split_once(';')?;
    let (strays, others) = rest.split_once(';')?;
    is_right(alloc, without, strays, others, said).ok()
}

// The first row that doesn't end so.
fn first_wrong<'a>(alloc: Global, table: &'a str) -> Option<&'a str> {
    for row in table.split('\n') {
        if is_row_right(alloc, row) != Some(true) {
            return Some(row);
        }
    }
    None
}

// An entry that is missing is put; one that no backup gives is deleted; an exact index stays; the
// latest name is mended; and the nodes come in byte order, whatever their backups are.
const REBUILT: &str = "\
index/backup_index/b1/manifest_n1.json;; => 0|index of n1: 1 put, 0 deleted¶||
;; => 0|index of n1: 0 put, 0 deleted¶||
;index/backup_index/zz/manifest_n1.json x; => 0|index of n1: 0 put, 1 deleted¶||
index/latest_backup/n1/backup_name.txt;; => 0|index of n1: 1 put, 0 deleted¶||
index/backup_index/b0/started_n2_1000.timestamp;;n2/b0/meta/schema.cql s,\
index/backup_index/b0/started_n2_1000.timestamp => \
0|index of n1: 0 put, 0 deleted¶index of n2: 1 put, 0 deleted¶||";

#[test]
fn an_index_is_made_anew(rt: HostRuntime) {
    assert_eq!(rt; first_wrong(rt.alloc(), REBUILT), None);
}

// The manifest that is told is the first in byte order of the paths, and nothing of its node
// changes. What the nodes before it gained stays, and no line is printed.
const BAD: &str = "\
;;n1/d2/meta/manifest.json {} => 13||medusa: bad manifest n1/d2/meta/manifest.json¶|
;;n1/b/meta/manifest.json {},n1/b-1/meta/manifest.json {} => \
13||medusa: bad manifest n1/b-1/meta/manifest.json¶|
index/backup_index/b1/manifest_n1.json;;n2/b1/meta/manifest.json {} => \
13||medusa: bad manifest n2/b1/meta/manifest.json¶|";

#[test]
fn a_manifest_that_does_not_read_is_told(rt: HostRuntime) {
    assert_eq!(rt; first_wrong(rt.alloc(), BAD), None);
}

#[test]
fn an_empty_bucket_has_no_line(rt: HostRuntime) {
    assert_eq!(rt; is_seen(rt.alloc(), INDEX, &scene(), "0|||", ""), Ok(true));
}

// Whether a rebuild over a standard output of five bytes leaves the index whole.
fn does_break_off(alloc: Global) -> Result<bool, NoMemory> {
    let mut scene = scene();
    scene.limit = 5;
    let mut store = store_of(alloc, "", "index/backup_index/b1/manifest_n1.json")?;
    let seen = seen(alloc, &mut store, &scene)?;
    let wanted = wanted(alloc, "10|index|medusa: write fault¶|", "")?;
    Ok(seen.as_str() == wanted.as_str())
}

#[test]
fn a_line_that_breaks_off_leaves_the_index(rt: HostRuntime) {
    assert_eq!(rt; does_break_off(rt.alloc()), Ok(true));
}

// Whether a rebuild is refused where the call of this number fails, and nothing changes.
fn does_fail(alloc: Global, step: u64) -> Result<bool, NoMemory> {
    let mut store = store_of(alloc, "", "")?;
    store.fail(MemWhen::Step(step), false)?;
    let seen = seen(alloc, &mut store, &scene())?;
    let wanted = wanted(alloc, "8||medusa: storage fault¶|", "")?;
    Ok(seen.as_str() == wanted.as_str())
}

// The first call opens the bucket, and the second one lists it.
#[test]
fn a_storage_that_fails_is_told(rt: HostRuntime) {
    assert_eq!(rt; does_fail(rt.alloc(), 1), Ok(true));
    assert_eq!(rt; does_fail(rt.alloc(), 2), Ok(true));
}
