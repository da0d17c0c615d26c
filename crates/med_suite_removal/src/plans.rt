// What goes with a removal of backups.
ghost use Rattle.std.specs.Prelude.{[]};
ghost use Rattle.med_outside.specs.State.{IsReady};

use med_base::{BackupName, Fqdn, Layout, NoMemory, ObjPath};
use med_index::{IndexError, Planned};
use med_mem::MemStore;
use med_outside::{Storage, Trace};
use med_removal::{RemovalPlan, plan_removal, remove_paths};
use med_suite_rows::calls::first_wrong;
use std::alloc::Global;

// Two backups whose names are in another order than their paths. The shared file s is named by b-1
// alone, and t by none; u is another node's.
const BUCKET: &str = "\
open b/k => done
put n1/b/meta/schema.cql=s => 1000
put n1/b/meta/differential= => 1001
put n1/b/meta/tokenmap.json={} => 1002
upload n1/b/data/ks/t/own=abc => 1003
put n1/b/meta/manifest.json=[] => 1004
put n1/b/stray=x => 1005
put n1/b-1/meta/tokenmap.json={1} => 1006
put n1/b-1/meta/manifest.json=[{\"columnfamily\":\"t\",\"keyspace\":\"ks\",\"objects\":[\
{\"MD5\":\"900150983cd24fb0d6963f7d28e17f72\",\"path\":\"n1/data/ks/t/s\",\"size\":3}]}] => 1007
put index/backup_index/b/tokenmap_n1.json={} => 1008
put index/backup_index/b/started_n1_1000.timestamp= => 1009
put index/backup_index/b/tokenmap_n2.json={} => 1010
put index/latest_backup/n1/backup_name.txt=b => 1011
upload n1/data/ks/t/s=abc => 1012
upload n1/data/ks/t/t=abcd => 1013
upload n2/data/ks/t/u=abc => 1014";

// The names, or a dash, the days of grace and the second; the changes of the mend, the paths that go, and how many
// files with how many bytes.
const PLANS: &str = "\
b 0 2000 => put index/latest_backup/n1/backup_name.txt=b-1,put index/latest_backup/n1/tokenmap.json={1},\
index/backup_index/b/started_n1_1000.timestamp,index/backup_index/b/tokenmap_n1.json,\
n1/b/meta/manifest.json,n1/b/data/ks/t/own,n1/b/stray,n1/b/meta/differential,\
n1/b/meta/tokenmap.json,n1/b/meta/schema.cql,n1/data/ks/t/t,2 files 7 bytes
b-1 0 2000 => put index/latest_backup/n1/tokenmap.json={},n1/b-1/meta/manifest.json,n1/b-1/meta/tokenmap.json,n1/data/ks/t/s,n1/data/ks/t/t,\
2 files 7 bytes
b b-1 1 87413 => delete index/latest_backup/n1/backup_name.txt,\
index/backup_index/b/started_n1_1000.timestamp,index/backup_index/b/tokenmap_n1.json,\
n1/b/meta/manifest.json,n1/b/data/ks/t/own,n1/b/stray,n1/b/meta/differential,\
n1/b/meta/tokenmap.json,n1/b/meta/schema.cql,n1/b-1/meta/manifest.json,\
n1/b-1/meta/tokenmap.json,n1/data/ks/t/s,2 files 6 bytes
- 1 87413 => put index/latest_backup/n1/backup_name.txt=b-1,put index/latest_backup/n1/tokenmap.json={1},\
0 files 0 bytes
- 1 87414 => put index/latest_backup/n1/backup_name.txt=b-1,put index/latest_backup/n1/tokenmap.json={1},\
n1/data/ks/t/t,1 files 4 bytes
zz 0 1013 => put index/latest_backup/n1/backup_name.txt=b-1,put index/latest_backup/n1/tokenmap.json={1},\
0 files 0 bytes";

// Adds a path, behind a word, and a comma.
fn add(text: &mut String, word: &str, path: &ObjPath) -> Result<(), NoMemory> {
    text.push_str(word)?;
    text.push_str(path.as_str())?;
    Ok(())
}

fn add_planned(text: &mut String, planned: &Planned) -> Option<()> {
    match planned {
        Planned::Put { path, bytes } => {
            add(text, "put ", path).ok()?;
            text.push_str("=").ok()?;
            text.push_str(std::str::from_utf8(bytes.as_slice()).ok()?)
                .ok()?;
        }
        Planned::Delete { path } => add(text, "delete ", path).ok()?,
    }
    text.push_str(",").ok()
}

fn plan_text(alloc: Global, plan: &RemovalPlan) -> Option<String> {
    let mut text = String::new(alloc);
    for planned in &plan.mend {
        add_planned(&mut text, planned)?;
    }
    for path in &plan.paths {
        add(&mut text, "", path).ok()?;
        text.push_str(",").ok()?;
    }
    let (files, bytes) = (plan.removed.files, plan.removed.bytes);
    let counts = format!(in alloc; "{files} files {bytes} bytes").ok()?;
    text.push_str(counts.as_str()).ok()?;
    Some(text)
}

fn names_of(alloc: Global, words: &str) -> Option<Vec<BackupName>> {
    let mut names = Vec::new(alloc);
    for word in words.split(' ') {
        if word != "-" {
            names.push(BackupName::read(alloc, word).ok()?).ok()?;
        }
    }
    Some(names)
}

// The plan of a removal of backups of n1, or the manifest that doesn't read.
fn planned<S: Storage>(alloc: Global, store: &mut S, line: &str) -> Option<String>
    requires { IsReady [] (S.state store.old) }
    ensures { IsReady [] (S.state store.new) }
{
    let (rest, now) = line.rsplit_once(' ')?;
    let (words, grace) = rest.rsplit_once(' ')?;
    let (now, grace) = (now.parse::<u64>().ok()?, grace.parse::<u32>().ok()?);
    let names = names_of(alloc, words)?;
    let node = Fqdn::read(alloc, "n1").ok()?;
    let layout = Layout::plain(alloc);
    match plan_removal(alloc, store, &layout, &node, names, grace, now) {
        Ok(plan) => plan_text(alloc, &plan),
        Err(IndexError::BadManifest { path, why: _ }) => {
            let path = path.as_str();
            format!(in alloc; "bad {path}").ok()
        }
        Err(IndexError::Store) => String::from_str(alloc, "store").ok(),
        Err(IndexError::Memory) => String::from_str(alloc, "memory").ok(),
    }
}

fn is_right<S: Storage>(alloc: Global, store: &mut S, row: &str) -> Option<bool>
    requires { IsReady [] (S.state store.old) }
    ensures { IsReady [] (S.state store.new) }
{
    let (line, wanted) = row.split_once(" => ")?;
    Some(planned(alloc, store, line)?.as_str() == wanted)
}

// The first row that is planned otherwise.
fn first_unplanned<'a, S: Storage>(alloc: Global, store: &mut S, table: &'a str) -> Option<&'a str>
    requires { IsReady [] (S.state store.old) }
    ensures { IsReady [] (S.state store.new) }
{
    for row in table.split('\n') {
        if is_right(alloc, store, row) != Some(true) {
            return Some(row);
        }
    }
    None
}

#[test]
fn a_plan_has_what_goes_in_order(rt: HostRuntime) {
    let mut store = MemStore::new(rt.alloc(), 1000, 1);
    assert_eq!(rt; first_wrong(rt.alloc(), &mut store, BUCKET), None);
    assert_eq!(rt; first_unplanned(rt.alloc(), &mut store, PLANS), None);
}

const REMOVED: &str = "\
seconds n1/ => n1/b-1/meta/manifest.json 1007;n1/b-1/meta/tokenmap.json 1006;n1/data/ks/t/s 1012;
seconds n2/ => n2/data/ks/t/u 1014;
seconds index/backup_index/ => index/backup_index/b/tokenmap_n2.json 1010;";

// Deletes what goes with the backup b of n1 behind the mend, and answers how many deletes are recorded.
fn removed<S: Storage>(alloc: Global, store: &mut S) -> Option<usize>
    requires { IsReady [] (S.state store.old) }
    ensures { IsReady [] (S.state store.new) }
{
    let node = Fqdn::read(alloc, "n1").ok()?;
    let (layout, names) = (Layout::plain(alloc), names_of(alloc, "b")?);
    let plan = plan_removal(alloc, store, &layout, &node, names, 0, 2000).ok()?;
    let mut trace = Trace::new(alloc);
    trace.reserve(plan.paths.len()).ok()?;
    remove_paths(alloc, store, &layout, plan.paths, &mut trace).ok()?;
    Some(trace.changes.len())
}

#[test]
fn what_goes_is_deleted_and_nothing_else(rt: HostRuntime) {
    let mut store = MemStore::new(rt.alloc(), 1000, 1);
    assert_eq!(rt; first_wrong(rt.alloc(), &mut store, BUCKET), None);
    assert_eq!(rt; removed(rt.alloc(), &mut store), Some(9));
    assert_eq!(rt; first_wrong(rt.alloc(), &mut store, REMOVED), None);
}

// The first manifest in byte order of the paths, which isn't the first by name.
const BAD: &str = "\
open b/k => done
put n1/a/meta/manifest.json=[] => 1000
put n1/b/meta/manifest.json={} => 1001
put n1/b-1/meta/manifest.json={} => 1002";

const REFUSED: &str = "\
- 0 2000 => bad n1/b-1/meta/manifest.json
b-1 0 2000 => bad n1/b/meta/manifest.json
b b-1 0 2000 => put index/latest_backup/n1/backup_name.txt=a,n1/b/meta/manifest.json,\
n1/b-1/meta/manifest.json,0 files 0 bytes";

#[test]
fn a_manifest_that_stays_and_does_not_read_refuses_a_plan(rt: HostRuntime) {
    let mut store = MemStore::new(rt.alloc(), 1000, 1);
    assert_eq!(rt; first_wrong(rt.alloc(), &mut store, BAD), None);
    assert_eq!(rt; first_unplanned(rt.alloc(), &mut store, REFUSED), None);
}

// Shared files of one byte each, that are all of one second.
fn lay_files<S: Storage>(alloc: Global, store: &mut S, count: u64) -> Option<()>
    requires { IsReady [] (S.state store.old) }
    ensures { IsReady [] (S.state store.new) }
{
    for number in 0..count {
        let number = number.saturating_add(1000);
        let row = format!(in alloc; "upload n1/data/ks/t/f{number}=x => 1000").ok()?;
        if first_wrong(alloc, store, row.as_str()).is_some() {
            return None;
        }
    }
    Some(())
}

// How many paths go where no backup does, and how many files with how many bytes.
fn cleaned<S: Storage>(alloc: Global, store: &mut S) -> Option<String>
    requires { IsReady [] (S.state store.old) }
    ensures { IsReady [] (S.state store.new) }
{
    let node = Fqdn::read(alloc, "n1").ok()?;
    let (layout, names) = (Layout::plain(alloc), Vec::new(alloc));
    let plan = plan_removal(alloc, store, &layout, &node, names, 0, 2000).ok()?;
    let (paths, files, bytes) = (plan.paths.len(), plan.removed.files, plan.removed.bytes);
    format!(in alloc; "{paths} {files} {bytes}").ok()
}

fn is_cleaned<S: Storage>(alloc: Global, store: &mut S, wanted: &str) -> Option<bool>
    requires { IsReady [] (S.state store.old) }
    ensures { IsReady [] (S.state store.new) }
{
    Some(cleaned(alloc, store)?.as_str() == wanted)
}

// A manifest names the 1,000th and the 1,001st of the files in byte order: the last one of a page, and
// the first one of the next.
const EDGES: &str = "\
put n1/b/meta/manifest.json=[{\"columnfamily\":\"t\",\"keyspace\":\"ks\",\"objects\":[\
{\"MD5\":\"9dd4e461268c8034f5c8564e155c67a6\",\"path\":\"n1/data/ks/t/f1999\",\"size\":1},\
{\"MD5\":\"9dd4e461268c8034f5c8564e155c67a6\",\"path\":\"n1/data/ks/t/f2000\",\"size\":1}]}] => 1000";

#[test]
fn files_past_a_page_go_but_for_those_at_its_edges_that_are_named(rt: HostRuntime) {
    let mut store = MemStore::new(rt.alloc(), 1000, 0);
    assert_eq!(rt;
        first_wrong(rt.alloc(), &mut store, "open b/k => done"),
        None
    );
    assert_eq!(rt; lay_files(rt.alloc(), &mut store, 2500), Some(()));
    assert_eq!(rt;
        is_cleaned(rt.alloc(), &mut store, "2500 2500 2500"),
        Some(true)
    );
    assert_eq!(rt; first_wrong(rt.alloc(), &mut store, EDGES), None);
    assert_eq!(rt;
        is_cleaned(rt.alloc(), &mut store, "2498 2498 2498"),
        Some(true)
    );
}
