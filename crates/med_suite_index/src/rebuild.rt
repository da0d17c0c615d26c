// The index of a node, made anew.
ghost use Rattle.std.specs.Prelude.{[]};
ghost use Rattle.med_outside.specs.State.{IsReady};

use med_base::{Fqdn, Layout, NoMemory};
use med_index::{IndexError, rebuild};
use med_mem::{MemStore, MemWhen};
use med_outside::{Storage, Trace};
use med_suite_rows::calls::{first_wrong, put};
use std::alloc::Global;

// Backups whose byte order isn't that of their paths, one of them without a schema; entries with a
// second that isn't theirs, with other bytes, of no backup, of a node whose name ends alike, and one
// that is no entry.
const BUCKET: &str = "\
open b/k => done
put n1/b1/meta/schema.cql=s => 1000
put n1/b1/meta/differential= => 1001
put n1/b1/meta/tokenmap.json={} => 1002
put n1/b1/meta/manifest.json=[] => 1003
put n1/b-1/meta/tokenmap.json={1} => 1004
put index/backup_index/b1/started_n1_1000.timestamp= => 1005
put index/backup_index/b1/started_n1_7.timestamp= => 1006
put index/backup_index/b1/manifest_n1.json=x => 1007
put index/backup_index/b1/manifest_1.json=x => 1008
put index/backup_index/zz/tokenmap_n1.json=x => 1009
put index/backup_index/b1/started_n1_07.timestamp= => 1010
put index/latest_backup/n1/backup_name.txt=zz => 1011
put index/latest_backup/n1/tokenmap.json=[] => 1012";

// How many calls that is.
const LAID: u64 = 14;

const MADE: &str = "\
seconds index/ => index/backup_index/b-1/started_n1_1004.timestamp 1015;\
index/backup_index/b-1/tokenmap_n1.json 1016;\
index/backup_index/b1/differential_n1 1017;\
index/backup_index/b1/finished_n1_1003.timestamp 1018;\
index/backup_index/b1/manifest_1.json 1008;\
index/backup_index/b1/manifest_n1.json 1019;\
index/backup_index/b1/started_n1_07.timestamp 1010;\
index/backup_index/b1/started_n1_1000.timestamp 1005;\
index/backup_index/b1/tokenmap_n1.json 1020;\
index/latest_backup/n1/backup_name.txt 1013;\
index/latest_backup/n1/tokenmap.json 1014;";

const BYTES: &str = "\
sizes index/ => index/backup_index/b-1/started_n1_1004.timestamp 0;\
index/backup_index/b-1/tokenmap_n1.json 3;\
index/backup_index/b1/differential_n1 0;\
index/backup_index/b1/finished_n1_1003.timestamp 0;\
index/backup_index/b1/manifest_1.json 1;\
index/backup_index/b1/manifest_n1.json 2;\
index/backup_index/b1/started_n1_07.timestamp 0;\
index/backup_index/b1/started_n1_1000.timestamp 0;\
index/backup_index/b1/tokenmap_n1.json 2;\
index/latest_backup/n1/backup_name.txt 2;\
index/latest_backup/n1/tokenmap.json 2;
get index/backup_index/b-1/tokenmap_n1.json => {1}
get index/backup_index/b1/manifest_n1.json => []
get index/backup_index/b1/tokenmap_n1.json => {}
get index/latest_backup/n1/backup_name.txt => b1
get index/latest_backup/n1/tokenmap.json => {}
get n1/b1/meta/manifest.json => []
get index/backup_index/b1/manifest_1.json => x";

// What a rebuild of the node answers.
fn rebuilt<S: Storage>(alloc: Global, store: &mut S, node: &str) -> Option<String>
    requires { IsReady [] (S.state store.old) }
    ensures { IsReady [] (S.state store.new) }
{
    let node = Fqdn::read(alloc, node).ok()?;
    let mut trace = Trace::new(alloc);
    match rebuild(alloc, store, &Layout::plain(alloc), &node, &mut trace) {
        Ok(report) => {
            let (put, deleted) = (report.put, report.deleted);
            format!(in alloc; "{put} put, {deleted} deleted").ok()
        }
        Err(IndexError::BadManifest { path, why: _ }) => {
            let path = path.as_str();
            format!(in alloc; "bad {path}").ok()
        }
        Err(IndexError::Store) => String::from_str(alloc, "store").ok(),
        Err(IndexError::Memory) => String::from_str(alloc, "memory").ok(),
    }
}

fn is_rebuilt<S: Storage>(alloc: Global, store: &mut S, node: &str, wanted: &str) -> Option<bool>
    requires { IsReady [] (S.state store.old) }
    ensures { IsReady [] (S.state store.new) }
{
    Some(rebuilt(alloc, store, node)?.as_str() == wanted)
}

#[test]
fn an_index_is_made_of_the_backups(rt: HostRuntime) {
    let mut store = MemStore::new(rt.alloc(), 1000, 1);
    assert_eq!(rt; first_wrong(rt.alloc(), &mut store, BUCKET), None);
    assert_eq!(rt;
        is_rebuilt(rt.alloc(), &mut store, "n1", "8 put, 2 deleted"),
        Some(true)
    );
    assert_eq!(rt; first_wrong(rt.alloc(), &mut store, MADE), None);
    assert_eq!(rt; first_wrong(rt.alloc(), &mut store, BYTES), None);
    assert_eq!(rt;
        is_rebuilt(rt.alloc(), &mut store, "n1", "0 put, 0 deleted"),
        Some(true)
    );
    assert_eq!(rt; first_wrong(rt.alloc(), &mut store, MADE), None);
}

// The first manifest in byte order of the paths, which isn't the first by name.
const BAD: &str = "\
open b/k => done
put n1/a/meta/manifest.json=[] => 1000
put n1/b/meta/manifest.json={} => 1001
put n1/b-1/meta/manifest.json={} => 1002
put index/backup_index/zz/tokenmap_n1.json=x => 1003";

const KEPT: &str = "\
seconds  => index/backup_index/zz/tokenmap_n1.json 1003;\
n1/a/meta/manifest.json 1000;n1/b-1/meta/manifest.json 1002;n1/b/meta/manifest.json 1001;";

#[test]
fn a_manifest_that_does_not_read_ends_it_before_a_change(rt: HostRuntime) {
    let mut store = MemStore::new(rt.alloc(), 1000, 1);
    assert_eq!(rt; first_wrong(rt.alloc(), &mut store, BAD), None);
    assert_eq!(rt;
        is_rebuilt(
            rt.alloc(),
            &mut store,
            "n1",
            "bad n1/b-1/meta/manifest.json"
        ),
        Some(true)
    );
    assert_eq!(rt; first_wrong(rt.alloc(), &mut store, KEPT), None);
}

// Whether a rebuild whose call of that number fails answers so, and another one mends what it left.
fn is_mended(alloc: Global, call: u64, lands: bool, wanted: &str) -> Result<bool, NoMemory> {
    let mut store = MemStore::new(alloc, 1000, 1);
    let laid = first_wrong(alloc, &mut store, BUCKET).is_none();
    store.fail(MemWhen::Step(LAID.saturating_add(call)), lands)?;
    let told = is_rebuilt(alloc, &mut store, "n1", wanted);
    let mended = rebuilt(alloc, &mut store, "n1").is_some();
    let right = first_wrong(alloc, &mut store, BYTES).is_none();
    Ok(laid && told == Some(true) && mended && right)
}

// The first call whose fault doesn't end a rebuild so that another one mends it.
fn first_fault_unmended(alloc: Global, calls: u64, lands: bool) -> Result<Option<u64>, NoMemory> {
    for call in 1..=calls {
        if !is_mended(alloc, call, lands, "store")? {
            return Ok(Some(call));
        }
    }
    Ok(None)
}

// The calls of a rebuild of that bucket.
const CALLS: u64 = 21;

#[test]
fn what_a_fault_left_is_mended(rt: HostRuntime) {
    assert_eq!(rt;
        first_fault_unmended(rt.alloc(), CALLS, false).ok(),
        Some(None)
    );
    assert_eq!(rt;
        first_fault_unmended(rt.alloc(), CALLS, true).ok(),
        Some(None)
    );
    let whole = is_mended(
        rt.alloc(),
        CALLS.saturating_add(1),
        false,
        "8 put, 2 deleted",
    );
    assert_eq!(rt; whole.ok(), Some(true));
}

// Backups without files, as many as asked for.
fn lay_backups<S: Storage>(alloc: Global, store: &mut S, count: u64) -> Option<()>
    requires { IsReady [] (S.state store.old) }
    ensures { IsReady [] (S.state store.new) }
{
    for number in 0..count {
        let path = format!(in alloc; "n1/b{number}/meta/manifest.json").ok()?;
        put(alloc, store, path.as_str(), "[]").ok()?;
    }
    Some(())
}

#[test]
fn five_hundred_backups_are_indexed(rt: HostRuntime) {
    let mut store = MemStore::new(rt.alloc(), 1000, 0);
    assert_eq!(rt; lay_backups(rt.alloc(), &mut store, 500), Some(()));
    let made = is_rebuilt(rt.alloc(), &mut store, "n1", "1501 put, 0 deleted");
    assert_eq!(rt; made, Some(true));
    let again = is_rebuilt(rt.alloc(), &mut store, "n1", "0 put, 0 deleted");
    assert_eq!(rt; again, Some(true));
    let latest = "get index/latest_backup/n1/backup_name.txt => b99";
    assert_eq!(rt; first_wrong(rt.alloc(), &mut store, latest), None);
}
