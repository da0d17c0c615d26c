// The latest entry of a node, mended. The storage is at rest between two rows, under the layout
// with nothing before its paths.
ghost use Rattle.std.specs.Prelude.{[]};
ghost use Rattle.med_outside.specs.State.{IsReady};

use med_base::{Fqdn, Layout};
use med_index::{ListError, mend_latest};
use med_mem::{MemStore, MemWhen};
use med_outside::{Storage, Trace};
use med_suite_rows::calls::is_answered;
use std::alloc::Global;

fn answer(answer: Result<(), ListError>) -> &'static str {
    match answer {
        Ok(()) => "done",
        Err(ListError::Store) => "store",
        Err(ListError::Memory) => "memory",
    }
}

// What a mend of the node answers, how many changes it records, and whether the last one is unsure.
fn mended<S: Storage>(alloc: Global, store: &mut S, node: &str) -> Option<String>
    requires { IsReady [] (S.state store.old) }
    ensures { IsReady [] (S.state store.new) }
{
    let (layout, mut trace) = (Layout::plain(alloc), Trace::new(alloc));
    let node = Fqdn::read(alloc, node).ok()?;
    let word = answer(mend_latest(alloc, store, &layout, &node, &mut trace));
    let count = trace.changes.len();
    let end = if trace.unsure { " unsure" } else { "" };
    format!(in alloc; "{word} {count}{end}").ok()
}

// A row `mend NODE` is a mend, and another one a call of the storage.
fn is_right<S: Storage>(alloc: Global, store: &mut S, row: &str) -> Option<bool>
    requires { IsReady [] (S.state store.old) }
    ensures { IsReady [] (S.state store.new) }
{
    let (call, wanted) = row.split_once(" => ")?;
    match call.split_once(' ')? {
        ("mend", node) => Some(mended(alloc, store, node)?.as_str() == wanted),
        _ => is_answered(alloc, store, call, wanted),
    }
}

// The first row that is answered otherwise.
fn first_wrong<'a, S: Storage>(alloc: Global, store: &mut S, table: &'a str) -> Option<&'a str>
    requires { IsReady [] (S.state store.old) }
    ensures { IsReady [] (S.state store.new) }
{
    for row in table.split('\n') {
        if is_right(alloc, store, row) != Some(true) {
            return Some(row);
        }
    }
    None
}

// The newest backup by its second has neither the last name nor the last token map; a backup without
// a manifest, and one of another node, count for nothing.
const NEWEST: &str = "\
open b/k => done
mend n1 => done 0
put n1/b2/meta/manifest.json=[] => 1000
put n1/b1/meta/manifest.json=[] => 1001
put n1/b1/meta/tokenmap.json={1} => 1002
put n1/b3/meta/tokenmap.json={3} => 1003
put n10/b4/meta/manifest.json=[] => 1004
mend n1 => done 2
object index/latest_backup/n1/backup_name.txt => b1
object index/latest_backup/n1/tokenmap.json => {1}
sizes index/ => index/latest_backup/n1/backup_name.txt 2;index/latest_backup/n1/tokenmap.json 3;
mend n1 => done 0
put n1/b1/meta/tokenmap.json={2} => 1007
mend n1 => done 1
object index/latest_backup/n1/tokenmap.json => {2}
put n1/b2/meta/manifest.json=[] => 1009
mend n1 => done 2
object index/latest_backup/n1/backup_name.txt => b2
object index/latest_backup/n1/tokenmap.json => absent
mend n1 => done 0
delete n1/b2/meta/manifest.json => done
mend n1 => done 2
object index/latest_backup/n1/backup_name.txt => b1
object index/latest_backup/n1/tokenmap.json => {2}
delete n1/b1/meta/manifest.json => done
mend n1 => done 2
sizes index/ => nothing
mend n1 => done 0";

#[test]
fn the_latest_entry_tells_of_the_newest_finished_backup(rt: HostRuntime) {
    let mut store = MemStore::new(rt.alloc(), 1000, 1);
    assert_eq!(rt; first_wrong(rt.alloc(), &mut store, NEWEST), None);
}

// Backups that finish within one second, whose names come in another order than their paths.
const TIED: &str = "\
open b/k => done
put n1/b1/meta/manifest.json=[] => 1000
put n1/b-1/meta/manifest.json=[] => 1000
put n1/a9/meta/manifest.json=[] => 1000
mend n1 => done 1
object index/latest_backup/n1/backup_name.txt => b1
put n1/b10/meta/manifest.json=[] => 1000
mend n1 => done 1
object index/latest_backup/n1/backup_name.txt => b10
put n1/b/meta/manifest.json=[] => 1000
mend n1 => done 0";

#[test]
fn of_backups_of_one_second_the_last_name_counts(rt: HostRuntime) {
    let mut store = MemStore::new(rt.alloc(), 1000, 0);
    assert_eq!(rt; first_wrong(rt.alloc(), &mut store, TIED), None);
}

// Both latest objects are to be stored.
const TO_STORE: &str = "\
open b/k => done
put n1/b1/meta/manifest.json=[] => 1000
put n1/b1/meta/tokenmap.json={1} => 1000
put index/latest_backup/n1/backup_name.txt=b0 => 1000
put index/latest_backup/n1/tokenmap.json={0} => 1000";

// Both latest objects are to be removed.
const TO_REMOVE: &str = "\
open b/k => done
put n1/b1/meta/schema.cql=s => 1000
put index/latest_backup/n1/backup_name.txt=b0 => 1000
put index/latest_backup/n1/tokenmap.json={0} => 1000";

const NAME: &str = "object index/latest_backup/n1/backup_name.txt";

const RING: &str = "object index/latest_backup/n1/tokenmap.json";

// Whether a mend of what is laid answers so, and leaves this name and this token map.
fn ends<S: Storage>(alloc: Global, store: &mut S, laid: &str, wanted: &str) -> Option<bool>
    requires { IsReady [] (S.state store.old) }
    ensures { IsReady [] (S.state store.new) }
{
    let (said, left) = wanted.split_once(", ")?;
    let (name, ring) = left.split_once(' ')?;
    if first_wrong(alloc, store, laid).is_some() || mended(alloc, store, "n1")?.as_str() != said {
        return Some(false);
    }
    Some(is_answered(alloc, store, NAME, name)? && is_answered(alloc, store, RING, ring)?)
}

// A row `LAID STEP EFFECT => ANSWER, NAME TOKENMAP`: the call of that number fails, and takes effect
// where EFFECT is `lands`.
fn is_cut(alloc: Global, row: &str) -> Option<bool> {
    let (set, wanted) = row.split_once(" => ")?;
    let (laid, call) = set.split_once(' ')?;
    let (step, effect) = call.split_once(' ')?;
    let step = MemWhen::Step(step.parse::<u64>().ok()?);
    let mut store = MemStore::new(alloc, 1000, 0);
    store.fail(step, effect == "lands").ok()?;
    let laid = if laid == "store" { TO_STORE } else { TO_REMOVE };
    ends(alloc, &mut store, laid, wanted)
}

fn first_uncut(alloc: Global, table: &str) -> Option<&str> {
    for row in table.split('\n') {
        if is_cut(alloc, row) != Some(true) {
            return Some(row);
        }
    }
    None
}

// The first calls lay the bucket. Then the listing, each look and each change fails in turn.
const CUT: &str = "\
store 6 misses => store 0, b0 {0}
store 7 misses => store 0, b0 {0}
store 8 lands => store 0, b0 {0}
store 9 misses => store 0, b0 {0}
store 10 misses => store 1 unsure, b0 {0}
store 10 lands => store 1 unsure, b1 {0}
store 11 misses => store 2 unsure, b1 {0}
store 11 lands => store 2 unsure, b1 {1}
store 20 lands => done 2, b1 {1}
remove 5 misses => store 0, b0 {0}
remove 6 lands => store 0, b0 {0}
remove 7 misses => store 0, b0 {0}
remove 8 misses => store 1 unsure, b0 {0}
remove 8 lands => store 1 unsure, absent {0}
remove 9 misses => store 2 unsure, absent {0}
remove 9 lands => store 2 unsure, absent absent
remove 20 lands => done 2, absent absent";

#[test]
fn a_mend_that_fails_made_the_first_changes(rt: HostRuntime) {
    assert_eq!(rt; first_uncut(rt.alloc(), CUT), None);
}
