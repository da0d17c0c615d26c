// Backups in which a call fails.
ghost use Rattle.std.specs.Prelude.{[]};
ghost use Rattle.med_outside.specs.State.{IsReady};

use crate::backups::{RING, backed_up};
use med_base::NoMemory;
use med_mem::{MemStore, MemWhen};
use med_outside::Storage;
use med_suite_rows::calls::first_wrong;
use std::alloc::Global;

// Whether the storage answers the row so, which is asked twice: the call that is set to fail fails once.
fn holds<S: Storage>(alloc: Global, store: &mut S, row: &str) -> bool
    requires { IsReady [] (S.state store.old) }
    ensures { IsReady [] (S.state store.new) }
{
    first_wrong(alloc, store, row).is_none() || first_wrong(alloc, store, row).is_none()
}

const FIRST: &str = "d1 differential a=abc,b=x";

const SECOND: &str = "d2 differential a=abc,b=yy";

// What a backup answers behind another one, where a call of the storage fails, and whether each of the two
// is whole or has no manifest.
fn is_whole_behind(alloc: Global, call: u64, lands: bool) -> Result<Option<bool>, NoMemory> {
    let mut store = MemStore::new(alloc, 1000, 1);
    let is_open = first_wrong(alloc, &mut store, "open b/k => done").is_none();
    store.fail(MemWhen::Step(call), lands)?;
    let one = backed_up(alloc, &mut store, FIRST, RING, None).is_some();
    let two = backed_up(alloc, &mut store, SECOND, RING, None).is_some();
    let shared = holds(alloc, &mut store, "piece n1/data/ks/t-1/a 0 => abc");
    let first = holds(alloc, &mut store, "get n1/d1/meta/manifest.json => absent")
        || shared && holds(alloc, &mut store, "piece n1/data/ks/t-1/b 0 => x");
    let second = holds(alloc, &mut store, "get n1/d2/meta/manifest.json => absent")
        || shared && holds(alloc, &mut store, "piece n1/d2/data/ks/t-1/b 0 => yy")
        || shared && holds(alloc, &mut store, "piece n1/data/ks/t-1/b 0 => yy");
    Ok(Some(is_open && one && two && first && second))
}

// The first call behind whose failure a manifest stands without its files.
fn first_broken(alloc: Global, lands: bool) -> Result<Option<u64>, NoMemory> {
    for call in 2..80 {
        if is_whole_behind(alloc, call, lands)? != Some(true) {
            return Ok(Some(call));
        }
    }
    Ok(None)
}

#[test]
fn no_manifest_stands_without_its_files_behind_a_call_that_failed(rt: HostRuntime) {
    assert_eq!(rt; first_broken(rt.alloc(), false), Ok(None));
    assert_eq!(rt; first_broken(rt.alloc(), true), Ok(None));
}

// What a backup of one file answers whose snapshot fails at a call, and whether its name is taken then.
fn is_told(alloc: Global, row: &str) -> Option<bool> {
    let (call, wanted) = row.split_once(" => ")?;
    let (answer, again) = wanted.split_once(", then ")?;
    let mut store = MemStore::new(alloc, 1000, 1);
    let is_open = first_wrong(alloc, &mut store, "open b/k => done").is_none();
    let failing = call.parse::<u64>().ok();
    let line = "b1 full a=abc";
    let first = backed_up(alloc, &mut store, line, RING, failing)?;
    let second = backed_up(alloc, &mut store, line, RING, None)?;
    Some(is_open && first.as_str() == answer && second.as_str() == again)
}

fn first_untold(alloc: Global, table: &str) -> Option<&str> {
    for row in table.split('\n') {
        if is_told(alloc, row) != Some(true) {
            return Some(row);
        }
    }
    None
}

// The keys, the schema, the ring, and the first piece of the file.
const FAILING: &str = "\
1 => snap, then b1 of n1: 1 files, 3 bytes, 0 1 0
2 => snap, then b1 of n1: 1 files, 3 bytes, 0 1 0
3 => snap, then b1 of n1: 1 files, 3 bytes, 0 1 0
4 => snap, then taken n1/b1/meta/schema.cql";

#[test]
fn a_snapshot_that_fails_is_told(rt: HostRuntime) {
    assert_eq!(rt; first_untold(rt.alloc(), FAILING), None);
}
