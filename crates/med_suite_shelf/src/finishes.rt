// Backups that are finished on a shelf.
ghost use Rattle.std.specs.Prelude.{◌≡◌, [], IfSome};
ghost use Rattle.med_outside.specs.State.{IsReady};
ghost use Rattle.med_shelf.specs.Shelf.{IsClaimOf};

use crate::claims::{shelf_of, try_claim};
use crate::places::{key_of, word_of};
use crate::snapshot::Changing;
use med_base::{BackupName, FileKey, NoMemory};
use med_core::Mode;
use med_mem::{MemStore, MemWhen};
use med_outside::{Storage, Trace};
use med_shelf::{Claim, FinishError, Finished, Shelf};
use med_suite_rows::calls::first_wrong;
use std::alloc::Global;

// What a finish answers: the name, its second, and each record with how its file came to its path.
fn told(alloc: Global, answer: &Result<Finished, FinishError>) -> Option<String> {
    match answer {
        Ok(finished) => told_of(alloc, finished),
        Err(FinishError::Store) => String::from_str(alloc, "store").ok(),
        Err(FinishError::Snap) => String::from_str(alloc, "snap").ok(),
        Err(FinishError::Memory) => String::from_str(alloc, "memory").ok(),
    }
}

fn told_of(alloc: Global, finished: &Finished) -> Option<String> {
    let name = finished.name.as_str();
    let mut text = format!(in alloc; "{name} {}", finished.second).ok()?;
    for record in finished.records.as_slice() {
        text.push_str(" ").ok()?;
        text.push_str(word_of(record.how)).ok()?;
        text.push_str(" ").ok()?;
        text.push_str(record.file.path.as_str()).ok()?;
    }
    Some(text)
}

// A claim of the name under which the file was placed.
fn claim_with<S: Storage>(
    alloc: Global,
    store: &mut S,
    shelf: &mut Shelf,
    name: &BackupName,
    mode: Mode,
    key: &FileKey,
    snap: &mut Changing,
) -> Option<Claim>
    requires layout { shelf.old.layout ≡ [] }
    requires ready { IsReady [] (S.state store.old) }
    ensures claim { IfSome result (IsClaimOf shelf.new) }
    ensures layout { shelf.new.layout ≡ [] }
    ensures ready { IsReady [] (S.state store.new) }
{
    let Ok(mut claim) = try_claim(alloc, store, shelf, name, mode) else {
        return None;
    };
    let mut trace = Trace::new(alloc);
    match shelf.place(alloc, store, &mut claim, key, snap, &mut trace) {
        Ok(_how) => Some(claim),
        Err(_error) => None,
    }
}

// What the finish of the claim answers.
fn finish_told<S: Storage>(
    alloc: Global,
    store: &mut S,
    shelf: &mut Shelf,
    claim: Claim,
    snap: &mut Changing,
) -> Option<String>
    requires layout { shelf.old.layout ≡ [] }
    requires ready { IsReady [] (S.state store.old) }
    requires claim { IsClaimOf shelf.old claim }
    ensures ready { IsReady [] (S.state store.new) }
{
    let mut trace = Trace::new(alloc);
    let answer = shelf.finish(alloc, store, claim, snap, &mut trace);
    told(alloc, &answer)
}

// What a finish answers behind a place of the file and the rows of the storage, or the first row that
// the storage answers otherwise.
fn finish_on<S: Storage>(
    alloc: Global,
    store: &mut S,
    shelf: &mut Shelf,
    name: &BackupName,
    mode: Mode,
    key: &FileKey,
    snap: &mut Changing,
    between: &str,
) -> Option<String>
    requires layout { shelf.old.layout ≡ [] }
    requires ready { IsReady [] (S.state store.old) }
    ensures ready { IsReady [] (S.state store.new) }
{
    let Some(claim) = claim_with(alloc, store, shelf, name, mode, key, snap) else {
        return String::from_str(alloc, "unplaced").ok();
    };
    match first_wrong(alloc, store, between) {
        None => finish_told(alloc, store, shelf, claim, snap),
        Some(row) => String::from_str(alloc, row).ok(),
    }
}

// The same of the file `ks/t-1/f`, on a shelf of its own.
fn finished<S: Storage>(
    alloc: Global,
    store: &mut S,
    name: &str,
    mode: Mode,
    snap: &mut Changing,
    between: &str,
) -> Option<String>
    requires { IsReady [] (S.state store.old) }
    ensures { IsReady [] (S.state store.new) }
{
    let mut shelf = shelf_of(alloc)?;
    let name = BackupName::read(alloc, name).ok()?;
    let key = key_of(alloc)?;
    finish_on(alloc, store, &mut shelf, &name, mode, &key, snap, between)
}

// Whether a finish behind these rows answers so, and these rows hold afterwards.
fn is_finished(alloc: Global, name: &str, mode: Mode, rows: &str) -> Option<bool> {
    let (between, behind) = rows.split_once("\nfinish => ")?;
    let (wanted, later) = behind.split_once('\n')?;
    let mut store = MemStore::new(alloc, 1000, 1);
    let is_open = first_wrong(alloc, &mut store, "open b/k => done").is_none();
    let mut snap = Changing::of("abc");
    let answer = finished(alloc, &mut store, name, mode, &mut snap, between)?;
    let is_left = first_wrong(alloc, &mut store, later).is_none();
    Some(is_open && answer.as_str() == wanted && is_left)
}

// A claim of a full backup makes four puts, from the second 1000 on, and the place one more.
const FULL: &str = "\
now => 1005
finish => b1 1005 stored n1/b1/data/ks/t-1/f
seconds  => index/backup_index/b1/finished_n1_1005.timestamp 1007;\
index/backup_index/b1/manifest_n1.json 1006;\
index/backup_index/b1/started_n1_1000.timestamp 1003;\
index/backup_index/b1/tokenmap_n1.json 1002;\
index/latest_backup/n1/backup_name.txt 1008;index/latest_backup/n1/tokenmap.json 1009;\
n1/b1/data/ks/t-1/f 1004;n1/b1/meta/manifest.json 1005;\
n1/b1/meta/schema.cql 1000;n1/b1/meta/tokenmap.json 1001;
piece n1/b1/data/ks/t-1/f 0 => abc
object n1/b1/meta/manifest.json => [{\"columnfamily\":\"t-1\",\"keyspace\":\"ks\",\"objects\":\
[{\"MD5\":\"900150983cd24fb0d6963f7d28e17f72\",\"path\":\"n1/b1/data/ks/t-1/f\",\"size\":3}]}]
object index/backup_index/b1/manifest_n1.json => [{\"columnfamily\":\"t-1\",\"keyspace\":\"ks\",\
\"objects\":[{\"MD5\":\"900150983cd24fb0d6963f7d28e17f72\",\"path\":\"n1/b1/data/ks/t-1/f\",\"size\":3}]}]
object index/backup_index/b1/finished_n1_1005.timestamp => 
object index/latest_backup/n1/backup_name.txt => b1
object index/latest_backup/n1/tokenmap.json => {}";

#[test]
fn a_finish_puts_the_manifest_and_its_entries(rt: HostRuntime) {
    assert_eq!(rt; is_finished(rt.alloc(), "b1", Mode::Full, FULL), Some(true));
}

// A claim of a differential backup makes six puts.
const LOST: &str = "\
delete n1/data/ks/t-1/f => done
finish => d1 1008 stored n1/data/ks/t-1/f
piece n1/data/ks/t-1/f 0 => abc
object n1/d1/meta/manifest.json => [{\"columnfamily\":\"t-1\",\"keyspace\":\"ks\",\"objects\":\
[{\"MD5\":\"900150983cd24fb0d6963f7d28e17f72\",\"path\":\"n1/data/ks/t-1/f\",\"size\":3}]}]
object index/latest_backup/n1/backup_name.txt => d1";

#[test]
fn a_file_that_was_lost_is_placed_again(rt: HostRuntime) {
    assert_eq!(rt;
        is_finished(rt.alloc(), "d1", Mode::Differential, LOST),
        Some(true)
    );
}

const REPLACED: &str = "\
upload n1/data/ks/t-1/f=a => 1007
finish => d1 1009 aside n1/d1/data/ks/t-1/f
piece n1/data/ks/t-1/f 0 => a
piece n1/d1/data/ks/t-1/f 0 => abc
object n1/d1/meta/manifest.json => [{\"columnfamily\":\"t-1\",\"keyspace\":\"ks\",\"objects\":\
[{\"MD5\":\"900150983cd24fb0d6963f7d28e17f72\",\"path\":\"n1/d1/data/ks/t-1/f\",\"size\":3}]}]";

#[test]
fn a_file_that_was_replaced_is_set_aside(rt: HostRuntime) {
    assert_eq!(rt;
        is_finished(rt.alloc(), "d1", Mode::Differential, REPLACED),
        Some(true)
    );
}

// Whether the storage answers the row so, which is asked twice: the call that is set to fail fails once.
fn holds<S: Storage>(alloc: Global, store: &mut S, row: &str) -> bool
    requires { IsReady [] (S.state store.old) }
    ensures { IsReady [] (S.state store.new) }
{
    first_wrong(alloc, store, row).is_none() || first_wrong(alloc, store, row).is_none()
}

// Whether a manifest stands behind the finish of a differential backup, one call of whose storage failed,
// only where its file is stored.
fn is_whole_or_unfinished(
    alloc: Global,
    call: u64,
    lands: bool,
    between: &str,
) -> Result<bool, NoMemory> {
    let mut store = MemStore::new(alloc, 1000, 1);
    let _opened = first_wrong(alloc, &mut store, "open b/k => done");
    store.fail(MemWhen::Step(call), lands)?;
    let mut snap = Changing::of("abc");
    let mode = Mode::Differential;
    let answer = finished(alloc, &mut store, "d1", mode, &mut snap, between);
    let absent = "get n1/d1/meta/manifest.json => absent";
    let stored = "piece n1/data/ks/t-1/f 0 => abc";
    let is_right = holds(alloc, &mut store, absent) || holds(alloc, &mut store, stored);
    Ok(answer.is_some() && is_right)
}

// The first call behind whose failure a manifest stands without its file.
fn first_broken(alloc: Global, lands: bool, between: &str) -> Result<Option<u64>, NoMemory> {
    for call in 2..50 {
        if !is_whole_or_unfinished(alloc, call, lands, between)? {
            return Ok(Some(call));
        }
    }
    Ok(None)
}

#[test]
fn no_manifest_stands_without_its_file_behind_a_call_that_failed(rt: HostRuntime) {
    let lost = "delete n1/data/ks/t-1/f => done";
    assert_eq!(rt; first_broken(rt.alloc(), false, lost), Ok(None));
    assert_eq!(rt; first_broken(rt.alloc(), true, lost), Ok(None));
    let kept = "piece n1/data/ks/t-1/f 0 => abc";
    assert_eq!(rt; first_broken(rt.alloc(), false, kept), Ok(None));
    assert_eq!(rt; first_broken(rt.alloc(), true, kept), Ok(None));
}
