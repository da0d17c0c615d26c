// Names that are claimed on a shelf.
ghost use Rattle.std.specs.Prelude.{◌≡◌, [], IfOk, IfSome};
ghost use Rattle.med_outside.specs.State.{IsReady};
ghost use Rattle.med_shelf.specs.Shelf.{ClaimState, IsClaimOf};

use med_base::{BackupName, Fqdn, Layout, NoMemory};
use med_mem::{MemStore, MemWhen};
use med_outside::{Mode, Storage, Trace};
use med_ring::Ring;
use med_shelf::{Claim, ClaimError, Shelf};
use med_suite_rows::calls::first_wrong;
use std::alloc::Global;

/// A shelf of the node n1.
pub(crate) fn shelf_of(alloc: Global) -> Option<Shelf>
    ensures { IfSome result (λ shelf. shelf.layout ≡ []) }
{
    let node = Fqdn::read(alloc, "n1").ok()?;
    Some(Shelf::new(alloc, Layout::plain(alloc), node))
}

/// Claims a name, with the schema `s` and an empty ring.
pub(crate) fn try_claim<S: Storage>(
    alloc: Global,
    store: &mut S,
    shelf: &mut Shelf,
    name: &BackupName,
    mode: Mode,
) -> Result<Claim, ClaimError>
    requires layout { shelf.old.layout ≡ [] }
    requires ready { IsReady [] (S.state store.old) }
    ensures claim { IfOk result (IsClaimOf shelf.new) }
    ensures fresh { IfOk result (λ claim. claim.records ≡ []) }
    ensures others { (claim : ClaimState) → IsClaimOf shelf.old claim → IsClaimOf shelf.new claim }
    ensures layout { shelf.new.layout ≡ [] }
    ensures ready { IsReady [] (S.state store.new) }
{
    let mut trace = Trace::new(alloc);
    let Ok(ring) = Ring::read(alloc, b"{}".as_slice()) else {
        return Err(ClaimError::Memory);
    };
    let schema = b"s".as_slice();
    shelf.claim(alloc, store, name, mode, schema, &ring, &mut trace)
}

// What a claim answers.
fn told(alloc: Global, answer: &Result<Claim, ClaimError>) -> Option<String> {
    match answer {
        Ok(claim) => String::from_str(alloc, claim.name().as_str()).ok(),
        Err(ClaimError::Running { name }) => {
            let name = name.as_str();
            format!(in alloc; "running {name}").ok()
        }
        Err(ClaimError::Taken { path }) => {
            let path = path.as_str();
            format!(in alloc; "taken {path}").ok()
        }
        Err(ClaimError::Store) => String::from_str(alloc, "store").ok(),
        Err(ClaimError::Memory) => String::from_str(alloc, "memory").ok(),
    }
}

// Whether a claim answers so.
fn is_told(alloc: Global, answer: &Result<Claim, ClaimError>, wanted: &str) -> bool {
    match told(alloc, answer) {
        Some(text) => text.as_str() == wanted,
        None => false,
    }
}

// Whether a claim on a shelf of its own answers so. One that is made is given up.
fn is_claimed_on<S: Storage>(
    alloc: Global,
    store: &mut S,
    shelf: &mut Shelf,
    name: &BackupName,
    mode: Mode,
    wanted: &str,
) -> bool
    requires layout { shelf.old.layout ≡ [] }
    requires ready { IsReady [] (S.state store.old) }
    ensures layout { shelf.new.layout ≡ [] }
    ensures ready { IsReady [] (S.state store.new) }
{
    let answer = try_claim(alloc, store, shelf, name, mode);
    let is_right = is_told(alloc, &answer, wanted);
    match answer {
        Ok(claim) => shelf.abandon(claim),
        Err(_error) => {}
    }
    is_right
}

// The same on a shelf of its own.
fn is_claimed<S: Storage>(
    alloc: Global,
    store: &mut S,
    name: &str,
    mode: Mode,
    wanted: &str,
) -> Option<bool>
    requires { IsReady [] (S.state store.old) }
    ensures { IsReady [] (S.state store.new) }
{
    let mut shelf = shelf_of(alloc)?;
    let name = BackupName::read(alloc, name).ok()?;
    Some(is_claimed_on(alloc, store, &mut shelf, &name, mode, wanted))
}

const FULL: &str = "\
seconds  => index/backup_index/b1/started_n1_1000.timestamp 1003;\
index/backup_index/b1/tokenmap_n1.json 1002;\
n1/b1/meta/schema.cql 1000;n1/b1/meta/tokenmap.json 1001;
object n1/b1/meta/schema.cql => s
object n1/b1/meta/tokenmap.json => {}
object index/backup_index/b1/tokenmap_n1.json => {}
object index/backup_index/b1/started_n1_1000.timestamp => ";

#[test]
fn a_claim_stores_what_tells_of_a_backup_that_starts(rt: HostRuntime) {
    let mut store = MemStore::new(rt.alloc(), 1000, 1);
    assert_eq!(rt;
        first_wrong(rt.alloc(), &mut store, "open b/k => done"),
        None
    );
    assert_eq!(rt;
        is_claimed(rt.alloc(), &mut store, "b1", Mode::Full, "b1"),
        Some(true)
    );
    assert_eq!(rt; first_wrong(rt.alloc(), &mut store, FULL), None);
}

const DIFFERENTIAL: &str = "\
seconds  => index/backup_index/d1/differential_n1 1005;\
index/backup_index/d1/started_n1_1000.timestamp 1004;\
index/backup_index/d1/tokenmap_n1.json 1003;\
n1/d1/meta/differential 1001;n1/d1/meta/schema.cql 1000;n1/d1/meta/tokenmap.json 1002;
object n1/d1/meta/differential => 
object index/backup_index/d1/differential_n1 => ";

#[test]
fn a_differential_backup_is_marked(rt: HostRuntime) {
    let mut store = MemStore::new(rt.alloc(), 1000, 1);
    assert_eq!(rt;
        first_wrong(rt.alloc(), &mut store, "open b/k => done"),
        None
    );
    assert_eq!(rt;
        is_claimed(rt.alloc(), &mut store, "d1", Mode::Differential, "d1"),
        Some(true)
    );
    assert_eq!(rt; first_wrong(rt.alloc(), &mut store, DIFFERENTIAL), None);
}

// Whether a second claim of the name finds it running, and one behind the end of the first finds its
// schema.
fn is_running_then_taken<S: Storage>(
    alloc: Global,
    store: &mut S,
    shelf: &mut Shelf,
    name: &BackupName,
) -> bool
    requires layout { shelf.old.layout ≡ [] }
    requires ready { IsReady [] (S.state store.old) }
    ensures ready { IsReady [] (S.state store.new) }
{
    let Ok(claim) = try_claim(alloc, store, shelf, name, Mode::Full) else {
        return false;
    };
    let second = try_claim(alloc, store, shelf, name, Mode::Full);
    let is_running = is_told(alloc, &second, "running b1");
    shelf.abandon(claim);
    let taken = "taken n1/b1/meta/schema.cql";
    is_running && is_claimed_on(alloc, store, shelf, name, Mode::Full, taken)
}

fn is_held_by_its_name<S: Storage>(alloc: Global, store: &mut S) -> Option<bool>
    requires { IsReady [] (S.state store.old) }
    ensures { IsReady [] (S.state store.new) }
{
    let mut shelf = shelf_of(alloc)?;
    let name = BackupName::read(alloc, "b1").ok()?;
    Some(is_running_then_taken(alloc, store, &mut shelf, &name))
}

#[test]
fn a_name_is_running_and_then_taken(rt: HostRuntime) {
    let mut store = MemStore::new(rt.alloc(), 1000, 1);
    assert_eq!(rt;
        first_wrong(rt.alloc(), &mut store, "open b/k => done"),
        None
    );
    assert_eq!(rt; is_held_by_its_name(rt.alloc(), &mut store), Some(true));
}

// Paths under the folder of b1 that are none of a backup's objects, and others that aren't under it.
const STRAYS: &str = "\
open b/k => done
put n1/b10/meta/schema.cql=s => done
put n1/b=s => done
put n1/b1=s => done
put n1/b1/z=s => done
put n1/b1/a/b=s => done";

#[test]
fn any_object_under_the_folder_takes_the_name(rt: HostRuntime) {
    let mut store = MemStore::new(rt.alloc(), 1000, 1);
    assert_eq!(rt; first_wrong(rt.alloc(), &mut store, STRAYS), None);
    assert_eq!(rt;
        is_claimed(rt.alloc(), &mut store, "b1", Mode::Full, "taken n1/b1/a/b"),
        Some(true)
    );
    assert_eq!(rt;
        is_claimed(rt.alloc(), &mut store, "b", Mode::Full, "b"),
        Some(true)
    );
}

// What a claim answers behind one whose call of that number failed, and took effect or didn't.
fn is_claimed_behind(
    alloc: Global,
    call: u64,
    lands: bool,
    wanted: &str,
) -> Result<Option<bool>, NoMemory> {
    let mut store = MemStore::new(alloc, 1000, 1);
    let is_open = first_wrong(alloc, &mut store, "open b/k => done").is_none();
    store.fail(MemWhen::Step(call), lands)?;
    let failed = is_claimed(alloc, &mut store, "b1", Mode::Full, "store");
    let right = is_claimed(alloc, &mut store, "b1", Mode::Full, wanted);
    Ok(Some(is_open && failed == Some(true) && right == Some(true)))
}

fn is_right(alloc: Global, row: &str) -> Option<bool> {
    let (failing, wanted) = row.split_once(" => ")?;
    let (call, effect) = failing.split_once(' ')?;
    let call = call.parse::<u64>().ok()?;
    is_claimed_behind(alloc, call, effect == "lands", wanted).ok()?
}

fn first_wrong_failure(alloc: Global, table: &str) -> Option<&str> {
    for row in table.split('\n') {
        if is_right(alloc, row) != Some(true) {
            return Some(row);
        }
    }
    None
}

// The first call opens the bucket, the second lists the folder, and the others are the four puts.
const FAILING: &str = "\
2 stays => b1
2 lands => b1
3 stays => b1
3 lands => taken n1/b1/meta/schema.cql
4 stays => taken n1/b1/meta/schema.cql
4 lands => taken n1/b1/meta/schema.cql
5 stays => taken n1/b1/meta/schema.cql
5 lands => taken n1/b1/meta/schema.cql
6 stays => taken n1/b1/meta/schema.cql
6 lands => taken n1/b1/meta/schema.cql";

#[test]
fn a_claim_whose_call_fails_is_a_fault_of_the_storage(rt: HostRuntime) {
    assert_eq!(rt; first_wrong_failure(rt.alloc(), FAILING), None);
}
