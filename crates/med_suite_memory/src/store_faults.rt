// A storage in memory that is set to fail. It is at rest between two rows, under the layout with
// nothing before its paths.
ghost use Rattle.std.specs.Prelude.{[]};
ghost use Rattle.med_outside.specs.State.{IsReady};
ghost use Rattle.med_mem.specs.Told.{state_of};

use med_base::ObjPath;
use med_mem::{MemStore, MemWhen};
use med_outside::Storage;
use med_suite_rows::calls::is_answered;
use std::alloc::Global;

// A row `step NUMBER EFFECT` or `put PATH EFFECT`: the call of that number, or the next put of that
// path, fails, and takes effect where EFFECT is `lands`.
fn set(alloc: Global, store: &mut MemStore, row: &str) -> Option<()>
    requires { IsReady [] (state_of store.old) }
    ensures { IsReady [] (state_of store.new) }
{
    let (word, rest) = row.split_once(' ')?;
    let (what, effect) = rest.split_once(' ')?;
    let when = match word {
        "step" => MemWhen::Step(what.parse::<u64>().ok()?),
        "put" => MemWhen::PutOf(ObjPath::of(alloc, what).ok()?),
        _ => return None,
    };
    store.fail(when, effect == "lands").ok()
}

// A row with an answer is a call of the storage, and one without sets a call to fail.
fn is_right(alloc: Global, store: &mut MemStore, row: &str) -> Option<bool>
    requires { IsReady [] (state_of store.old) }
    ensures { IsReady [] (state_of store.new) }
{
    match row.split_once(" => ") {
        Some((call, wanted)) => is_answered(alloc, store, call, wanted),
        None => Some(set(alloc, store, row).is_some()),
    }
}

// The first row that is answered otherwise.
fn first_wrong<'a>(alloc: Global, store: &mut MemStore, table: &'a str) -> Option<&'a str>
    requires { IsReady [] (state_of store.old) }
    ensures { IsReady [] (state_of store.new) }
{
    for row in table.split('\n') {
        if is_right(alloc, store, row) != Some(true) {
            return Some(row);
        }
    }
    None
}

// The calls are counted from the opening on, which is the first.
const SET: &str = "\
step 3 lands
step 5 misses
step 7 lands
step 11 lands
step 13 misses
open base/bucket => done
put a=1 => 100
put b=12 => failed
get b => 12
put c=123 => failed
get c => absent
get a => failed
get a => 1
sizes => a 1;b 2;
put a=1234 => 110
delete a => failed
get a => absent
delete b => failed
get b => 12
put b misses
put a lands
put c=1 => 115
put b=1 => failed
put a=2 => failed
sizes => a 1;b 2;c 1;
put b=1 => 125
seconds => a 120;b 125;c 115;";

#[test]
fn a_call_that_is_set_to_fail_fails_with_and_without_effect(rt: HostRuntime) {
    let mut store = MemStore::new(rt.alloc(), 100, 5);
    assert_eq!(rt; first_wrong(rt.alloc(), &mut store, SET), None);
}

// The calls of an upload are counted each. The first isn't begun, the second fails at its piece,
// the third and the fourth fail at their end.
const UPLOADED: &str = "\
step 2 misses
step 4 misses
step 8 misses
step 11 lands
open base/bucket => done
upload a=1 => failed
upload a=1 => failed
sizes => nothing
upload a=1 => failed
upload a=12 => failed
get a => 12
put a lands
put b misses
upload a=123|4 => failed
get a => 1234
upload b=1 => failed
get b => absent
upload b=1 => 110
step 25 lands
step 26 lands
piece b 0 => failed
pages => failed
piece b 0 => 1
pages => 2 a b 0;
drop b=2 => done
get b => 1";

#[test]
fn an_upload_that_is_set_to_fail_fails_with_and_without_effect(rt: HostRuntime) {
    let mut store = MemStore::new(rt.alloc(), 100, 5);
    assert_eq!(rt; first_wrong(rt.alloc(), &mut store, UPLOADED), None);
}
