// Rows of a storage and of the files beside it.
ghost use Rattle.std.specs.Prelude.{[]};
ghost use Rattle.med_outside.specs.State.{IsReady};

use crate::calls::is_answered;
use crate::places::is_done;
use med_outside::Storage;
use std::alloc::Global;
use std::fs::Files;

// A row with an answer is a call of the storage, and one without makes or looks for a file. `%`
// stands for a name of 255 bytes.
fn is_right<R: Files, S: Storage>(rt: &R, alloc: Global, store: &mut S, row: &str) -> Option<bool>
    requires { IsReady [] (S.state store.old) }
    ensures { IsReady [] (S.state store.new) }
{
    let name = "n".repeat(alloc, 255).ok()?;
    let row = row.replace(alloc, '%', name.as_str()).ok()?;
    match row.as_str().split_once(" => ") {
        Some((call, wanted)) => is_answered(alloc, store, call, wanted),
        None => Some(is_done(rt, row.as_str())),
    }
}

/// The first row that is answered otherwise, or can't be done.
pub fn first_wrong<'a, R: Files, S: Storage>(
    rt: &R,
    alloc: Global,
    store: &mut S,
    table: &'a str,
) -> Option<&'a str>
    requires { IsReady [] (S.state store.old) }
    ensures { IsReady [] (S.state store.new) }
{
    for row in table.split('\n') {
        if is_right(rt, alloc, store, row) != Some(true) {
            return Some(row);
        }
    }
    None
}
