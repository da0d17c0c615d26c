// Pieces of an object in a row, for which its file is opened once.
ghost use Rattle.std.specs.Prelude.{[]};
ghost use Rattle.med_outside.specs.State.{IsReady};

use med_base::ObjPath;
use med_folder::FolderStore;
use med_outside::{PIECE, Storage};
use med_suite_rows::places::{many_bytes, write_file};
use med_suite_rows::rows;
use std::alloc::Global;
use std::fs::Files;

// Whether the piece at a place is full.
fn is_full<S: Storage>(alloc: Global, store: &mut S, place: &str) -> Option<bool>
    requires { IsReady [] (S.state store.old) }
    ensures { IsReady [] (S.state store.new) }
{
    let (path, from) = place.split_once(' ')?;
    let path = ObjPath::of(alloc, path).ok()?;
    let from = from.parse::<u64>().ok()?;
    let piece = store.get_piece(alloc, &path, from).ok()??;
    Some(piece.bytes().len() == PIECE)
}

// Writes a file of two pieces and the bytes `end`.
fn write_long<R: Files>(rt: &R, alloc: Global, path: &str) -> Option<bool> {
    let mut bytes = many_bytes(alloc, 2_097_152)?;
    bytes.extend_from_slice(b"end").ok()?;
    write_file(rt, path, bytes.as_slice()).ok()?;
    Some(true)
}

// A row `full PATH PLACE` is a piece that is full, `long FILE` makes a file, and each other one is a
// row of a storage and of the files beside it.
fn is_right<R: Files, S: Storage>(rt: &R, alloc: Global, store: &mut S, row: &str) -> Option<bool>
    requires { IsReady [] (S.state store.old) }
    ensures { IsReady [] (S.state store.new) }
{
    let (word, rest) = row.split_once(' ')?;
    match word {
        "full" => is_full(alloc, store, rest),
        "long" => write_long(rt, alloc, rest),
        _ => Some(rows::first_wrong(rt, alloc, store, row).is_none()),
    }
}

fn first_wrong<'a, R: Files, S: Storage>(
    rt: &R,
    alloc: Global,
    store: &mut S,
    table: &'a str,
) -> Option<&'a str>
    requires { IsReady [] (S.state store.old) }
    ensures { IsReady [] (S.state store.new) }
{
    for row in table.split('\n') {
        if is_right(rt, alloc, store, row) != Some(true) {
            return Some(row);
        }
    }
    None
}

// A file that was removed is read on while it is open. It is opened anew for a piece that isn't the
// next one, for another object, and where the object was put, uploaded or deleted in the meantime or
// another bucket was opened.
const IN_A_ROW: &str = "\
open pieces/row => done
long pieces/row/x
long pieces/row/y
full x 0
full x 1048576
remove pieces/row/x
piece x 2097152 => end
piece x 2097152 => absent
full y 0
piece y 2097154 => d
long pieces/row/x
full x 0
full y 0
remove pieces/row/x
piece x 1048576 => absent
full y 0
put y=over => done
piece y 1048576 => nothing
long pieces/row/y
full y 0
upload y=loa|ded => listed
piece y 1048576 => nothing
piece y 1 => oaded
long pieces/row/y
full y 0
delete y => done
piece y 1048576 => absent
long pieces/row/y
full y 0
open pieces/other => done
piece y 1048576 => absent";

#[test]
fn pieces_of_an_object_in_a_row_are_of_one_file(rt: HostRuntime) {
    let mut store = FolderStore::new(rt.alloc(), rt);
    assert_eq!(rt; first_wrong(&rt, rt.alloc(), &mut store, IN_A_ROW), None);
}
