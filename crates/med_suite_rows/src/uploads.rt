// Uploads, as rows have them.
ghost use Rattle.std.specs.Prelude.{◌≡◌, [], is_some, IsTrue, OnOk, OnErr};
ghost use Rattle.med_outside.specs.State.{IsReady};

use crate::calls::{is_dated, is_number, refusal};
use med_base::{NoMemory, ObjPath};
use med_outside::{Denied, PIECE, Piece, Storage};
use std::alloc::Global;

// A piece of these bytes, unless they are more than one has.
fn piece_of(alloc: Global, bytes: &[u8]) -> Result<Piece, NoMemory> {
    if bytes.len() > PIECE {
        return Err(NoMemory);
    }
    Piece::of(alloc, bytes)
}

fn begin<S: Storage>(alloc: Global, store: &mut S, path: &str) -> Result<(), Denied>
    requires { IsReady [] (S.state store.old) }
    ensures ok { OnOk result ((S.state store.new).terms.lent ≡ []) }
    ensures layout { OnOk result ((S.state store.new).terms.bucket.layout ≡ []) }
    ensures upload { OnOk result (IsTrue (is_some (S.state store.new).upload)) }
    ensures err { OnErr result (IsReady [] (S.state store.new)) }
{
    let path = ObjPath::of(alloc, path)?;
    store.begin(alloc, &path)
}

fn append<S: Storage>(alloc: Global, store: &mut S, text: &str) -> Result<(), Denied>
    requires rest { (S.state store.old).terms.lent ≡ [] }
    requires layout { (S.state store.old).terms.bucket.layout ≡ [] }
    requires upload { IsTrue (is_some (S.state store.old).upload) }
    ensures ok { OnOk result ((S.state store.new).terms.lent ≡ []) }
    ensures layout { OnOk result ((S.state store.new).terms.bucket.layout ≡ []) }
    ensures upload { OnOk result (IsTrue (is_some (S.state store.new).upload)) }
    ensures err { OnErr result (IsReady [] (S.state store.new)) }
{
    match piece_of(alloc, text.as_bytes()) {
        Ok(piece) => store.append(alloc, &piece),
        Err(NoMemory) => {
            store.drop_upload();
            Err(Denied::Memory)
        }
    }
}

// Begins an upload, and appends a text in pieces, which a bar divides.
fn upload<S: Storage>(alloc: Global, store: &mut S, path: &str, text: &str) -> Result<(), Denied>
    requires { IsReady [] (S.state store.old) }
    ensures ok { OnOk result ((S.state store.new).terms.lent ≡ []) }
    ensures layout { OnOk result ((S.state store.new).terms.bucket.layout ≡ []) }
    ensures upload { OnOk result (IsTrue (is_some (S.state store.new).upload)) }
    ensures err { OnErr result (IsReady [] (S.state store.new)) }
{
    begin(alloc, store, path)?;
    for piece in text.split('|') {
        append(alloc, store, piece)?;
    }
    Ok(())
}

fn commit<S: Storage>(alloc: Global, store: &mut S, path: &str, text: &str) -> Result<u64, Denied>
    requires { IsReady [] (S.state store.old) }
    ensures { IsReady [] (S.state store.new) }
{
    upload(alloc, store, path, text)?;
    store.commit(alloc)
}

/// An upload that is committed answers a second, `listed` where the entry has that second, or a
/// refusal.
pub(crate) fn is_uploaded<S: Storage>(
    alloc: Global,
    store: &mut S,
    object: &str,
    wanted: &str,
) -> Option<bool>
    requires { IsReady [] (S.state store.old) }
    ensures { IsReady [] (S.state store.new) }
{
    let (path, text) = object.split_once('=')?;
    match commit(alloc, store, path, text) {
        Ok(second) if wanted == "listed" => is_dated(alloc, store, path, second),
        Ok(second) => is_number(alloc, second, wanted),
        Err(denied) => Some(refusal(denied) == wanted),
    }
}

/// An upload that is dropped answers `done`, or a refusal.
pub(crate) fn is_dropped<S: Storage>(
    alloc: Global,
    store: &mut S,
    object: &str,
    wanted: &str,
) -> Option<bool>
    requires { IsReady [] (S.state store.old) }
    ensures { IsReady [] (S.state store.new) }
{
    let (path, text) = object.split_once('=')?;
    match upload(alloc, store, path, text) {
        Ok(()) => {
            store.drop_upload();
            Some(wanted == "done")
        }
        Err(denied) => Some(refusal(denied) == wanted),
    }
}
