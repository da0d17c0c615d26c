// Files of a snapshot, read and uploaded a piece at a time.
ghost use Rattle.std.specs.Prelude.{◌≡◌, IfOk, IfSome, OnErr, OnOk, IsTrue, None, Some, is_some};
ghost use Rattle.med_outside.specs.Causes.{HasCause};
ghost use Rattle.med_outside.specs.Pieces.{with_piece, with_upload};
ghost use Rattle.med_outside.specs.Sent.{AddsPiece, AddsRead, AsksBoth, IsPrintOf, IsSent, IsUploaded};
ghost use Rattle.med_outside.specs.Snapshot.{HasKey, StaysOpen};
ghost use Rattle.med_outside.specs.State.{MayChange, OnlyReads};

use crate::{CopyFault, Denied, PIECE, Piece, Snap, Storage};
use med_base::{FileKey, Fingerprint, Flow, ObjPath};
use std::alloc::Global;

// Adds the piece to the upload, unless it is empty.
fn append<S: Storage>(alloc: Global, store: &mut S, piece: &Piece) -> Result<(), Denied>
    requires { IsTrue (is_some (S.state store.old).upload) }
    ensures ok { OnOk result
        (OnlyReads (with_upload (with_piece piece.now (S.state store.old).upload)
        (S.state store.old)) (S.state store.new) (S.stood store.old) (S.stood store.new)) }
    ensures err { OnErr result
        (OnlyReads (with_upload None (S.state store.old)) (S.state store.new) (S.stood store.old)
        (S.stood store.new)) }
    ensures cause { HasCause (S.state store.old).faults (S.state store.new).faults result }
{
    if piece.bytes().is_empty() {
        return Ok(());
    }
    store.append(alloc, piece)
}

// Reads the piece behind so many bytes, and sends it. Answers whether it is full: where it isn't,
// the file has no more.
fn send_piece<S: Storage, P: Snap>(
    alloc: Global,
    store: &mut S,
    snap: &mut P,
    key: &FileKey,
    sent: &mut u64,
) -> Result<bool, CopyFault>
    requires upload { IsTrue (is_some (S.state store.old).upload) }
    requires key { IfSome (P.state snap.old).held (HasKey key.now) }
    ensures ok { IfOk result
        (AddsPiece (P.state snap.old).held key.now sent.old sent.new (S.state store.old)
        (S.state store.new) (S.stood store.old) (S.stood store.new)) }
    ensures err { OnErr result
        (OnlyReads (with_upload None (S.state store.old)) (S.state store.new) (S.stood store.old)
        (S.stood store.new)) }
    ensures asks { AsksBoth (P.state snap.old) (P.state snap.new) (S.state store.old)
        (S.state store.new) result }
{
    let piece = match snap.read_piece(alloc, key, *sent) {
        Ok(piece) => piece,
        Err(denied) => {
            store.drop_upload();
            return Err(CopyFault::of_snap(denied));
        }
    };
    append(alloc, store, &piece).map_err(CopyFault::of_store)?;
    let size = piece.bytes().len();
    *sent += size as u64;
    Ok(size == PIECE)
}

// Sends the whole file. After a refusal there is no upload.
fn send_pieces<S: Storage, P: Snap>(
    alloc: Global,
    store: &mut S,
    snap: &mut P,
    key: &FileKey,
) -> Result<(), CopyFault>
    requires upload { IsTrue (is_some (S.state store.old).upload) }
    requires key { IfSome (P.state snap.old).held (HasKey key.now) }
    ensures ok { OnOk result
        (IsSent (P.state snap.old).held key.now (S.state store.old) (S.state store.new)
        (S.stood store.old) (S.stood store.new)) }
    ensures err { OnErr result
        (OnlyReads (with_upload None (S.state store.old)) (S.state store.new) (S.stood store.old)
        (S.stood store.new)) }
    ensures asks { AsksBoth (P.state snap.old) (P.state snap.new) (S.state store.old)
        (S.state store.new) result }
{
    let mut sent = 0;
    let mut more = true;
    while more {
        more = send_piece(alloc, store, snap, key, &mut sent)?;
    }
    Ok(())
}

/// Uploads the file of the snapshot under the path, holding one piece of it at a time, and answers
/// its fingerprint. The upload is to be committed or dropped then. After a refusal there is none.
pub fn upload_file<S: Storage, P: Snap>(
    alloc: Global,
    store: &mut S,
    snap: &mut P,
    key: &FileKey,
    path: &ObjPath,
) -> Result<Fingerprint, CopyFault>
    requires free { MayChange path.now (S.state store.old).terms }
    requires none { (S.state store.old).upload ≡ None }
    requires key { IfSome (P.state snap.old).held (HasKey key.now) }
    ensures ok { IfOk result
        (IsUploaded (P.state snap.old).held key.now path.now (S.state store.old)
        (S.state store.new) (S.stood store.old) (S.stood store.new)) }
    ensures err { OnErr result (OnlyReads (S.state store.old) (S.state store.new)
        (S.stood store.old) (S.stood store.new)) }
    ensures asks { AsksBoth (P.state snap.old) (P.state snap.new) (S.state store.old)
        (S.state store.new) result }
{
    store.begin(alloc, path).map_err(CopyFault::of_store)?;
    send_pieces(alloc, store, snap, key)?;
    match store.uploaded() {
        Some(fingerprint) => Ok(fingerprint),
        None => unreachable!(),
    }
}

// Reads the piece behind those of the flow into it. Answers whether it is full.
fn read_piece_of<P: Snap>(
    alloc: Global,
    snap: &mut P,
    key: &FileKey,
    flow: &mut Flow,
) -> Result<bool, Denied>
    requires { IfSome (P.state snap.old).held (HasKey key.now) }
    ensures ok { IfOk result (AddsRead (P.state snap.old).held key.now flow.old flow.new) }
    ensures same { StaysOpen (P.state snap.old) (P.state snap.new) }
    ensures cause { HasCause (P.state snap.old).faults (P.state snap.new).faults result }
{
    let piece = match snap.read_piece(alloc, key, flow.size()) {
        Ok(piece) => piece,
        Err(denied) => return Err(denied),
    };
    let bytes = piece.bytes();
    flow.add(bytes);
    Ok(bytes.len() == PIECE)
}

/// The fingerprint of the file of the snapshot. One piece of it is held at a time.
pub fn print_file<P: Snap>(
    alloc: Global,
    snap: &mut P,
    key: &FileKey,
) -> Result<Fingerprint, Denied>
    requires { IfSome (P.state snap.old).held (HasKey key.now) }
    ensures ok { IfOk result (IsPrintOf (P.state snap.old).held key.now) }
    ensures same { StaysOpen (P.state snap.old) (P.state snap.new) }
    ensures cause { HasCause (P.state snap.old).faults (P.state snap.new).faults result }
{
    let mut flow = Flow::new();
    let mut more = true;
    while more {
        match read_piece_of(alloc, snap, key, &mut flow) {
            Ok(full) => more = full,
            Err(denied) => return Err(denied),
        }
    }
    Ok(flow.end())
}
