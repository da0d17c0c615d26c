// Uploads to a storage in memory.
ghost use Rattle.std.specs.Prelude.{◌≡◌, Some, IfOk, option_map};
ghost use Rattle.med_base.specs.Fingerprint.{fingerprint_of};
ghost use Rattle.med_outside.specs.Pieces.{begun, with_piece};
ghost use Rattle.med_outside.specs.State.{Upload};
ghost use Rattle.med_mem.specs.Uploads.{upload_of};

use med_base::{Fingerprint, NoMemory, ObjPath};
use med_outside::Piece;
use std::alloc::Global;

/// An object that is being stored in pieces: where, and its bytes so far.
#[derive(Drop)]
pub(crate) struct MemUpload {
    pub(crate) path: ObjPath,
    pub(crate) bytes: Vec<u8>,
}

/// An upload without bytes yet.
pub(crate) fn begin_upload(alloc: Global, path: &ObjPath) -> Result<Option<MemUpload>, NoMemory>
    ensures { IfOk result (λ upload. upload_of upload ≡ Some (begun path.now)) }
{
    let path = path.copy(alloc)?;
    Ok(Some(MemUpload {
        path,
        bytes: Vec::new(alloc),
    }))
}

/// The same upload with more bytes, if there is one.
pub(crate) fn grow_upload(
    upload: Option<MemUpload>,
    piece: &Piece,
) -> Result<Option<MemUpload>, NoMemory>
    ensures { IfOk result (λ grown. upload_of grown ≡ with_piece piece.now (upload_of upload)) }
{
    match upload {
        Some(mut upload) => {
            upload.bytes.extend_from_slice(piece.bytes())?;
            Ok(Some(upload))
        }
        None => Ok(None),
    }
}

/// The fingerprint of the bytes so far, if there is an upload.
pub(crate) fn print_of(upload: &Option<MemUpload>) -> Option<Fingerprint>
    ensures { result
        ≡ option_map (λ (u : Upload). fingerprint_of u.bytes) (upload_of upload.now) }
{
    match upload {
        Some(upload) => Some(Fingerprint::of(upload.bytes.as_slice())),
        None => None,
    }
}
