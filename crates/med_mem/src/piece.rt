// Pieces of bytes in memory.
ghost use Rattle.std.specs.Prelude.{◌≡◌, IfOk};
ghost use Rattle.med_outside.specs.Pieces.{piece_at, EndsInRange};

use med_base::NoMemory;
use med_outside::{PIECE, Piece};
use std::alloc::Global;

/// The bytes from a place on, as many as there are up to a piece.
pub(crate) fn piece_of(alloc: Global, bytes: &[u8], from: u64) -> Result<Piece, NoMemory>
    ensures piece { IfOk result (λ piece. piece ≡ piece_at from bytes.now) }
    ensures range { IfOk result (EndsInRange from) }
{
    let (_, rest) = bytes.split_at((from as usize).min(bytes.len()));
    let (first, _) = rest.split_at(PIECE.min(rest.len()));
    Piece::of(alloc, first)
}
