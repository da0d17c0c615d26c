// Pieces of an object or of a file.
ghost use Rattle.std.specs.Prelude.{◌≡◌, ◌≤◌, IfOk, length};
ghost use Rattle.med_outside.specs.Pieces.{piece_size};

use med_base::NoMemory;
use std::alloc::Global;
use std::marker::Model;

/// How many bytes a piece has at most.
pub const PIECE: usize = 1_048_576;

/// Some bytes of an object or of a file in a row, at most [`PIECE`].
#[derive(Debug, Drop)]
pub struct Piece {
    bytes: Vec<u8>,
}

impl Model for Piece {
    ghost use Rattle.std.specs.Prelude.{List, ℕ, ◌≤◌, length};
    ghost use Rattle.med_outside.specs.Pieces.{piece_size};

    ghost Value = { List ℕ };

    ghost view = { λ p. p.bytes.items };

    ghost invariant = { λ p. length p.bytes.items ≤ piece_size };
}

impl Piece {
    /// A copy of the bytes, of which there are at most [`PIECE`].
    pub fn of(alloc: Global, bytes: &[u8]) -> Result<Piece, NoMemory>
        requires { length bytes.now ≤ piece_size }
        ensures { IfOk result (λ piece. piece ≡ bytes.now) }
    {
        let bytes = bytes.to_vec(alloc)?;
        Ok(Piece { bytes })
    }

    /// The bytes themselves, of which there are at most [`PIECE`]. It takes no memory.
    pub fn from_vec(bytes: Vec<u8>) -> Piece
        requires { length bytes.items ≤ piece_size }
        ensures { result ≡ bytes.items }
    {
        Piece { bytes }
    }

    /// The bytes.
    pub fn bytes(&self) -> &[u8]
        ensures value { result.now ≡ self.now }
        ensures fits { length self.now ≤ piece_size }
    {
        self.bytes.as_slice()
    }
}
