// The fingerprint of bytes that come in pieces.
ghost use Rattle.std.specs.Prelude.{◌≡◌, ◌+◌, ◌-◌, ◌^◌, ◌≤◌, [], ◌++◌, length};
ghost use Rattle.med_base.specs.Fingerprint.{fingerprint_of};

use crate::Fingerprint;
use crate::added::Added;
use md5::{Digest, Md5};
use std::marker::Model;

/// A fingerprint in the making: of bytes that come in pieces, seen as the list of all of them, in
/// order. It keeps none of the bytes, and takes no memory.
#[derive(Drop)]
pub struct Flow {
    hasher: Md5,
    size: u64,
    added: Added,
}

impl Model for Flow {
    ghost use Rattle.std.specs.Prelude.{◌≡◌, List, ℕ, length};
    ghost use Rattle.md5.specs.Md5.{Holds};

    ghost Value = { List ℕ };

    ghost view = { λ f. f.added.bytes };

    ghost invariant = { λ f. Holds f.hasher f.added.bytes × (f.size ≡ length f.added.bytes) };
}

impl Flow {
    /// No bytes.
    pub fn new() -> Flow
        ensures { result ≡ [] }
    {
        Flow {
            hasher: Md5::new(),
            size: 0,
            added: Added::none(),
        }
    }

    /// The number of bytes that were added.
    pub fn size(&self) -> u64
        ensures { result ≡ length self.now }
    {
        self.size
    }

    /// Adds a piece, which may be empty, behind the bytes so far.
    pub fn add(&mut self, bytes: &[u8])
        requires { length self.old + length bytes.now ≤ 2 ^ 64 - 1 }
        ensures { self.new ≡ self.old ++ bytes.now }
    {
        self.hasher.update(bytes);
        self.size += bytes.len() as u64;
        self.added = self.added.then(bytes);
    }

    /// The fingerprint of all bytes that were added, as `Fingerprint::of` gives it of them in one
    /// piece.
    pub fn end(self) -> Fingerprint
        ensures { result ≡ fingerprint_of self }
    {
        Fingerprint {
            size: self.size,
            md5: self.hasher.finalize(),
        }
    }
}
