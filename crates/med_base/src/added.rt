// The bytes that were added to a fingerprint, for clauses and proofs alone.
ghost use Rattle.std.specs.Prelude.{◌≡◌, ℕ, List, [], ◌++◌};
ghost use Rattle.std.specs.Borrow.{ftrue};

use std::marker::Model;

// It has no bytes of its own, and its methods do nothing when the program runs. The list can't be
// read off a hasher's state, which is the same for many lists, so it stands beside the hasher.
#[derive(Drop)]
pub(crate) struct Added {
    ghost bytes: { List ℕ },
}

impl Model for Added {
    ghost also_owns = { λ _. ftrue };
}

impl Added {
    pub(crate) fn none() -> Added
        ensures { result.bytes ≡ [] }
    {
        Added {}
    }

    pub(crate) fn then(&self, _bytes: &[u8]) -> Added
        ensures { result.bytes ≡ self.now.bytes ++ _bytes.now }
    {
        Added {}
    }
}
