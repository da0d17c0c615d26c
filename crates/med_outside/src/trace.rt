// What calls changed, as they record it.
ghost use Rattle.std.specs.Prelude.{◌≡◌, ◌≤◌, [], false, IfOk, OnOk};
ghost use Rattle.med_outside.specs.Makes.{spare};

use med_base::{Fingerprint, NoMemory, ObjPath};
use std::alloc::Global;
use std::marker::Model;

/// The bytes of a small object, as a change records them.
#[derive(Debug, Drop)]
pub struct Text {
    bytes: Vec<u8>,
}

impl Model for Text {
    ghost use Rattle.std.specs.Prelude.{List, ℕ};

    ghost Value = { List ℕ };

    ghost view = { λ t. t.bytes.items };
}

impl Text {
    /// A copy of the bytes.
    pub fn of(alloc: Global, bytes: &[u8]) -> Result<Text, NoMemory>
        ensures { IfOk result (λ text. text ≡ bytes.now) }
    {
        let bytes = bytes.to_vec(alloc)?;
        Ok(Text { bytes })
    }

    /// The bytes.
    pub fn bytes(&self) -> &[u8]
        ensures { result.now ≡ self.now }
    {
        self.bytes.as_slice()
    }
}

/// A change of a storage that was made, or that may have been made.
#[derive(Debug, Drop)]
pub enum Change {
    /// An object was stored. The second isn't told of a put that answered `Failed`; the bytes are
    /// told of each object but the files of backups.
    Put {
        path: ObjPath,
        fingerprint: Fingerprint,
        second: Option<u64>,
        text: Option<Text>,
    },
    /// No object has the path.
    Delete {
        path: ObjPath,
    },
}

/// The changes that calls made, in order.
#[derive(Debug, Drop)]
pub struct Trace {
    pub changes: Vec<Change>,
    /// The last change answered `Failed`: it took effect, or it didn't.
    pub unsure: bool,
}

impl Trace {
    /// A trace of no changes. It takes no memory.
    pub fn new(alloc: Global) -> Trace
        ensures changes { result.changes.items ≡ [] }
        ensures unsure { result.unsure ≡ false }
    {
        Trace {
            changes: Vec::new(alloc),
            unsure: false,
        }
    }

    /// Takes memory for so many more changes.
    pub fn reserve(&mut self, more: usize) -> Result<(), NoMemory>
        ensures ok { OnOk result (more ≤ spare self.new) }
        ensures changes { self.new.changes.items ≡ self.old.changes.items }
        ensures unsure { self.new.unsure ≡ self.old.unsure }
    {
        self.changes.reserve(more)?;
        Ok(())
    }
}

/// Which calls change the part of a node as one group, that no other group of the node interrupts.
#[derive(Clone, Copy, Debug, PartialEq, Eq)]
pub enum Section {
    Claim,
    Place,
    Finish,
    Abandon,
    Remove,
    Rebuild,
}
