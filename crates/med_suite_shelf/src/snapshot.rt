// A snapshot that tells nothing.
ghost use Rattle.std.specs.Prelude.{[], None, IfOk};
ghost use Rattle.med_outside.specs.Pieces.{EndsInRange};

use med_base::{FileKey, NoMemory};
use med_outside::{Denied, PIECE, Piece, RawKey, Snap};
use std::alloc::Global;

/// Every file has these bytes: some at the first read, and others later. One read may fail.
#[derive(Drop)]
pub(crate) struct Changing {
    first: &'static str,
    later: &'static str,
    failing: Option<u64>,
    reads: u64,
    faults: u64,
}

impl Changing {
    /// A snapshot whose files don't change.
    pub(crate) fn of(text: &'static str) -> Changing {
        Changing::between(text, text)
    }

    /// One whose files have the first bytes at the first read, and the others later.
    pub(crate) fn between(first: &'static str, later: &'static str) -> Changing {
        Changing {
            first,
            later,
            failing: None,
            reads: 0,
            faults: 0,
        }
    }

    /// One whose files don't change. Its read of that number fails, counted from 1.
    pub(crate) fn failing_at(text: &'static str, read: Option<u64>) -> Changing {
        Changing {
            first: text,
            later: text,
            failing: read,
            reads: 0,
            faults: 0,
        }
    }
}

// The bytes from a place on, as many as a piece has.
fn piece_of(alloc: Global, bytes: &[u8], from: u64) -> Result<Piece, NoMemory>
    ensures { IfOk result (EndsInRange from) }
{
    let start = from.min(bytes.len() as u64) as usize;
    let rest = &bytes[start..];
    Piece::of(alloc, &rest[..rest.len().min(PIECE)])
}

impl Snap for Changing {
    ghost use Rattle.med_outside.specs.Counts.{tagged};

    ghost state = { λ s. record { held = None; faults = s.faults; of = tagged [] [] [] } };

    fn keys(&mut self, alloc: Global) -> Result<Vec<RawKey>, Denied> {
        Ok(Vec::new(alloc))
    }

    fn read_piece(&mut self, alloc: Global, _key: &FileKey, from: u64) -> Result<Piece, Denied> {
        let text = if self.reads == 0 {
            self.first
        } else {
            self.later
        };
        self.reads = self.reads.saturating_add(1);
        if self.failing == Some(self.reads) {
            self.faults = self.faults.saturating_add(1);
            return Err(Denied::Failed);
        }
        Ok(piece_of(alloc, text.as_bytes(), from)?)
    }

    fn schema(&mut self, alloc: Global) -> Result<Vec<u8>, Denied> {
        Ok(Vec::new(alloc))
    }

    fn ring(&mut self, alloc: Global) -> Result<Vec<u8>, Denied> {
        Ok(Vec::new(alloc))
    }

    ghost listed_once = { λ _. tt };
}
