// The bytes of an upload so far, measured as they come.
ghost use Rattle.std.specs.Prelude.{◌≡◌, ◌++◌, [], OnOk};
ghost use Rattle.med_base.specs.Fingerprint.{fingerprint_of};
ghost use Rattle.med_folder.specs.Uploads.{bytes_of};

use med_base::{Fingerprint, Flow};
use std::io;
use std::io::ErrorKind;
use std::marker::Model;
use std::snapshot::Snapshot;

/// A fingerprint, seen as the list of the bytes of which it is. It keeps none of them.
#[derive(Drop)]
pub(crate) struct Ended {
    fingerprint: Fingerprint,
    flow: Snapshot<Flow>,
}

impl Model for Ended {
    ghost use Rattle.std.specs.Prelude.{◌≡◌, List, ℕ};
    ghost use Rattle.med_base.specs.Fingerprint.{fingerprint_of};

    ghost Value = { List ℕ };

    ghost view = { λ e. e.flow.value };

    ghost invariant = { λ e. e.fingerprint ≡ fingerprint_of e.flow.value };
}

impl Ended {
    fn of(flow: Flow) -> Ended
        ensures { result ≡ flow }
    {
        let seen = Snapshot::of(&flow);
        Ended {
            fingerprint: flow.end(),
            flow: seen,
        }
    }

    pub(crate) fn fingerprint(&self) -> Fingerprint
        ensures { result ≡ fingerprint_of self.now }
    {
        self.fingerprint
    }
}

/// The bytes of an upload: those so far, or all of them, once their fingerprint was asked for.
#[derive(Drop)]
pub(crate) enum Written {
    Flowing(Flow),
    Whole(Ended),
}

// Adds bytes to a flow, unless their number would have no 64 bits.
fn add_to(flow: &mut Flow, bytes: &[u8]) -> io::Result<()>
    ensures { OnOk result (flow.new ≡ flow.old ++ bytes.now) }
{
    if flow.size().checked_add(bytes.len() as u64).is_none() {
        return Err(io::Error::from(ErrorKind::FileTooLarge));
    }
    flow.add(bytes);
    Ok(())
}

impl Written {
    pub(crate) fn none() -> Written
        ensures { bytes_of result ≡ [] }
    {
        Written::Flowing(Flow::new())
    }

    /// Adds bytes behind those so far. Where they were all, it refuses.
    pub(crate) fn add(&mut self, bytes: &[u8]) -> io::Result<()>
        ensures { OnOk result (bytes_of self.new ≡ bytes_of self.old ++ bytes.now) }
    {
        match self {
            Written::Flowing(flow) => add_to(flow, bytes),
            Written::Whole(_) => Err(io::Error::from(ErrorKind::InvalidInput)),
        }
    }

    /// The fingerprint of the bytes, which are all of them.
    pub(crate) fn end(self) -> Ended
        ensures { result ≡ bytes_of self }
    {
        match self {
            Written::Flowing(flow) => Ended::of(flow),
            Written::Whole(ended) => ended,
        }
    }
}
