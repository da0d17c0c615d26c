// What snapshots were opened for, and which of them are open.
ghost use Rattle.std.specs.Prelude.{◌≡◌, [], IfOk, OnOk, OnErr};
ghost use Rattle.med_outside.specs.Counts.{tagged, is_same, with_opened, with_closed};
ghost use Rattle.med_outside.specs.OpenPlaces.{IsPlaceOf};

use med_base::NoMemory;
use std::alloc::Global;
use std::marker::Model;

/// A root, a node and a tag, for which nodes open a snapshot.
#[derive(Debug, Drop)]
pub struct OpenedFor {
    root: String,
    node: String,
    tag: String,
}

impl Model for OpenedFor {
    ghost use Rattle.std.specs.Prelude.{string_bytes};
    ghost use Rattle.med_outside.specs.Counts.{Tagged, tagged};

    ghost Value = { Tagged };

    ghost view = { λ o. tagged (string_bytes o.root) (string_bytes o.node) (string_bytes o.tag) };
}

impl OpenedFor {
    /// Three empty texts, of nodes that opened nothing yet. It takes no memory.
    pub fn nothing(alloc: Global) -> OpenedFor
        ensures { result ≡ tagged [] [] [] }
    {
        OpenedFor {
            root: String::new(alloc),
            node: String::new(alloc),
            tag: String::new(alloc),
        }
    }

    /// The three texts.
    pub fn of(alloc: Global, root: &str, node: &str, tag: &str) -> Result<OpenedFor, NoMemory>
        ensures { IfOk result (λ opened. opened ≡ tagged root.now node.now tag.now) }
    {
        let root = String::from_str(alloc, root)?;
        let node = String::from_str(alloc, node)?;
        let tag = String::from_str(alloc, tag)?;
        Ok(OpenedFor { root, node, tag })
    }

    fn is_same(&self, other: &OpenedFor) -> bool
        ensures { result ≡ is_same self.now other.now }
    {
        self.root.as_str() == other.root.as_str()
            && self.node.as_str() == other.node.as_str()
            && self.tag.as_str() == other.tag.as_str()
    }
}

/// Which snapshots of nodes are open, and how many were opened.
#[derive(Debug, Drop)]
pub struct OpenSnapshots {
    still_open: Vec<OpenedFor>,
    opened: u64,
    last: OpenedFor,
}

impl Model for OpenSnapshots {
    ghost use Rattle.med_outside.specs.Counts.{SnapshotCounts};

    ghost Value = { SnapshotCounts };

    ghost view = { λ s. record {
      opened = s.opened;
      still_open = s.still_open.items;
      last = s.last;
    } };
}

// The place of the first that is this one.
fn place_of(still_open: &[OpenedFor], of: &OpenedFor) -> Option<usize>
    ensures { IsPlaceOf of.now still_open.now result }
{
    for (i, opened) in still_open.iter().enumerate() {
        if of.is_same(opened) {
            return Some(i);
        }
    }
    None
}

impl OpenSnapshots {
    /// None were opened yet. It takes no memory.
    pub fn none(alloc: Global) -> OpenSnapshots
        ensures { result ≡ record { opened = 0; still_open = []; last = tagged [] [] [] } }
    {
        OpenSnapshots {
            still_open: Vec::new(alloc),
            opened: 0,
            last: OpenedFor::nothing(alloc),
        }
    }

    /// Notes that a snapshot is opened, and answers what for.
    pub fn open(
        &mut self,
        alloc: Global,
        root: &str,
        node: &str,
        tag: &str,
    ) -> Result<OpenedFor, NoMemory>
        ensures value { IfOk result (λ of. of ≡ tagged root.now node.now tag.now) }
        ensures ok { OnOk result
            (self.new ≡ with_opened (tagged root.now node.now tag.now) self.old) }
        ensures err { OnErr result (self.new ≡ self.old) }
    {
        let last = OpenedFor::of(alloc, root, node, tag)?;
        let here = OpenedFor::of(alloc, root, node, tag)?;
        let answer = OpenedFor::of(alloc, root, node, tag)?;
        self.still_open.insert(0, here)?;
        self.opened = self.opened.saturating_add(1);
        self.last = last;
        Ok(answer)
    }

    /// Notes that one that was opened for this is closed. It takes no memory.
    pub fn close(&mut self, of: &OpenedFor)
        ensures { self.new ≡ with_closed of.now self.old }
    {
        if let Some(i) = place_of(self.still_open.as_slice(), of) {
            self.still_open.remove(i);
        }
    }
}
