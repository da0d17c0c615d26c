// The nodes, and the snapshots that they open.
ghost use Rattle.std.specs.Prelude.{◌≡◌, ◌≤◌, ◌+◌, ◌-◌, ◌^◌, Some, IfOk, IfSome, map, min, option_map};
ghost use Rattle.std.specs.FinMap as finite;
ghost use Rattle.med_outside.specs.Causes.{HasCause};
ghost use Rattle.med_outside.specs.Counts.{after_open, tagged, with_closed};
ghost use Rattle.med_outside.specs.Pieces.{EndsInRange, piece_at};
ghost use Rattle.med_outside.specs.Snapshot.{SnapState, StaysOpen, key_of_raw, HasKey, IsListed};
ghost use Rattle.med_outside.specs.World.{NodesState, just_opened};

use crate::{Denied, Piece};
use med_base::{FileKey, Fqdn};
use std::alloc::Global;

/// The key of a file as a snapshot lists it: three texts, which need not be components.
#[derive(Debug, Drop)]
pub struct RawKey {
    pub keyspace: String,
    pub table: String,
    pub file: String,
}

/// The files of a node under one snapshot tag, and the schema and the ring of the node. No call
/// changes what it holds.
pub trait Snap: Drop {
    /// What it holds, where it tells; how often a call failed; and what it was opened for.
    ghost state: { Self → SnapState };

    /// The keys of all files without repeats, in the order that the snapshot tells.
    fn keys(&mut self, alloc: Global) -> Result<Vec<RawKey>, Denied>
        ensures keys { IfOk result
            (λ keys. IfSome (state self.old).held (λ s. map key_of_raw keys.items ≡ s.order)) }
        ensures same { StaysOpen (state self.old) (state self.new) }
        ensures cause { HasCause (state self.old).faults (state self.new).faults result };

    /// The bytes of a file from a place on, as many as there are up to a piece. Its key must be one
    /// of the snapshot's. A file ends at the first piece that isn't full.
    fn read_piece(&mut self, alloc: Global, key: &FileKey, from: u64) -> Result<Piece, Denied>
        requires { IfSome (state self.old).held (HasKey key.now) }
        ensures piece { IfOk result
            (λ piece. IfSome (state self.old).held
            (λ s. Some piece ≡ option_map (piece_at from) (finite.get s.files key.now))) }
        ensures range { IfOk result (EndsInRange from) }
        ensures same { StaysOpen (state self.old) (state self.new) }
        ensures cause { HasCause (state self.old).faults (state self.new).faults result };

    /// The text of the schema.
    fn schema(&mut self, alloc: Global) -> Result<Vec<u8>, Denied>
        ensures bytes { IfOk result
            (λ bytes. IfSome (state self.old).held (λ s. bytes.items ≡ s.schema)) }
        ensures same { StaysOpen (state self.old) (state self.new) }
        ensures cause { HasCause (state self.old).faults (state self.new).faults result };

    /// The text of the ring.
    fn ring(&mut self, alloc: Global) -> Result<Vec<u8>, Denied>
        ensures bytes { IfOk result
            (λ bytes. IfSome (state self.old).held (λ s. bytes.items ≡ s.ring)) }
        ensures same { StaysOpen (state self.old) (state self.new) }
        ensures cause { HasCause (state self.old).faults (state self.new).faults result };

    /// What it tells of its order is a list of its keys, each once.
    ghost listed_once: { (snap : Self) → IfSome (state snap).held IsListed };
}

pub trait Nodes {
    type Snap: Snap;

    /// The snapshots, where it tells; how often a call failed, of the snapshots that were closed
    /// too; which snapshots are open, and how many were opened.
    ghost state: { Self → NodesState };

    /// The snapshot of the node with the tag. It has no keys where there is none. It changes
    /// nothing, and the snapshot's own count of faults begins at 0.
    fn open(
        &mut self,
        alloc: Global,
        root: &str,
        node: &Fqdn,
        tag: &str,
    ) -> Result<Self::Snap, Denied>
        ensures ok { IfOk result
            (λ snap. Self.Snap.state snap
            ≡ just_opened (tagged root.now node.now tag.now) (state self.old).snaps) }
        ensures same { (state self.new).snaps ≡ (state self.old).snaps }
        ensures counts { (state self.new).counts
            ≡ after_open result (tagged root.now node.now tag.now) (state self.old).counts }
        ensures cause { HasCause (state self.old).faults (state self.new).faults result };

    /// Gives a snapshot up. Its faults count with those of the nodes from now on. It takes no
    /// memory and is never refused.
    fn close(&mut self, snap: Self::Snap)
        ensures same { (state self.new).snaps ≡ (state self.old).snaps }
        ensures counts { (state self.new).counts
            ≡ with_closed (Self.Snap.state snap).of (state self.old).counts }
        ensures later { (state self.old).faults ≤ (state self.new).faults }
        ensures faults { (state self.new).faults
            ≡ min ((state self.old).faults + (Self.Snap.state snap).faults)
            (2 ^ 64 - 1) };
}
