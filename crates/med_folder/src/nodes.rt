// Nodes as folders.
ghost use Rattle.std.specs.Prelude.{◌≡◌, [], IfOk};
ghost use Rattle.med_outside.specs.Counts.{tagged};
ghost use Rattle.med_folder.specs.Untold.{untold_nodes};

use crate::FolderSnap;
use crate::faults::counted;
use crate::snap::node_folder;
use med_base::Fqdn;
use med_outside::{Denied, Nodes, OpenSnapshots};
use std::alloc::Global;
use std::fs::Files;
use std::marker::Model;

/// The nodes whose folders lie below a root: the data of the node `f` in `<root>/<f>/data`, its
/// schema in `<root>/<f>/schema.cql`, its ring in `<root>/<f>/ring.json`.
#[derive(Drop)]
pub struct FolderNodes<R> {
    rt: R,
    faults: u64,
    snapshots: OpenSnapshots,
}

impl<R> Model for FolderNodes<R> {
    ghost use Rattle.med_folder.specs.Untold.{FolderNodesState};

    ghost Value = { FolderNodesState };

    ghost view = { λ s. record { faults = s.faults; counts = s.snapshots } };
}

impl<R> FolderNodes<R> {
    /// Nodes without a fault, of which no snapshot was opened.
    pub fn new(alloc: Global, rt: R) -> FolderNodes<R>
        ensures { result ≡ record {
          faults = 0;
          counts = record { opened = 0; still_open = []; last = tagged [] [] [] };
        } }
    {
        FolderNodes {
            rt,
            faults: 0,
            snapshots: OpenSnapshots::none(alloc),
        }
    }
}

impl<R: Files + AllocGlobal + Clone + Drop> Nodes for FolderNodes<R> {
    type Snap = FolderSnap<R>;

    ghost state = { untold_nodes };

    fn open(
        &mut self,
        alloc: Global,
        root: &str,
        node: &Fqdn,
        tag: &str,
    ) -> Result<FolderSnap<R>, Denied> {
        let node = node.as_str();
        let outcome = node_folder(&self.rt, alloc, root, node, tag);
        let folder = counted(&mut self.faults, outcome)?;
        let opened = self.snapshots.open(alloc, root, node, tag)?;
        Ok(FolderSnap::new(alloc, folder, opened))
    }

    fn close(&mut self, snap: FolderSnap<R>) {
        self.faults = self.faults.saturating_add(snap.fault_count());
        self.snapshots.close(snap.opened_for());
    }
}
