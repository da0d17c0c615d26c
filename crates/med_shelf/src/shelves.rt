// One node's part of the product.
ghost use Rattle.std.specs.Prelude.{◌≡◌, []};

use med_base::{BackupName, Fqdn, Layout};
use std::alloc::Global;
use std::marker::Model;

/// One node's part of the product: the layout of the bucket, the node, and the names of the backups
/// that are being made, the last one first.
#[derive(Drop)]
pub struct Shelf {
    pub(crate) layout: Layout,
    pub(crate) node: Fqdn,
    pub(crate) running: Vec<BackupName>,
}

impl Model for Shelf {
    ghost use Rattle.med_shelf.specs.Shelf.{ShelfState};

    ghost Value = { ShelfState };

    ghost view = { λ s. record { layout = s.layout; node = s.node; running = s.running.items } };
}

impl Shelf {
    /// A shelf on which no backup is being made.
    pub fn new(alloc: Global, layout: Layout, node: Fqdn) -> Shelf
        ensures { result ≡ record { layout = layout; node = node; running = [] } }
    {
        Shelf {
            layout,
            node,
            running: Vec::new(alloc),
        }
    }

    pub fn layout(&self) -> &Layout
        ensures { result.now ≡ self.now.layout }
    {
        &self.layout
    }

    pub fn node(&self) -> &Fqdn
        ensures { result.now ≡ self.now.node }
    {
        &self.node
    }

    /// The names of the backups that are being made, the last one first.
    pub fn running(&self) -> &[BackupName]
        ensures { result.now ≡ self.now.running }
    {
        self.running.as_slice()
    }
}
