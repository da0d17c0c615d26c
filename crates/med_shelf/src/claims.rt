// A backup that is being made.
ghost use Rattle.std.specs.Prelude.{◌≡◌, ◌↔◌, true, Contains};
ghost use Rattle.med_shelf.specs.Records.{keys_of};

use med_base::{BackupName, FileKey, Fqdn, Layout};
use med_core::{Mode, Record};
use std::marker::Model;

/// A backup that is being made: it has a name of its own, and records of the files that were placed.
#[derive(Drop)]
pub struct Claim {
    pub(crate) layout: Layout,
    pub(crate) node: Fqdn,
    pub(crate) name: BackupName,
    pub(crate) mode: Mode,
    pub(crate) records: Vec<Record>,
}

impl Model for Claim {
    ghost use Rattle.med_shelf.specs.Shelf.{ClaimState};
    ghost use Rattle.med_shelf.specs.Records.{AreRecordsOf};

    ghost Value = { ClaimState };

    ghost view = { λ c. record {
      layout = c.layout;
      node = c.node;
      name = c.name;
      mode = c.mode;
      records = c.records.items;
    } };

    // Each record is of a file of the backup, and no key stands twice.
    ghost invariant = { λ c. AreRecordsOf c.layout c.node c.name c.records.items };
}

impl Claim {
    pub fn node(&self) -> &Fqdn
        ensures { result.now ≡ self.now.node }
    {
        &self.node
    }

    pub fn name(&self) -> &BackupName
        ensures { result.now ≡ self.now.name }
    {
        &self.name
    }

    pub fn mode(&self) -> Mode
        ensures { result ≡ self.now.mode }
    {
        self.mode
    }

    /// The records of the files that were placed, in the order in which they were.
    pub fn records(&self) -> &[Record]
        ensures { result.now ≡ self.now.records }
    {
        self.records.as_slice()
    }

    /// Whether the file of the key was placed.
    pub fn has(&self, key: &FileKey) -> bool
        ensures { (result ≡ true) ↔ Contains (keys_of self.now.records) key.now }
    {
        self.records.iter().any(|record| record.file.key == *key)
    }
}
