// The key of a file in a snapshot.
ghost use Rattle.std.specs.Prelude.{◌≡◌, IfOk, string_bytes};
ghost use Rattle.med_base.specs.Layout.{key_text};

use crate::{Component, NoMemory};
use std::alloc::Global;
use std::cmp::Ordering;

/// What tells the files of a snapshot apart: keyspace, table and file name. Keys are in order of
/// these three, each by its bytes.
#[derive(Debug, Drop)]
pub struct FileKey {
    pub keyspace: Component,
    pub table: Component,
    pub file: Component,
}

impl FileKey {
    /// An equal key.
    pub fn copy(&self, alloc: Global) -> Result<FileKey, NoMemory>
        ensures { IfOk result (λ key. key ≡ self.now) }
    {
        let keyspace = self.keyspace.copy(alloc)?;
        let table = self.table.copy(alloc)?;
        let file = self.file.copy(alloc)?;
        Ok(FileKey {
            keyspace,
            table,
            file,
        })
    }

    /// The path of the file below a folder of data.
    pub(crate) fn text(&self, alloc: Global) -> Result<String, NoMemory>
        ensures { IfOk result (λ text. string_bytes text ≡ key_text self.now) }
    {
        let keyspace = self.keyspace.as_str();
        let table = self.table.as_str();
        let file = self.file.as_str();
        Ok(format!(in alloc; "{keyspace}/{table}/{file}")?)
    }
}

impl PartialEq for FileKey {
    ghost use Rattle.std.specs.Cmp.{eq_by_cmp_equiv, partial_equiv_from_equiv};
    ghost use Rattle.med_base.specs.Key.{key_eq};
    ghost use Rattle.med_base.specs.KeyOrder.{key_total};

    ghost eq = { key_eq };

    ghost laws = { partial_equiv_from_equiv (eq_by_cmp_equiv key_total) };

    fn eq(&self, other: &FileKey) -> bool {
        self.cmp(other).is_eq()
    }
}

impl Eq for FileKey {
    ghost use Rattle.std.specs.Cmp.{eq_by_cmp_equiv};
    ghost use Rattle.med_base.specs.KeyOrder.{key_total};

    ghost laws = { eq_by_cmp_equiv key_total };
}

impl PartialOrd for FileKey {
    ghost use Rattle.std.specs.Cmp.{partial_order_from_total};
    ghost use Rattle.med_base.specs.Key.{key_partial_cmp};
    ghost use Rattle.med_base.specs.KeyOrder.{key_total};

    ghost partial_cmp = { key_partial_cmp };

    ghost laws = { partial_order_from_total key_total };

    fn partial_cmp(&self, other: &FileKey) -> Option<Ordering> {
        Some(self.cmp(other))
    }
}

impl Ord for FileKey {
    ghost use Rattle.std.specs.Prelude.{refl};
    ghost use Rattle.med_base.specs.Key.{key_cmp};
    ghost use Rattle.med_base.specs.KeyOrder.{key_total};

    ghost cmp = { key_cmp };

    ghost total = { key_total };

    ghost matches_partial_cmp = { λ _ _. refl };

    ghost matches_eq = { λ _ _. refl };

    fn cmp(&self, other: &FileKey) -> Ordering {
        let keyspace = self.keyspace.as_str().cmp(other.keyspace.as_str());
        let table = self.table.as_str().cmp(other.table.as_str());
        let file = self.file.as_str().cmp(other.file.as_str());
        keyspace.then(table.then(file))
    }
}
