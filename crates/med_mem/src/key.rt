// The keys of files of a snapshot, in the order of `FileKey`.
ghost use Rattle.std.specs.Prelude.{◌≡◌, IfOk};
ghost use Rattle.med_outside.specs.Snapshot.{key_of_raw};

use med_base::{FileKey, NoMemory};
use med_outside::RawKey;
use std::alloc::Global;
use std::cmp::Ordering;
use std::marker::Model;

/// A key whose parts need not be components.
#[derive(Drop)]
pub(crate) struct StoredKey {
    raw: RawKey,
}

impl Model for StoredKey {
    ghost use Rattle.med_base.specs.declared.key.FileKey.{FileKey};
    ghost use Rattle.med_outside.specs.Snapshot.{key_of_raw};

    ghost Value = { FileKey };

    ghost view = { λ k. key_of_raw k.raw };
}

fn new_raw(alloc: Global, keyspace: &str, table: &str, file: &str) -> Result<RawKey, NoMemory>
    ensures { IfOk result (λ raw. key_of_raw raw
        ≡ record { keyspace = keyspace.now; table = table.now; file = file.now }) }
{
    let keyspace = String::from_str(alloc, keyspace)?;
    let table = String::from_str(alloc, table)?;
    let file = String::from_str(alloc, file)?;
    Ok(RawKey {
        keyspace,
        table,
        file,
    })
}

// An equal key.
pub(crate) fn copy_raw(alloc: Global, raw: &RawKey) -> Result<RawKey, NoMemory>
    ensures { IfOk result (λ copy. key_of_raw copy ≡ key_of_raw raw.now) }
{
    new_raw(
        alloc,
        raw.keyspace.as_str(),
        raw.table.as_str(),
        raw.file.as_str(),
    )
}

impl StoredKey {
    /// The key that a raw one names.
    pub(crate) fn of_raw(alloc: Global, raw: &RawKey) -> Result<StoredKey, NoMemory>
        ensures { IfOk result (λ key. key ≡ key_of_raw raw.now) }
    {
        let raw = copy_raw(alloc, raw)?;
        Ok(StoredKey { raw })
    }

    /// The same key.
    pub(crate) fn of(alloc: Global, key: &FileKey) -> Result<StoredKey, NoMemory>
        ensures { IfOk result (λ stored. stored ≡ key.now) }
    {
        let raw = new_raw(
            alloc,
            key.keyspace.as_str(),
            key.table.as_str(),
            key.file.as_str(),
        )?;
        Ok(StoredKey { raw })
    }

    pub(crate) fn into_raw(self) -> RawKey
        ensures { key_of_raw result ≡ self }
    {
        self.raw
    }
}

impl PartialEq for StoredKey {
    ghost use Rattle.std.specs.Cmp.{eq_by_cmp_equiv, partial_equiv_from_equiv};
    ghost use Rattle.med_base.specs.Key.{key_eq};
    ghost use Rattle.med_base.specs.KeyOrder.{key_total};

    ghost eq = { key_eq };

    ghost laws = { partial_equiv_from_equiv (eq_by_cmp_equiv key_total) };

    fn eq(&self, other: &StoredKey) -> bool {
        self.cmp(other).is_eq()
    }
}

impl Eq for StoredKey {
    ghost use Rattle.std.specs.Cmp.{eq_by_cmp_equiv};
    ghost use Rattle.med_base.specs.KeyOrder.{key_total};

    ghost laws = { eq_by_cmp_equiv key_total };
}

impl PartialOrd for StoredKey {
    ghost use Rattle.std.specs.Cmp.{partial_order_from_total};
    ghost use Rattle.med_base.specs.Key.{key_partial_cmp};
    ghost use Rattle.med_base.specs.KeyOrder.{key_total};

    ghost partial_cmp = { key_partial_cmp };

    ghost laws = { partial_order_from_total key_total };

    fn partial_cmp(&self, other: &StoredKey) -> Option<Ordering> {
        Some(self.cmp(other))
    }
}

impl Ord for StoredKey {
    ghost use Rattle.std.specs.Prelude.{refl};
    ghost use Rattle.med_base.specs.Key.{key_cmp};
    ghost use Rattle.med_base.specs.KeyOrder.{key_total};

    ghost cmp = { key_cmp };

    ghost total = { key_total };

    ghost matches_partial_cmp = { λ _ _. refl };

    ghost matches_eq = { λ _ _. refl };

    fn cmp(&self, other: &StoredKey) -> Ordering {
        let keyspace = self.raw.keyspace.as_str().cmp(other.raw.keyspace.as_str());
        let table = self.raw.table.as_str().cmp(other.raw.table.as_str());
        let file = self.raw.file.as_str().cmp(other.raw.file.as_str());
        keyspace.then(table.then(file))
    }
}
