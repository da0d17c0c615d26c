// A snapshot whose files are found by their keys.
ghost use Rattle.std.specs.Prelude.{◌≡◌, [], IsSome, Some, IfOk, map, option_map, slice_get};
ghost use Rattle.std.specs.BTreeMap.{get};
ghost use Rattle.std.specs.FinMap.{find};
ghost use Rattle.med_base.specs.Key.{key_cmp};
ghost use Rattle.med_outside.specs.Pieces.{piece_at, EndsInRange};
ghost use Rattle.med_outside.specs.Snapshot.{key_of_raw};
ghost use Rattle.med_mem.specs.FirstPlaces.{IsIndex, is_before};
ghost use Rattle.med_mem.specs.Snaps.{files_of, order_of, parts_of};

use crate::key::StoredKey;
use crate::piece::piece_of;
use crate::snapshot::{MemFile, MemSnap};
use med_base::{FileKey, NoMemory};
use med_outside::{Piece, RawKey};
use std::alloc::Global;
use std::collections::BTreeMap;
use std::marker::Model;

/// A snapshot, and the place of the first file of each key.
#[derive(Drop)]
pub(crate) struct Indexed {
    snap: MemSnap,
    index: BTreeMap<StoredKey, usize>,
}

impl Model for Indexed {
    ghost use Rattle.med_mem.specs.FirstPlaces.{IsIndex};
    ghost use Rattle.med_mem.specs.Snaps.{Parts, parts_of};

    ghost Value = { Parts };

    ghost view = { λ s. parts_of s.snap };

    ghost invariant = { λ s. IsIndex s.index s.snap.files.items };
}

// The place of the first file of each key. The last files are put first, so that a file takes the
// place of one behind it.
fn index_of(alloc: Global, files: &[MemFile]) -> Result<BTreeMap<StoredKey, usize>, NoMemory>
    ensures { IfOk result (λ index. IsIndex index files.now) }
{
    let mut index = BTreeMap::new(alloc);
    for i in (0..files.len()).rev() {
        let key = StoredKey::of_raw(alloc, &files[i].key)?;
        index.insert(key, i)?;
    }
    Ok(index)
}

// Whether the first file of the key stands before that place.
fn is_first_before(index: &BTreeMap<StoredKey, usize>, key: &StoredKey, at: usize) -> bool
    ensures { result ≡ is_before at (get key_cmp index.now key.now) }
{
    match index.get(key) {
        Some(first) => *first < at,
        None => false,
    }
}

// The keys without repeats, in the order of first occurrence.
fn list_keys(
    alloc: Global,
    files: &[MemFile],
    index: &BTreeMap<StoredKey, usize>,
) -> Result<Vec<RawKey>, NoMemory>
    requires { IsIndex index.now files.now }
    ensures { IfOk result (λ keys. map key_of_raw keys.items ≡ order_of (files_of files.now)) }
{
    let mut keys = Vec::new(alloc);
    for (i, file) in files.iter().enumerate() {
        let key = StoredKey::of_raw(alloc, &file.key)?;
        if !is_first_before(index, &key, i) {
            keys.push(key.into_raw())?;
        }
    }
    Ok(keys)
}

// The bytes of the file at that place.
fn bytes_at<'a>(files: &'a [MemFile], at: usize) -> Option<&'a [u8]>
    ensures { option_map (λ bytes. bytes.now) result
        ≡ option_map (λ file. file.bytes.items) (slice_get files.now at) }
{
    match files.get(at) {
        Some(file) => Some(file.bytes.as_slice()),
        None => None,
    }
}

// The bytes of the first file of the key.
fn find_bytes<'a>(
    files: &'a [MemFile],
    index: &BTreeMap<StoredKey, usize>,
    key: &StoredKey,
) -> Option<&'a [u8]>
    requires { IsIndex index.now files.now }
    ensures { option_map (λ bytes. bytes.now) result ≡ find key_cmp key.now (files_of files.now) }
{
    match index.get(key) {
        Some(first) => bytes_at(files, *first),
        None => None,
    }
}

impl Indexed {
    /// The snapshot itself.
    pub(crate) fn of(alloc: Global, snap: MemSnap) -> Result<Indexed, NoMemory>
        ensures { IfOk result (λ s. s ≡ parts_of snap) }
    {
        let index = index_of(alloc, snap.files.as_slice())?;
        Ok(Indexed { snap, index })
    }

    /// A snapshot without files, schema and ring. It takes no memory.
    pub(crate) fn nothing(alloc: Global) -> Indexed
        ensures { result ≡ record { files = []; schema = []; ring = [] } }
    {
        Indexed {
            snap: MemSnap {
                files: Vec::new(alloc),
                schema: Vec::new(alloc),
                ring: Vec::new(alloc),
            },
            index: BTreeMap::new(alloc),
        }
    }

    /// The keys without repeats, in the order of first occurrence.
    pub(crate) fn keys(&self, alloc: Global) -> Result<Vec<RawKey>, NoMemory>
        ensures { IfOk result (λ keys. map key_of_raw keys.items ≡ order_of self.now.files) }
    {
        list_keys(alloc, self.snap.files.as_slice(), &self.index)
    }

    /// A piece of the first file of the key, which must be there.
    pub(crate) fn read_piece(
        &self,
        alloc: Global,
        key: &FileKey,
        from: u64,
    ) -> Result<Piece, NoMemory>
        requires { IsSome (find key_cmp key.now self.now.files) }
        ensures piece { IfOk result
            (λ piece. Some piece
            ≡ option_map (piece_at from) (find key_cmp key.now self.now.files)) }
        ensures range { IfOk result (EndsInRange from) }
    {
        let key = StoredKey::of(alloc, key)?;
        match find_bytes(self.snap.files.as_slice(), &self.index, &key) {
            Some(bytes) => piece_of(alloc, bytes, from),
            None => unreachable!(),
        }
    }

    pub(crate) fn schema(&self) -> &[u8]
        ensures { result.now ≡ self.now.schema }
    {
        self.snap.schema.as_slice()
    }

    pub(crate) fn ring(&self) -> &[u8]
        ensures { result.now ≡ self.now.ring }
    {
        self.snap.ring.as_slice()
    }
}
