// The objects of a store, in byte order of their paths, and the changes that made them.
ghost use Rattle.std.specs.Prelude.{◌≡◌, ◌<◌, ◌≤◌, ◌+◌, vec_len, vec_capacity, IfOk, IfErr, IfSome, OnOk, OnErr, option_map};
ghost use Rattle.std.specs.Ordering.{nat_cmp};
ghost use Rattle.std.specs.Cmp.Lexicographic.{slice_cmp};
ghost use Rattle.std.specs.FinMap.Entries.{find};
ghost use Rattle.med_base.specs.Content.{Object, is_under};
ghost use Rattle.med_base.specs.Effects.{Stores, Removes};
ghost use Rattle.med_outside.specs.Pieces.{piece_at, EndsInRange};
ghost use Rattle.med_outside.specs.Storage.{stat_of};
ghost use Rattle.med_mem.specs.Calls.{note_of};
ghost use Rattle.med_mem.specs.Objects.{pairs, object_of, AreInOrder, IsThere, IsGap, IsNew, IsStored, IsNoted, IsRemoved, noted};

use crate::piece::piece_of;
use med_base::{Fingerprint, NoMemory, ObjPath};
use med_outside::{Piece, Stat};
use std::alloc::Global;
use std::cmp::Ordering;

/// An object of a bucket. Its second is a whole one since 1970-01-01T00:00:00Z.
#[derive(Drop)]
pub struct MemObject {
    pub path: ObjPath,
    pub bytes: Vec<u8>,
    pub second: u64,
}

/// What a change left: an object that was stored, or a path without one.
#[derive(Drop)]
pub(crate) enum MemEffect {
    Stored(MemObject),
    Removed(ObjPath),
}

/// A change, and how many calls had been made by then.
#[derive(Drop)]
pub(crate) struct Change {
    pub(crate) call: u64,
    pub(crate) effect: MemEffect,
}

/// The place of a path among objects, or where it belongs.
pub(crate) fn place_of(objects: &[MemObject], path: &str) -> Result<usize, usize>
    requires { AreInOrder objects.now }
    ensures found { IfOk result (IsThere objects.now path.now) }
    ensures gap { IfErr result (IsGap objects.now path.now) }
{
    objects.binary_search_by(|object| object.path.as_str().cmp(path))
}

// The object of a path.
fn find_object<'a>(objects: &'a [MemObject], path: &str) -> Option<&'a MemObject>
    requires { AreInOrder objects.now }
    ensures { option_map (λ o. object_of o.now) result
        ≡ find (slice_cmp nat_cmp) path.now (pairs objects.now) }
{
    match place_of(objects, path) {
        Ok(i) => Some(&objects[i]),
        Err(_) => None,
    }
}

/// What a look at the object of a path tells.
pub(crate) fn stat_object(objects: &[MemObject], path: &str) -> Option<Stat>
    requires { AreInOrder objects.now }
    ensures { result
        ≡ option_map stat_of (find (slice_cmp nat_cmp) path.now (pairs objects.now)) }
{
    match find_object(objects, path) {
        Some(object) => Some(Stat {
            fingerprint: Fingerprint::of(object.bytes.as_slice()),
            second: object.second,
        }),
        None => None,
    }
}

/// The bytes of the object of a path.
pub(crate) fn copy_bytes(
    alloc: Global,
    objects: &[MemObject],
    path: &str,
) -> Result<Option<Vec<u8>>, NoMemory>
    requires { AreInOrder objects.now }
    ensures { IfOk result
        (λ found. option_map (λ bytes. bytes.items) found
        ≡ option_map (λ (o : Object). o.bytes)
        (find (slice_cmp nat_cmp) path.now (pairs objects.now))) }
{
    match find_object(objects, path) {
        Some(object) => Ok(Some(object.bytes.as_slice().to_vec(alloc)?)),
        None => Ok(None),
    }
}

/// A piece of the object of a path.
pub(crate) fn copy_piece(
    alloc: Global,
    objects: &[MemObject],
    path: &str,
    from: u64,
) -> Result<Option<Piece>, NoMemory>
    requires { AreInOrder objects.now }
    ensures piece { IfOk result
        (λ found. found ≡ option_map (λ (o : Object). piece_at from o.bytes)
        (find (slice_cmp nat_cmp) path.now (pairs objects.now))) }
    ensures range { IfOk result (λ found. IfSome found (EndsInRange from)) }
{
    match find_object(objects, path) {
        Some(object) => Ok(Some(piece_of(alloc, object.bytes.as_slice(), from)?)),
        None => Ok(None),
    }
}

// Puts an object in its place, or in place of the one there.
fn store_object(objects: &mut Vec<MemObject>, object: MemObject) -> Result<(), NoMemory>
    requires { AreInOrder objects.old.items }
    ensures ok { OnOk result
        (IsStored object.path (object_of object) objects.old.items objects.new.items) }
    ensures err { OnErr result (objects.new.items ≡ objects.old.items) }
{
    match place_of(objects.as_slice(), object.path.as_str()) {
        Ok(i) => {
            let there = &mut objects[i];
            there.bytes = object.bytes;
            there.second = object.second;
            Ok(())
        }
        Err(i) => {
            objects.insert(i, object)?;
            Ok(())
        }
    }
}

fn new_object(
    alloc: Global,
    path: &ObjPath,
    bytes: &[u8],
    second: u64,
) -> Result<MemObject, NoMemory>
    ensures { IfOk result (IsNew path.now bytes.now second) }
{
    let path = path.copy(alloc)?;
    let bytes = bytes.to_vec(alloc)?;
    Ok(MemObject {
        path,
        bytes,
        second,
    })
}

/// Stores an object, and notes that.
pub(crate) fn put_object(
    alloc: Global,
    objects: &mut Vec<MemObject>,
    changes: &mut Vec<Change>,
    call: u64,
    path: &ObjPath,
    bytes: &[u8],
    second: u64,
) -> Result<(), NoMemory>
    requires { AreInOrder objects.old.items }
    ensures noted { OnOk result
        (IsNoted (note_of call (Stores path.now bytes.now second)) changes.old.items
        changes.new.items) }
    ensures stored { OnOk result
        (IsStored path.now (record { bytes = bytes.now; second = second }) objects.old.items
        objects.new.items) }
    ensures same_notes { OnErr result (noted changes.new.items ≡ noted changes.old.items) }
    ensures same_objects { OnErr result (pairs objects.new.items ≡ pairs objects.old.items) }
    ensures capacity { vec_capacity changes.old ≤ vec_capacity changes.new }
{
    let object = new_object(alloc, path, bytes, second)?;
    let note = new_object(alloc, path, bytes, second)?;
    changes.reserve(1)?;
    store_object(objects, object)?;
    let effect = MemEffect::Stored(note);
    changes.push(Change { call, effect })?;
    Ok(())
}

/// Removes the object of a path, and notes that; the answer is whether there was one.
pub(crate) fn remove_object(
    objects: &mut Vec<MemObject>,
    changes: &mut Vec<Change>,
    call: u64,
    path: &str,
) -> Result<bool, NoMemory>
    requires { AreInOrder objects.old.items }
    ensures removed { IfOk result
        (IsRemoved (note_of call (Removes path.now)) path.now objects.old.items objects.new.items
        changes.old.items changes.new.items) }
    ensures same_notes { OnErr result (noted changes.new.items ≡ noted changes.old.items) }
    ensures same_objects { OnErr result (pairs objects.new.items ≡ pairs objects.old.items) }
    ensures full { OnErr result (vec_capacity changes.old < vec_len changes.old + 1) }
    ensures capacity { vec_capacity changes.old ≤ vec_capacity changes.new }
{
    match place_of(objects.as_slice(), path) {
        Ok(i) => {
            changes.reserve(1)?;
            let object = objects.remove(i);
            let effect = MemEffect::Removed(object.path);
            changes.push(Change { call, effect })?;
            Ok(true)
        }
        Err(_) => Ok(false),
    }
}

/// Whether the path begins with a text.
pub(crate) fn is_listed(object: &MemObject, under: &str) -> bool
    ensures { result ≡ is_under under.now object.now.path }
{
    let path = object.path.as_str();
    path.as_bytes().starts_with(under.as_bytes())
}

/// Equal objects.
pub(crate) fn copy_objects(alloc: Global, objects: &[MemObject]) -> Result<Vec<MemObject>, NoMemory>
    ensures { IfOk result (λ copy. pairs copy.items ≡ pairs objects.now) }
{
    let mut copy = Vec::new(alloc);
    for object in objects {
        let bytes = object.bytes.as_slice();
        copy.push(new_object(alloc, &object.path, bytes, object.second)?)?;
    }
    Ok(copy)
}
