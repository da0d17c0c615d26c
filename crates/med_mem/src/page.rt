// Listings of a storage in memory, in pages.
ghost use Rattle.std.specs.Prelude.{◌≡◌, ◌≤◌, ◌==◌, Some, None, IfOk, take, drop, length, if◌then◌else◌};
ghost use Rattle.med_outside.specs.Pages.{last_path, page_size, shown};
ghost use Rattle.med_outside.specs.Storage.{entry_of};
ghost use Rattle.med_mem.specs.Objects.{pairs, object_of, AreInOrder, listed_under};
ghost use Rattle.med_mem.specs.Pages.{those_behind, listed_behind, HasFirst};

use crate::MemObject;
use crate::object::{is_listed, place_of};
use med_base::{NoMemory, ObjPath};
use med_outside::{Entry, Page, PageEnd};
use std::alloc::Global;

// How many entries a page has at most.
const PAGE_SIZE: usize = 1000;

// Where the objects behind the end of a page begin.
fn place_behind(objects: &[MemObject], after: Option<&PageEnd>) -> usize
    requires { AreInOrder objects.now }
    ensures within { result ≤ length objects.now }
    ensures behind { pairs (drop result objects.now)
        ≡ those_behind (shown after.entry) (pairs objects.now) }
{
    match after {
        Some(end) => match place_of(objects, end.path.as_str()) {
            Ok(i) => i + 1,
            Err(i) => i,
        },
        None => 0,
    }
}

// An object as a listing has it.
fn new_entry(alloc: Global, object: &MemObject) -> Result<Entry, NoMemory>
    ensures { IfOk result (λ entry. entry ≡ entry_of (object.now.path, object_of object.now)) }
{
    let path = object.path.copy(alloc)?;
    Ok(Entry {
        path,
        size: object.bytes.as_slice().len() as u64,
        second: object.second,
    })
}

// The first objects whose path begins with a text, as many as a page has.
fn list_first(alloc: Global, objects: &[MemObject], under: &str) -> Result<Vec<Entry>, NoMemory>
    ensures { IfOk result
        (λ entries. entries.items ≡ take page_size (listed_under under.now (pairs objects.now))) }
{
    let mut entries = Vec::new(alloc);
    for object in objects {
        if entries.len() < PAGE_SIZE && is_listed(object, under) {
            entries.push(new_entry(alloc, object)?)?;
        }
    }
    Ok(entries)
}

// How many objects have a path that begins with a text.
fn count_under(objects: &[MemObject], under: &str) -> usize
    ensures { result ≡ length (listed_under under.now (pairs objects.now)) }
{
    let mut count = 0usize;
    for object in objects {
        if is_listed(object, under) {
            count += 1;
        }
    }
    count
}

// The path of the last entry, and an empty one where there is none.
fn copy_last_path(alloc: Global, entries: &[Entry]) -> Result<ObjPath, NoMemory>
    ensures { IfOk result (λ path. path ≡ last_path entries.now) }
{
    match entries.last() {
        Some(entry) => entry.path.copy(alloc),
        None => Ok(ObjPath::from_string(String::new(alloc))),
    }
}

// The end of a page, where entries are left.
fn end_of(alloc: Global, entries: &[Entry], left: u64) -> Result<Option<PageEnd>, NoMemory>
    ensures { IfOk result (λ end. end
        ≡ (if left == 0 then None
        else Some (record { path = last_path entries.now; left = left }))) }
{
    if left == 0 {
        return Ok(None);
    }
    let path = copy_last_path(alloc, entries)?;
    Ok(Some(PageEnd { path, left }))
}

/// The next objects behind the end of a page whose path begins with a text.
pub(crate) fn page_under(
    alloc: Global,
    objects: &[MemObject],
    under: &str,
    after: Option<&PageEnd>,
) -> Result<Page, NoMemory>
    requires { AreInOrder objects.now }
    ensures { IfOk result
        (HasFirst (listed_behind under.now (shown after.entry) (pairs objects.now))) }
{
    let (_, rest) = objects.split_at(place_behind(objects, after));
    let entries = list_first(alloc, rest, under)?;
    let left = count_under(rest, under).saturating_sub(PAGE_SIZE);
    let end = end_of(alloc, entries.as_slice(), left as u64)?;
    Ok(Page { entries, end })
}
