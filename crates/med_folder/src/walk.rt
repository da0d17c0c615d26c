// The files under a text, in byte order of their paths.
ghost use Rattle.std.specs.Prelude.{◌≡◌, ◌≤◌, IsTrue, IfOk, IfSome, IsPermutation, length, string_bytes};
ghost use Rattle.std.specs.Ordering.{nat_cmp};
ghost use Rattle.std.specs.Cmp.Lexicographic.{slice_cmp};
ghost use Rattle.med_base.specs.Content.{is_under};
ghost use Rattle.med_outside.specs.Pages.{is_behind, page_size, shown};
ghost use Rattle.med_folder.specs.Listing.{ends_in, is_shown, may_hold, AreShown, AreInOrder};
ghost use Rattle.med_folder.specs.Place.{is_unfinished};

use crate::faults::is_absent;
use crate::files::{check_folder, is_plain_way};
use crate::paths::{is_object_path, is_unfinished, joined, parent_of};
use crate::seconds::modified_second;
use med_base::ObjPath;
use med_outside::{Entry, PageEnd};
use std::alloc::Global;
use std::cmp::Ordering;
use std::collections::BTreeSet;
use std::fs::{Files, Metadata};
use std::{fs, io};

/// How many entries a page has at most.
pub(crate) const PAGE: usize = 1000;

/// Which files are listed: those below the bucket's folder whose path from there begins with a text
/// and comes behind the end of a page.
#[derive(Clone, Copy)]
pub(crate) struct Listed<'a> {
    pub(crate) bucket: &'a str,
    pub(crate) under: &'a str,
    pub(crate) after: Option<&'a PageEnd>,
}

/// What is left of a walk: paths from the bucket's folder, each of a folder that is to be read, with
/// a slash at its end, or of a name that is to be looked at. The bucket's own is the empty text.
/// What a folder holds comes before all that comes behind the folder, so the least of these paths
/// is the next one.
pub(crate) type Pending = BTreeSet<String>;

/// The beginning of a walk: the folder of the text, where no link leads there.
pub(crate) fn first_pending<R: Files>(
    rt: &R,
    alloc: Global,
    listed: &Listed<'_>,
) -> io::Result<Pending> {
    check_folder(rt, listed.bucket)?;
    let parent = parent_of(listed.under);
    let mut pending = BTreeSet::new(alloc);
    if parent.is_empty() {
        pending.insert(String::new(alloc))?;
    } else if is_object_path(parent.as_bytes()) && is_plain_way(rt, alloc, listed.bucket, parent)? {
        pending.insert(joined(alloc, parent, "")?)?;
    }
    Ok(pending)
}

/// The next file of a walk, or none where it is at its end. No link is followed, and what is neither
/// a file nor a folder is passed over.
pub(crate) fn next_file<R: Files + AllocGlobal + Clone + Drop>(
    rt: &R,
    alloc: Global,
    listed: &Listed<'_>,
    pending: &mut Pending,
) -> io::Result<Option<(String, Metadata)>>
    ensures { IfOk result (λ found. IfSome found
        (λ file. IsTrue (is_shown listed.now.under.now (shown listed.now.after)
        (string_bytes file.0)))) }
{
    'paths: for _ in 0..u64::MAX {
        let Some(path) = pending.pop_first() else {
            return Ok(None);
        };
        if path.is_empty() || path.as_str().ends_with('/') {
            enter(rt, alloc, listed, path.as_str(), pending)?;
        } else if let Some(file) = look_at(rt, alloc, listed, path, pending)? {
            return Ok(Some(file));
        }
    }
    Err(io::Error::from(io::ErrorKind::FilesystemLoop))
}

// Adds the names in a folder that may be walked. A folder that went is passed over.
fn enter<R: Files + AllocGlobal + Clone + Drop>(
    rt: &R,
    alloc: Global,
    listed: &Listed<'_>,
    folder: &str,
    pending: &mut Pending,
) -> io::Result<()> {
    let place = joined(alloc, listed.bucket, folder)?;
    let listing = match fs::read_dir(rt, place.as_str()) {
        Ok(listing) => listing,
        Err(error) if is_absent(&error) => return Ok(()),
        Err(error) => return Err(error),
    };
    for entry in listing {
        let entry = entry?;
        let mut path = String::from_str(alloc, folder)?;
        path.push_str(entry.file_name())?;
        path.push('/')?;
        if may_hold(path.as_str(), listed) {
            path.pop();
            pending.insert(path)?;
        }
    }
    Ok(())
}

// Looks at a name: a file that is shown is answered, and a folder is to be read in its turn, which
// comes behind names such as `b-1` where it is `b`. A name that went is passed over.
fn look_at<R: Files>(
    rt: &R,
    alloc: Global,
    listed: &Listed<'_>,
    path: String,
    pending: &mut Pending,
) -> io::Result<Option<(String, Metadata)>>
    ensures { IfOk result (λ found. IfSome found
        (λ file. IsTrue (is_shown listed.now.under.now (shown listed.now.after)
        (string_bytes file.0)))) }
{
    let place = joined(alloc, listed.bucket, path.as_str())?;
    let metadata = match fs::symlink_metadata(rt, place.as_str()) {
        Ok(metadata) => metadata,
        Err(error) if is_absent(&error) => return Ok(None),
        Err(error) => return Err(error),
    };
    if metadata.is_dir() {
        pending.insert(joined(alloc, path.as_str(), "")?)?;
        Ok(None)
    } else if metadata.is_file() && is_shown(path.as_str(), listed.under, listed.after) {
        Ok(Some((path, metadata)))
    } else {
        Ok(None)
    }
}

/// The next files of a walk as entries, as many as a page has.
pub(crate) fn next_entries<R: Files + AllocGlobal + Clone + Drop>(
    rt: &R,
    alloc: Global,
    listed: &Listed<'_>,
    pending: &mut Pending,
) -> io::Result<Vec<Entry>>
    ensures bound { IfOk result (λ entries. length entries.items ≤ page_size) }
    ensures shown { IfOk result
        (λ entries. AreShown listed.now.under.now (shown listed.now.after) entries.items) }
    ensures order { IfOk result (λ entries. AreInOrder entries.items) }
{
    let mut entries = Vec::new(alloc);
    'files: for count in 0..PAGE {
        let Some((path, metadata)) = next_file(rt, alloc, listed, pending)? else {
            break;
        };
        entries.push(entry_of(path, &metadata)?)?;
    }
    sort_by_path(&mut entries);
    Ok(entries)
}

fn entry_of(path: String, metadata: &Metadata) -> io::Result<Entry>
    ensures { IfOk result (λ entry. entry.path ≡ string_bytes path) }
{
    let size = metadata.len();
    let second = modified_second(metadata)?;
    let path = ObjPath::from_string(path);
    Ok(Entry { path, size, second })
}

fn path_order(a: &Entry, b: &Entry) -> Ordering
    ensures { result ≡ slice_cmp nat_cmp a.now.path b.now.path }
{
    a.path.as_str().cmp(b.path.as_str())
}

// A walk comes upon the files in this order already.
fn sort_by_path(entries: &mut Vec<Entry>)
    ensures same { IsPermutation entries.old.items entries.new.items }
    ensures order { AreInOrder entries.new.items }
{
    entries.sort_unstable_by(path_order);
}

/// How many files are left of a walk.
pub(crate) fn count_files<R: Files + AllocGlobal + Clone + Drop>(
    rt: &R,
    alloc: Global,
    listed: &Listed<'_>,
    pending: &mut Pending,
) -> io::Result<u64> {
    'files: for count in 0..u64::MAX {
        if next_file(rt, alloc, listed, pending)?.is_none() {
            return Ok(count);
        }
    }
    Err(io::Error::from(io::ErrorKind::FilesystemLoop))
}

#[tactic(auto, unfolding(crate::specs::Listing::is_shown))]
fn is_shown(path: &str, text: &str, after: Option<&PageEnd>) -> bool
    ensures { result ≡ is_shown text.now (shown after.entry) path.now }
{
    is_under_text(path, text) && !is_unfinished(path.as_bytes()) && is_behind(path, after)
}

// Whether a path comes behind the end of a page.
fn is_behind(path: &str, after: Option<&PageEnd>) -> bool
    ensures { result ≡ is_behind (shown after.entry) path.now }
{
    match after {
        Some(end) => end.path.as_str().cmp(path).is_lt(),
        None => true,
    }
}

fn is_under_text(path: &str, text: &str) -> bool
    ensures { result ≡ is_under text.now path.now }
{
    path.as_bytes().starts_with(text.as_bytes())
}

// Whether what has the path of a folder, which has a slash at its end, or the path of the same name
// without one, may be listed: the end of a page doesn't come behind all that the folder may hold.
fn may_hold(folder: &str, listed: &Listed<'_>) -> bool
    ensures { result ≡ may_hold listed.now.under.now (shown listed.now.after) folder.now }
{
    let is_within = is_under_text(folder, listed.under) && !is_unfinished(folder.as_bytes());
    is_within && (is_behind(folder, listed.after) || ends_in(folder, listed.after))
}

// Whether a page ends in a folder.
fn ends_in(folder: &str, after: Option<&PageEnd>) -> bool
    ensures { result ≡ ends_in (shown after.entry) folder.now }
{
    match after {
        Some(end) => is_under_text(end.path.as_str(), folder),
        None => false,
    }
}
