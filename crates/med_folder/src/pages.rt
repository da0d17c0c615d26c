// Listings in pages.
ghost use Rattle.std.specs.Prelude.{◌≡◌, ◌+◌, ◌<◌, ◌≤◌, IfOk, IfSome, OnOk};
ghost use Rattle.med_outside.specs.Pages.{CountsDown, last_path, left_of, shown};
ghost use Rattle.med_folder.specs.Listing.{AreShown, AreInOrder, EndsAtLast};

use crate::walk::{Listed, PAGE, Pending, count_files, first_pending, next_entries, next_file};
use med_base::ObjPath;
use med_outside::{Entry, Page, PageEnd};
use std::alloc::Global;
use std::fs::Files;
use std::io;
use std::io::ErrorKind;

// How many entries are left behind those of a page. The first page counts them. A later one takes
// them from the number that was left before, and refuses where the folder no longer agrees with it:
// a page that isn't the last is full, and behind the last one nothing comes.
fn left_behind<R: Files + AllocGlobal + Clone + Drop>(
    rt: &R,
    alloc: Global,
    listed: &Listed<'_>,
    pending: &mut Pending,
    entries: usize,
) -> io::Result<u64>
    ensures sum { IfOk result
        (λ left. IfSome (shown listed.now.after) (λ end. entries + left ≡ end.left)) }
    ensures goes_on { OnOk result
        (IfSome (shown listed.now.after) (λ end. 0 < end.left → 0 < entries)) }
{
    let Some(end) = listed.after else {
        return count_files(rt, alloc, listed, pending);
    };
    let Some(left) = end.left.checked_sub(entries as u64) else {
        return Err(io::Error::from(ErrorKind::StaleNetworkFileHandle));
    };
    let agrees = if left > 0 {
        entries == PAGE
    } else {
        next_file(rt, alloc, listed, pending)?.is_none()
    };
    if agrees {
        Ok(left)
    } else {
        Err(io::Error::from(ErrorKind::StaleNetworkFileHandle))
    }
}

// The end of a page behind which entries are left.
fn end_of(alloc: Global, entries: &[Entry], left: u64) -> io::Result<Option<PageEnd>>
    ensures left { IfOk result (λ end. left_of end ≡ left) }
    ensures some_left { IfOk result (λ end. IfSome end (λ e. 0 < e.left)) }
    ensures path { IfOk result (λ end. IfSome end (λ e. e.path ≡ last_path entries.now)) }
{
    if left == 0 {
        return Ok(None);
    }
    match entries.last() {
        Some(entry) => {
            let path = ObjPath::from_string(String::from_str(alloc, entry.path.as_str())?);
            Ok(Some(PageEnd { path, left }))
        }
        None => Err(io::Error::from(ErrorKind::InvalidData)),
    }
}

/// The first files below the bucket's folder that are listed under a text behind the end of a page.
/// Where the folder no longer agrees with that end, it refuses.
pub(crate) fn page_behind<R: Files + AllocGlobal + Clone + Drop>(
    rt: &R,
    alloc: Global,
    bucket: &str,
    under: &str,
    after: Option<&PageEnd>,
) -> io::Result<Page>
    ensures counts { IfOk result (CountsDown (shown after.entry)) }
    ensures shown { IfOk result
        (λ page. AreShown under.now (shown after.entry) page.entries.items) }
    ensures order { IfOk result (λ page. AreInOrder page.entries.items) }
    ensures path { IfOk result EndsAtLast }
{
    let listed = Listed {
        bucket,
        under,
        after,
    };
    let mut pending = first_pending(rt, alloc, &listed)?;
    let entries = next_entries(rt, alloc, &listed, &mut pending)?;
    let left = left_behind(rt, alloc, &listed, &mut pending, entries.len())?;
    let end = end_of(alloc, entries.as_slice(), left)?;
    Ok(Page { entries, end })
}
