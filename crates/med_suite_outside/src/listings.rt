// Listings of a storage of folders in pages.
use crate::calls::refusal;
use crate::places::{is_done, write_file};
use med_base::Layout;
use med_folder::FolderStore;
use med_outside::{Entry, Page, PageEnd, Storage};
use std::alloc::Global;
use std::fs::{File, Files};
use std::time::Clock;

// Makes so many files: `FOLDER/1000`, `FOLDER/1001` and so on.
fn are_made<R: Files>(rt: &R, alloc: Global, folder: &str, count: u32) -> Option<bool> {
    for i in 0..count {
        let number = i.checked_add(1000)?;
        let path = format!(in alloc; "{folder}/{number}").ok()?;
        write_file(rt, path.as_str(), b"x").ok()?;
    }
    Some(true)
}

// A row `many FOLDER=COUNT` makes files, and each other one is of a file, a folder or a link.
fn is_made<R: Files>(rt: &R, alloc: Global, row: &str) -> Option<bool> {
    match row.split_once(' ') {
        Some(("many", rest)) => {
            let (folder, count) = rest.split_once('=')?;
            are_made(rt, alloc, folder, count.parse::<u32>().ok()?)
        }
        _ => Some(is_done(rt, row)),
    }
}

// Opens the bucket of the name below `listings`, and makes what rows say. It answers the first row
// that can't be done.
fn first_unmade<'a, R: Files<File = File> + Clock + AllocGlobal + Clone + Drop>(
    rt: &R,
    alloc: Global,
    store: &mut FolderStore<R>,
    bucket: &str,
    table: &'a str,
) -> Option<&'a str> {
    store.drop_upload();
    if store
        .open(alloc, "listings", bucket, &Layout::plain(alloc))
        .is_err()
    {
        return Some("the bucket isn't opened");
    }
    for row in table.split('\n') {
        if is_made(rt, alloc, row) != Some(true) {
            return Some(row);
        }
    }
    None
}

// Whether each path comes behind the one before, and the first one behind the end of a page.
fn are_rising(entries: &[Entry], after: Option<&PageEnd>) -> bool {
    let mut last = match after {
        Some(end) => end.path.as_str(),
        None => "",
    };
    for entry in entries {
        let path = entry.path.as_str();
        if last.cmp(path).is_ge() {
            return false;
        }
        last = path;
    }
    true
}

// A page as one text: how many entries it has, the first and the last of them, and how many are
// left.
fn page_text(alloc: Global, page: &Page) -> Option<String> {
    let count = page.entries.len() as u64;
    let left = match &page.end {
        Some(end) => end.left,
        None => 0,
    };
    let (first, last) = match page.entries.as_slice() {
        [] => ("-", "-"),
        [entry] => (entry.path.as_str(), entry.path.as_str()),
        [first, .., last] => (first.path.as_str(), last.path.as_str()),
    };
    format!(in alloc; "{count} {first} {last} {left};").ok()
}

// The next page as a text, or a refusal, and its end.
fn next_page<R: Files<File = File> + Clock + AllocGlobal + Clone + Drop>(
    alloc: Global,
    store: &mut FolderStore<R>,
    under: &str,
    after: Option<&PageEnd>,
) -> Option<(String, Option<PageEnd>)> {
    match store.list_page(alloc, under, after) {
        Ok(page) => {
            if !are_rising(page.entries.as_slice(), after) {
                return None;
            }
            let text = page_text(alloc, &page)?;
            Some((text, page.end))
        }
        Err(denied) => Some((String::from_str(alloc, refusal(denied)).ok()?, None)),
    }
}

// All pages under a text from one on, up to a refusal.
fn all_pages<R: Files<File = File> + Clock + AllocGlobal + Clone + Drop>(
    alloc: Global,
    store: &mut FolderStore<R>,
    under: &str,
    first: (String, Option<PageEnd>),
) -> Option<String> {
    let (mut text, mut end) = first;
    for _ in 0..100u32 {
        if end.is_none() {
            return Some(text);
        }
        let (more, after) = next_page(alloc, store, under, end.as_ref())?;
        text.push_str(more.as_str()).ok()?;
        end = after;
    }
    None
}

// A row `UNDER => PAGES`.
fn is_listed<R: Files<File = File> + Clock + AllocGlobal + Clone + Drop>(
    alloc: Global,
    store: &mut FolderStore<R>,
    row: &str,
) -> Option<bool> {
    let (under, wanted) = row.split_once(" => ")?;
    let first = next_page(alloc, store, under, None)?;
    Some(all_pages(alloc, store, under, first)?.as_str() == wanted)
}

fn first_unlisted<'a, R: Files<File = File> + Clock + AllocGlobal + Clone + Drop>(
    alloc: Global,
    store: &mut FolderStore<R>,
    table: &'a str,
) -> Option<&'a str> {
    for row in table.split('\n') {
        if is_listed(alloc, store, row) != Some(true) {
            return Some(row);
        }
    }
    None
}

// 2,500 objects, in folders whose names come in another order than the paths of their files, and
// folders without a file.
const MADE: &str = "\
file listings/k/b-=x
many listings/k/b-1=400
many listings/k/b.c=599
many listings/k/b=1300
many listings/k/b/c/d/e/f=199
file listings/k/b0=x
folder listings/k/a
folder listings/k/b/c/empty/empty
folder listings/k/b.c/d
folder listings/k/b1/empty
link listings/k/b.d=b";

const PAGES: &str = "\
b => 1000 b- b.c/1598 1500;1000 b/1000 b/1999 500;500 b/2000 b0 0;
 => 1000 b- b.c/1598 1500;1000 b/1000 b/1999 500;500 b/2000 b0 0;
b/ => 1000 b/1000 b/1999 499;499 b/2000 b/c/d/e/f/1198 0;
b- => 401 b- b-1/1399 0;
b-1/ => 400 b-1/1000 b-1/1399 0;
b. => 599 b.c/1000 b.c/1598 0;
b/1 => 1000 b/1000 b/1999 0;
b/c/d => 199 b/c/d/e/f/1000 b/c/d/e/f/1198 0;
b/c/d/e/f/11 => 99 b/c/d/e/f/1100 b/c/d/e/f/1198 0;
b0 => 1 b0 b0 0;
b/c/empty/ => 0 - - 0;
b.d/ => 0 - - 0;
a => 0 - - 0;
c/d => 0 - - 0;
b0/ => 0 - - 0;";

#[test]
fn a_listing_comes_in_pages(rt: HostRuntime) {
    let mut store = FolderStore::new(rt.alloc(), rt);
    assert_eq!(rt; first_unmade(&rt, rt.alloc(), &mut store, "k", MADE), None);
    assert_eq!(rt; first_unlisted(rt.alloc(), &mut store, PAGES), None);
}

// A row `UNDER: CHANGE => PAGES`: the pages behind the first one, where a file was made or removed
// since.
fn is_changed<R: Files<File = File> + Clock + AllocGlobal + Clone + Drop>(
    rt: &R,
    alloc: Global,
    store: &mut FolderStore<R>,
    row: &str,
) -> Option<bool> {
    let (call, wanted) = row.split_once(" => ")?;
    let (under, change) = call.split_once(": ")?;
    let (_, end) = next_page(alloc, store, under, None)?;
    if !is_done(rt, change) {
        return None;
    }
    let second = next_page(alloc, store, under, end.as_ref())?;
    Some(all_pages(alloc, store, under, second)?.as_str() == wanted)
}

fn first_other<'a, R: Files<File = File> + Clock + AllocGlobal + Clone + Drop>(
    rt: &R,
    alloc: Global,
    store: &mut FolderStore<R>,
    table: &'a str,
) -> Option<&'a str> {
    for row in table.split('\n') {
        if is_changed(rt, alloc, store, row) != Some(true) {
            return Some(row);
        }
    }
    None
}

const MORE: &str = "\
many listings/changed/p=1002
many listings/changed/r=2001";

// What changes before the end of a page isn't seen, and what changes behind it is a fault, on the
// last page at the latest.
const CHANGED: &str = "\
p/: file listings/changed/q=q => 2 p/2000 p/2001 0;
p/: file listings/changed/p/0=before => 2 p/2000 p/2001 0;
p/: remove listings/changed/p/2001 => failed
p/: file listings/changed/p/3=behind => failed
p/: remove listings/changed/p/3 => failed
r/: remove listings/changed/r/2500 => 1000 r/2000 r/3000 1;failed
r/: file listings/changed/r/2500=back => failed
r/: folder listings/changed/r/25/00 => 1000 r/2000 r/2999 1;1 r/3000 r/3000 0;";

#[test]
fn a_page_that_doesnt_agree_with_the_one_before_is_a_fault(rt: HostRuntime) {
    let mut store = FolderStore::new(rt.alloc(), rt);
    assert_eq!(rt;
        first_unmade(&rt, rt.alloc(), &mut store, "changed", MORE),
        None
    );
    assert_eq!(rt; first_other(&rt, rt.alloc(), &mut store, CHANGED), None);
}
