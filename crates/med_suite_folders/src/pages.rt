// Listings of a storage of folders in pages.
use med_base::Layout;
use med_folder::FolderStore;
use med_outside::{PageEnd, Storage};
use med_suite_rows::calls::refusal;
use med_suite_rows::pages::page_text;
use med_suite_rows::places::{is_done, write_many};
use std::alloc::Global;
use std::fs::{File, Files};
use std::time::Clock;

// The next page as a text, or a refusal, and its end.
fn next_page<R: Files<File = File> + Clock + AllocGlobal + Clone + Drop>(
    alloc: Global,
    store: &mut FolderStore<R>,
    under: &str,
    after: Option<&PageEnd>,
) -> Option<(String, Option<PageEnd>)> {
    match store.list_page(alloc, under, after) {
        Ok(page) => {
            let text = page_text(alloc, &page)?;
            Some((text, page.end))
        }
        Err(denied) => Some((String::from_str(alloc, refusal(denied)).ok()?, None)),
    }
}

// Opens a bucket below the base `pages`, with so many objects.
fn open_many<R: Files<File = File> + Clock + AllocGlobal + Clone + Drop>(
    rt: &R,
    alloc: Global,
    store: &mut FolderStore<R>,
    bucket: &str,
    count: u32,
) -> Option<()> {
    store.drop_upload();
    store
        .open(alloc, "pages", bucket, &Layout::plain(alloc))
        .ok()?;
    let folder = format!(in alloc; "pages/{bucket}/p").ok()?;
    write_many(rt, alloc, folder.as_str(), count)
}

// The page behind the first one, of 1,002 objects, where a file was made or removed since.
fn is_second<R: Files<File = File> + Clock + AllocGlobal + Clone + Drop>(
    rt: &R,
    alloc: Global,
    store: &mut FolderStore<R>,
    row: &str,
) -> Option<bool> {
    let (change, wanted) = row.split_once(" => ")?;
    let (_, end) = next_page(alloc, store, "p/", None)?;
    if !is_done(rt, change) {
        return None;
    }
    let (text, _) = next_page(alloc, store, "p/", end.as_ref())?;
    Some(text.as_str() == wanted)
}

fn first_wrong<'a, R: Files<File = File> + Clock + AllocGlobal + Clone + Drop>(
    rt: &R,
    alloc: Global,
    store: &mut FolderStore<R>,
    table: &'a str,
) -> Option<&'a str> {
    for row in table.split('\n') {
        if is_second(rt, alloc, store, row) != Some(true) {
            return Some(row);
        }
    }
    None
}

// What changes before the end of a page isn't seen, and what changes behind it is a fault.
const CHANGED: &str = "\
file pages/changed/q=q => 2 p/2000 p/2001 0;
file pages/changed/p/0=before => 2 p/2000 p/2001 0;
remove pages/changed/p/2001 => failed
file pages/changed/p/3=behind => failed
remove pages/changed/p/3 => failed";

#[test]
fn a_page_that_doesnt_agree_with_the_one_before_is_a_fault(rt: HostRuntime) {
    let mut store = FolderStore::new(rt.alloc(), rt);
    assert_eq!(rt;
        open_many(&rt, rt.alloc(), &mut store, "changed", 1002),
        Some(())
    );
    assert_eq!(rt; first_wrong(&rt, rt.alloc(), &mut store, CHANGED), None);
}
