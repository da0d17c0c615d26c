// Objects of a storage of folders that are stored and read in pieces.
use med_base::{Fingerprint, Layout, ObjPath};
use med_folder::FolderStore;
use med_outside::{Denied, PIECE, Piece, Storage};
use med_suite_rows::calls::{entries_text, refusal};
use med_suite_rows::{places, rows};
use std::alloc::Global;
use std::fs::{File, Files};
use std::time::Clock;

pub(crate) fn piece_of(alloc: Global, bytes: &[u8]) -> Option<Piece> {
    if bytes.len() > PIECE {
        return None;
    }
    Piece::of(alloc, bytes).ok()
}

fn begin<R: Files<File = File> + Clock + AllocGlobal + Clone + Drop>(
    alloc: Global,
    store: &mut FolderStore<R>,
    path: &str,
) -> Result<(), Denied> {
    let path = ObjPath::of(alloc, path)?;
    store.begin(alloc, &path)
}

fn is_put<R: Files<File = File> + Clock + AllocGlobal + Clone + Drop>(
    alloc: Global,
    store: &mut FolderStore<R>,
    object: &str,
    wanted: &str,
) -> Option<bool> {
    let (path, text) = object.split_once('=')?;
    let path = ObjPath::of(alloc, path).ok()?;
    match store.put(alloc, &path, text.as_bytes()) {
        Ok(_) => Some(wanted == "done"),
        Err(denied) => Some(refusal(denied) == wanted),
    }
}

fn is_got<R: Files<File = File> + Clock + AllocGlobal + Clone + Drop>(
    alloc: Global,
    store: &mut FolderStore<R>,
    path: &ObjPath,
    wanted: &str,
) -> Option<bool> {
    match store.get(alloc, path) {
        Ok(Some(bytes)) => Some(bytes.as_slice() == wanted.as_bytes()),
        Ok(None) => Some(wanted == "absent"),
        Err(denied) => Some(refusal(denied) == wanted),
    }
}

fn is_looked_at<R: Files<File = File> + Clock + AllocGlobal + Clone + Drop>(
    alloc: Global,
    store: &mut FolderStore<R>,
    path: &ObjPath,
    wanted: &str,
) -> Option<bool> {
    match store.stat(alloc, path) {
        Ok(Some(stat)) => Some(stat.fingerprint == Fingerprint::of(wanted.as_bytes())),
        Ok(None) => Some(wanted == "absent"),
        Err(denied) => Some(refusal(denied) == wanted),
    }
}

fn is_object<R: Files<File = File> + Clock + AllocGlobal + Clone + Drop>(
    alloc: Global,
    store: &mut FolderStore<R>,
    path: &str,
    wanted: &str,
) -> Option<bool> {
    let path = ObjPath::of(alloc, path).ok()?;
    let is_got = is_got(alloc, store, &path, wanted)?;
    Some(is_got && is_looked_at(alloc, store, &path, wanted)?)
}

fn is_list<R: Files<File = File> + Clock + AllocGlobal + Clone + Drop>(
    alloc: Global,
    store: &mut FolderStore<R>,
    under: &str,
    wanted: &str,
) -> Option<bool> {
    match store.list_page(alloc, under, None) {
        Ok(page) if page.entries.is_empty() => Some(wanted == "nothing"),
        Ok(page) => Some(entries_text(alloc, page.entries.as_slice(), true)?.as_str() == wanted),
        Err(denied) => Some(refusal(denied) == wanted),
    }
}

// Whether the fingerprint of the upload is that of a text, or there is no upload.
fn is_fingerprinted<R: Files<File = File> + Clock + AllocGlobal + Clone + Drop>(
    store: &mut FolderStore<R>,
    wanted: &str,
) -> bool {
    match store.uploaded() {
        Some(fingerprint) => fingerprint == Fingerprint::of(wanted.as_bytes()),
        None => wanted == "nothing",
    }
}

// A call of an upload answers `done` or a refusal: `begin PATH`, `append TEXT`, `commit` or `drop`.
fn is_step<R: Files<File = File> + Clock + AllocGlobal + Clone + Drop>(
    alloc: Global,
    store: &mut FolderStore<R>,
    word: &str,
    rest: &str,
    wanted: &str,
) -> Option<bool> {
    let denied = match word {
        "begin" => begin(alloc, store, rest).err(),
        "append" => store
            .append(alloc, &piece_of(alloc, rest.as_bytes())?)
            .err(),
        "commit" => store.commit(alloc).err(),
        "drop" => {
            store.drop_upload();
            None
        }
        _ => return None,
    };
    match denied {
        None => Some(wanted == "done"),
        Some(denied) => Some(refusal(denied) == wanted),
    }
}

// A call of an upload, or one that may come while it is under way: `put PATH=TEXT`, `object PATH`
// of `get` and `stat`, `sizes UNDER`, or `uploaded`, whose answer is a text that has the fingerprint.
fn is_answered<R: Files<File = File> + Clock + AllocGlobal + Clone + Drop>(
    alloc: Global,
    store: &mut FolderStore<R>,
    call: &str,
    wanted: &str,
) -> Option<bool> {
    let (word, rest) = call.split_once(' ').unwrap_or((call, ""));
    match word {
        "put" => is_put(alloc, store, rest, wanted),
        "object" => is_object(alloc, store, rest, wanted),
        "sizes" => is_list(alloc, store, rest, wanted),
        "uploaded" => Some(is_fingerprinted(store, wanted)),
        _ => is_step(alloc, store, word, rest, wanted),
    }
}

// A row with an answer is a call, and one without makes or looks for a file. `%` stands for a name
// of 255 bytes.
fn is_done<R: Files<File = File> + Clock + AllocGlobal + Clone + Drop>(
    rt: &R,
    alloc: Global,
    store: &mut FolderStore<R>,
    row: &str,
) -> Option<bool> {
    let name = "n".repeat(alloc, 255).ok()?;
    let row = row.replace(alloc, '%', name.as_str()).ok()?;
    match row.as_str().split_once(" => ") {
        Some((call, wanted)) => is_answered(alloc, store, call, wanted),
        None => Some(places::is_done(rt, row.as_str())),
    }
}

// The first row that is answered otherwise, or can't be done, where the bucket was opened below the
// base `uploads`.
pub(crate) fn first_wrong<'a, R: Files<File = File> + Clock + AllocGlobal + Clone + Drop>(
    rt: &R,
    alloc: Global,
    store: &mut FolderStore<R>,
    bucket: &str,
    table: &'a str,
) -> Option<&'a str> {
    store.drop_upload();
    let layout = Layout::plain(alloc);
    if store.open(alloc, "uploads", bucket, &layout).is_err() {
        return Some("the bucket isn't opened");
    }
    for row in table.split('\n') {
        if is_done(rt, alloc, store, row) != Some(true) {
            return Some(row);
        }
    }
    None
}

// An upload is seen when it is committed, and not when it is dropped. A put leaves it.
const UPLOADED: &str = "\
begin a/x => done
append ab => done
sizes  => nothing
object a/x => absent
append  => done
append c => done
commit => done
object a/x => abc
absent uploads/done/.medusa-tmp/part-a
begin a/x => done
append dropped => done
drop => done
absent uploads/done/.medusa-tmp/part-a
drop => done
uploaded => nothing
begin a/x => done
append sec => done
append ond => done
uploaded => second
uploaded => second
commit => done
object a/x => second
begin a/x => done
append third => done
commit => done
object a/x => third
begin b => done
append ab => done
put b=put => done
append cd => done
object b => put
commit => done
object b => abcd
begin empty => done
uploaded => 
commit => done
object empty => 
begin % => done
append long => done
commit => done
object % => long";

#[test]
fn an_upload_is_an_object_once_it_is_committed(rt: HostRuntime) {
    let mut store = FolderStore::new(rt.alloc(), rt);
    assert_eq!(rt;
        first_wrong(&rt, rt.alloc(), &mut store, "done", UPLOADED),
        None
    );
}

// After a fault there is no upload and no file of it. A file that isn't as long as what was
// appended is no object; a link on the way is a fault, also one that was made since, and so is a piece
// behind the fingerprint.
const REFUSED: &str = "\
append x => failed
commit => failed
begin ../x => failed
append x => failed
begin a//x => failed
begin .medusa-tmp/x => failed
begin n% => done
append abc => done
commit => failed
folder uploads/away
link uploads/refused/far=../away
begin far/x => done
append abc => done
commit => failed
absent uploads/refused/.medusa-tmp/part-far
absent uploads/away/x
begin a => done
append abc => done
uploaded => abc
append d => failed
uploaded => nothing
commit => failed
absent uploads/refused/.medusa-tmp/rest
object a => absent
file uploads/refused/.medusa-tmp/rest=left
begin a => done
append abc => done
uploaded => abc
file uploads/refused/.medusa-tmp/rest=more
commit => failed
absent uploads/refused/.medusa-tmp/rest
commit => failed
object a => absent
begin a => done
append abc => done
remove uploads/refused/.medusa-tmp/rest
commit => failed
object a => absent
begin d/x => done
append abc => done
link uploads/refused/d=../away
commit => failed
absent uploads/refused/.medusa-tmp/part-d
absent uploads/away/x
begin a => done
append abc => done
commit => done
object a => abc";

#[test]
fn an_upload_that_is_refused_leaves_nothing(rt: HostRuntime) {
    let mut store = FolderStore::new(rt.alloc(), rt);
    assert_eq!(rt;
        first_wrong(&rt, rt.alloc(), &mut store, "refused", REFUSED),
        None
    );
}

// Behind the end of a file there is nothing, and a place that the system has no number for is a
// fault.
const PIECES: &str = "\
open uploads/places => done
put a/x=abc => done
link uploads/places/a/link=x
piece a/x 0 => abc
piece a/x 2 => c
piece a/x 3 => nothing
piece a/x 4000000000 => nothing
piece a/x 18446744073709551615 => failed
piece a 0 => absent
piece a/y 7 => absent
piece a/x/y 0 => absent
piece a/link 0 => failed
piece a//x 0 => failed";

#[test]
fn a_piece_of_an_object_is_read_from_a_place_on(rt: HostRuntime) {
    let mut store = FolderStore::new(rt.alloc(), rt);
    assert_eq!(rt;
        rows::first_wrong(&rt, rt.alloc(), &mut store, PIECES),
        None
    );
}
