// The calls of a storage, as rows have them. It is at rest before and after each, under the layout
// with nothing before its paths. A put or a get of a data object is told as failed and isn't made.
ghost use Rattle.std.specs.Prelude.{[]};
ghost use Rattle.med_outside.specs.State.{IsReady};

use crate::pages::are_pages;
use crate::uploads::{is_dropped, is_uploaded};
use med_base::{Fingerprint, Layout, ObjPath, md5_text};
use med_outside::{Denied, Entry, Piece, Stat, Storage};
use std::alloc::Global;

/// How a row names a refusal.
pub fn refusal(denied: Denied) -> &'static str {
    match denied {
        Denied::Failed => "failed",
        Denied::Memory => "memory",
    }
}

/// Whether a number is written so.
pub fn is_number(alloc: Global, number: u64, wanted: &str) -> Option<bool> {
    Some(format!(in alloc; "{number}").ok()?.as_str() == wanted)
}

pub fn put<S: Storage>(alloc: Global, store: &mut S, path: &str, text: &str) -> Result<u64, Denied>
    requires { IsReady [] (S.state store.old) }
    ensures { IsReady [] (S.state store.new) }
{
    let path = ObjPath::of(alloc, path)?;
    if Layout::plain(alloc).is_data(&path) {
        return Err(Denied::Failed);
    }
    store.put(alloc, &path, text.as_bytes())
}

fn get<S: Storage>(alloc: Global, store: &mut S, path: &str) -> Result<Option<Vec<u8>>, Denied>
    requires { IsReady [] (S.state store.old) }
    ensures { IsReady [] (S.state store.new) }
{
    let path = ObjPath::of(alloc, path)?;
    if Layout::plain(alloc).is_data(&path) {
        return Err(Denied::Failed);
    }
    store.get(alloc, &path)
}

fn stat<S: Storage>(alloc: Global, store: &mut S, path: &str) -> Result<Option<Stat>, Denied>
    requires { IsReady [] (S.state store.old) }
    ensures { IsReady [] (S.state store.new) }
{
    let path = ObjPath::of(alloc, path)?;
    store.stat(alloc, &path)
}

fn get_piece<S: Storage>(
    alloc: Global,
    store: &mut S,
    path: &str,
    from: u64,
) -> Result<Option<Piece>, Denied>
    requires { IsReady [] (S.state store.old) }
    ensures { IsReady [] (S.state store.new) }
{
    let path = ObjPath::of(alloc, path)?;
    store.get_piece(alloc, &path, from)
}

fn delete<S: Storage>(alloc: Global, store: &mut S, path: &str) -> Result<(), Denied>
    requires { IsReady [] (S.state store.old) }
    ensures { IsReady [] (S.state store.new) }
{
    let path = ObjPath::of(alloc, path)?;
    store.delete(alloc, &path)
}

/// The first page of a listing, which is all of it where there are at most 1,000 entries.
pub fn list<S: Storage>(alloc: Global, store: &mut S, under: &str) -> Result<Vec<Entry>, Denied>
    requires { IsReady [] (S.state store.old) }
    ensures { IsReady [] (S.state store.new) }
{
    let page = store.list_page(alloc, under, None)?;
    Ok(page.entries)
}

fn open<S: Storage>(alloc: Global, store: &mut S, base: &str, bucket: &str) -> Result<(), Denied>
    requires { IsReady [] (S.state store.old) }
    ensures { IsReady [] (S.state store.new) }
{
    store.open(alloc, base, bucket, &Layout::plain(alloc))
}

/// Whether one entry is listed under the path, with that second.
pub(crate) fn is_dated<S: Storage>(
    alloc: Global,
    store: &mut S,
    path: &str,
    second: u64,
) -> Option<bool>
    requires { IsReady [] (S.state store.old) }
    ensures { IsReady [] (S.state store.new) }
{
    match list(alloc, store, path).ok()?.as_slice() {
        [entry] => Some(entry.second == second),
        _ => Some(false),
    }
}

// A put answers `done`, a second, `listed` where the entry has that second, or a refusal.
fn is_put<S: Storage>(alloc: Global, store: &mut S, object: &str, wanted: &str) -> Option<bool>
    requires { IsReady [] (S.state store.old) }
    ensures { IsReady [] (S.state store.new) }
{
    let (path, text) = object.split_once('=')?;
    match put(alloc, store, path, text) {
        Ok(_) if wanted == "done" => Some(true),
        Ok(second) if wanted == "listed" => is_dated(alloc, store, path, second),
        Ok(second) => is_number(alloc, second, wanted),
        Err(denied) => Some(refusal(denied) == wanted),
    }
}

// An object's bytes, `absent`, or a refusal.
fn is_got<S: Storage>(alloc: Global, store: &mut S, path: &str, wanted: &str) -> Option<bool>
    requires { IsReady [] (S.state store.old) }
    ensures { IsReady [] (S.state store.new) }
{
    match get(alloc, store, path) {
        Ok(Some(bytes)) => Some(bytes.as_slice() == wanted.as_bytes()),
        Ok(None) => Some(wanted == "absent"),
        Err(denied) => Some(refusal(denied) == wanted),
    }
}

/// Whether the object is the first that is listed under its path, with that size and second.
pub fn is_listed<S: Storage>(alloc: Global, store: &mut S, path: &str, stat: &Stat) -> Option<bool>
    requires { IsReady [] (S.state store.old) }
    ensures { IsReady [] (S.state store.new) }
{
    match list(alloc, store, path).ok()?.as_slice() {
        [entry, ..] => Some(
            entry.path.as_str() == path
                && entry.size == stat.fingerprint.size
                && entry.second == stat.second,
        ),
        [] => Some(false),
    }
}

// The bytes whose fingerprint is told, `absent`, or a refusal. The listing has the size and the
// second that are told.
fn is_looked_at<S: Storage>(alloc: Global, store: &mut S, path: &str, wanted: &str) -> Option<bool>
    requires { IsReady [] (S.state store.old) }
    ensures { IsReady [] (S.state store.new) }
{
    match stat(alloc, store, path) {
        Ok(Some(stat)) => {
            let is_same = stat.fingerprint == Fingerprint::of(wanted.as_bytes());
            Some(is_same && is_listed(alloc, store, path, &stat)?)
        }
        Ok(None) => Some(wanted == "absent"),
        Err(denied) => Some(refusal(denied) == wanted),
    }
}

// What `get` and `stat` answer.
fn is_object<S: Storage>(alloc: Global, store: &mut S, path: &str, wanted: &str) -> Option<bool>
    requires { IsReady [] (S.state store.old) }
    ensures { IsReady [] (S.state store.new) }
{
    let is_got = is_got(alloc, store, path, wanted)?;
    Some(is_got && is_looked_at(alloc, store, path, wanted)?)
}

// The digest that `stat` tells, in hexadecimal digits.
fn is_digest<S: Storage>(alloc: Global, store: &mut S, path: &str, wanted: &str) -> Option<bool>
    requires { IsReady [] (S.state store.old) }
    ensures { IsReady [] (S.state store.new) }
{
    let stat = stat(alloc, store, path).ok()??;
    Some(md5_text(alloc, &stat.fingerprint.md5).ok()?.as_str() == wanted)
}

// The bytes of an object from a place on, `nothing` where there are none, `absent`, or a refusal.
fn is_piece<S: Storage>(alloc: Global, store: &mut S, place: &str, wanted: &str) -> Option<bool>
    requires { IsReady [] (S.state store.old) }
    ensures { IsReady [] (S.state store.new) }
{
    let (path, from) = place.split_once(' ')?;
    match get_piece(alloc, store, path, from.parse::<u64>().ok()?) {
        Ok(Some(piece)) if piece.bytes().is_empty() => Some(wanted == "nothing"),
        Ok(Some(piece)) => Some(piece.bytes() == wanted.as_bytes()),
        Ok(None) => Some(wanted == "absent"),
        Err(denied) => Some(refusal(denied) == wanted),
    }
}

// Room for so many changes answers `done`, or `memory`.
fn is_roomy<S: Storage>(alloc: Global, store: &mut S, changes: &str, wanted: &str) -> Option<bool>
    requires { IsReady [] (S.state store.old) }
    ensures { IsReady [] (S.state store.new) }
{
    match store.make_room(alloc, changes.parse::<u64>().ok()?) {
        Ok(()) => Some(wanted == "done"),
        Err(_) => Some(wanted == "memory"),
    }
}

// A delete answers `done`, or a refusal.
fn is_deleted<S: Storage>(alloc: Global, store: &mut S, path: &str, wanted: &str) -> Option<bool>
    requires { IsReady [] (S.state store.old) }
    ensures { IsReady [] (S.state store.new) }
{
    match delete(alloc, store, path) {
        Ok(()) => Some(wanted == "done"),
        Err(denied) => Some(refusal(denied) == wanted),
    }
}

fn push_entry(alloc: Global, text: &mut String, entry: &Entry, number: u64) -> Option<()> {
    let path = entry.path.as_str();
    let line = format!(in alloc; "{path} {number};").ok()?;
    text.push_str(line.as_str()).ok()
}

/// Each entry with its size, or each with its second.
pub fn entries_text(alloc: Global, entries: &[Entry], is_size: bool) -> Option<String> {
    let mut text = String::new(alloc);
    for entry in entries {
        let number = if is_size { entry.size } else { entry.second };
        push_entry(alloc, &mut text, entry, number)?;
    }
    Some(text)
}

// A listing answers its entries, each with a semicolon, `nothing`, or a refusal.
fn is_list<S: Storage>(
    alloc: Global,
    store: &mut S,
    under: &str,
    is_size: bool,
    wanted: &str,
) -> Option<bool>
    requires { IsReady [] (S.state store.old) }
    ensures { IsReady [] (S.state store.new) }
{
    match list(alloc, store, under) {
        Ok(entries) if entries.is_empty() => Some(wanted == "nothing"),
        Ok(entries) => {
            let text = entries_text(alloc, entries.as_slice(), is_size)?;
            Some(text.as_str() == wanted)
        }
        Err(denied) => Some(refusal(denied) == wanted),
    }
}

fn is_opened<S: Storage>(alloc: Global, store: &mut S, bucket: &str, wanted: &str) -> Option<bool>
    requires { IsReady [] (S.state store.old) }
    ensures { IsReady [] (S.state store.new) }
{
    let (base, bucket) = bucket.split_once('/')?;
    match open(alloc, store, base, bucket) {
        Ok(()) => Some(wanted == "done"),
        Err(denied) => Some(refusal(denied) == wanted),
    }
}

/// Whether a storage answers a call as wanted: `open BASE/BUCKET`, `put PATH=TEXT`, `get PATH`,
/// `stat PATH`, `object PATH` of both, `digest PATH`, `piece PATH PLACE`, `delete PATH`,
/// `sizes UNDER` and `seconds UNDER` of the first page of a listing, `pages UNDER`,
/// `upload PATH=PIECES`, `drop PATH=PIECES`, `room CHANGES`, or `now`.
pub fn is_answered<S: Storage>(
    alloc: Global,
    store: &mut S,
    call: &str,
    wanted: &str,
) -> Option<bool>
    requires { IsReady [] (S.state store.old) }
    ensures { IsReady [] (S.state store.new) }
{
    let (word, rest) = call.split_once(' ').unwrap_or((call, ""));
    match word {
        "open" => is_opened(alloc, store, rest, wanted),
        "put" => is_put(alloc, store, rest, wanted),
        "get" => is_got(alloc, store, rest, wanted),
        "piece" => is_piece(alloc, store, rest, wanted),
        "stat" => is_looked_at(alloc, store, rest, wanted),
        "object" => is_object(alloc, store, rest, wanted),
        "digest" => is_digest(alloc, store, rest, wanted),
        "delete" => is_deleted(alloc, store, rest, wanted),
        "sizes" => is_list(alloc, store, rest, true, wanted),
        "seconds" => is_list(alloc, store, rest, false, wanted),
        "pages" => are_pages(alloc, store, rest, wanted),
        "upload" => is_uploaded(alloc, store, rest, wanted),
        "drop" => is_dropped(alloc, store, rest, wanted),
        "room" => is_roomy(alloc, store, rest, wanted),
        "now" => is_number(alloc, store.now(), wanted),
        _ => None,
    }
}

fn is_right<S: Storage>(alloc: Global, store: &mut S, row: &str) -> Option<bool>
    requires { IsReady [] (S.state store.old) }
    ensures { IsReady [] (S.state store.new) }
{
    let (call, wanted) = row.split_once(" => ")?;
    is_answered(alloc, store, call, wanted)
}

/// The first row that the storage answers otherwise.
pub fn first_wrong<'a, S: Storage>(alloc: Global, store: &mut S, table: &'a str) -> Option<&'a str>
    requires { IsReady [] (S.state store.old) }
    ensures { IsReady [] (S.state store.new) }
{
    for row in table.split('\n') {
        if is_right(alloc, store, row) != Some(true) {
            return Some(row);
        }
    }
    None
}
