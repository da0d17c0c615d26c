// Copies, the order of keys, and numbers; and values that tests of several modules use.
use crate::cells::is_number;
use med_base::{BackupName, Component, FileKey, Fqdn, Layout, ObjPath, cut_at, decimal_in};
use std::alloc::Global;
use std::cmp::Ordering;

fn component(alloc: Global, text: &str) -> Option<Component> {
    Component::read(alloc, text).ok()
}

/// The key that a text tells: KEYSPACE/TABLE/FILE.
pub(crate) fn key_of(alloc: Global, text: &str) -> Option<FileKey> {
    let (keyspace, rest) = text.split_once('/')?;
    let (table, file) = rest.split_once('/')?;
    Some(FileKey {
        keyspace: component(alloc, keyspace)?,
        table: component(alloc, table)?,
        file: component(alloc, file)?,
    })
}

fn is_component_copied(alloc: Global) -> Option<bool> {
    let part = Component::read(alloc, "ks").ok()?;
    Some(part.copy(alloc).ok()?.as_str() == "ks")
}

fn is_node_copied(alloc: Global) -> Option<bool> {
    let node = Fqdn::read(alloc, "n1").ok()?;
    Some(node.copy(alloc).ok()?.as_str() == "n1")
}

fn is_backup_copied(alloc: Global) -> Option<bool> {
    let backup = BackupName::read(alloc, "b1").ok()?;
    Some(backup.copy(alloc).ok()?.as_str() == "b1")
}

fn is_path_copied(alloc: Global) -> Option<bool> {
    let path = ObjPath::of(alloc, "n1/b1").ok()?;
    Some(path.copy(alloc).ok()?.as_str() == "n1/b1")
}

fn is_key_copied(alloc: Global) -> Option<bool> {
    let key = key_of(alloc, "ks/t-1/nb-1-big-Data.db")?;
    Some(key.copy(alloc).ok()? == key)
}

// The folder of the node `n1` under the copy of a layout.
fn folder_of_copy(alloc: Global, layout: &Layout) -> Option<String> {
    let node = Fqdn::read(alloc, "n1").ok()?;
    layout.copy(alloc).ok()?.node_folder(alloc, &node).ok()
}

fn is_layout_copied(alloc: Global) -> Option<bool> {
    let layout = Layout::new(alloc, "pre/fix").ok()?;
    Some(folder_of_copy(alloc, &layout)?.as_str() == "pre/fix/n1/")
}

#[test]
fn a_copy_is_equal(rt: HostRuntime) {
    assert_eq!(rt; is_component_copied(rt.alloc()), Some(true));
    assert_eq!(rt; is_node_copied(rt.alloc()), Some(true));
    assert_eq!(rt; is_backup_copied(rt.alloc()), Some(true));
    assert_eq!(rt; is_path_copied(rt.alloc()), Some(true));
    assert_eq!(rt; is_key_copied(rt.alloc()), Some(true));
    assert_eq!(rt; is_layout_copied(rt.alloc()), Some(true));
}

// Whether the first key of a row stands before the second, by each call that compares.
fn are_in_order(alloc: Global, row: &str) -> Option<bool> {
    let (low, high) = row.split_once('|')?;
    let low = key_of(alloc, low)?;
    let high = key_of(alloc, high)?;
    Some(low.cmp(&high) == Ordering::Less && high > low && low != high)
}

const KEYS: &str = "\
a/z/z|b/a/a
a/z/z|a-1/a/a
k/t-1/z|k/t-1.i/a
k/t/Z|k/t/a
k/t/z|k/t/\u{e9}";

#[test]
fn keys_stand_in_order_of_their_parts(rt: HostRuntime) {
    for row in KEYS.split('\n') {
        assert_eq!(rt; are_in_order(rt.alloc(), row), Some(true), "at {row}");
    }
}

#[test]
fn a_text_is_cut_at_the_first_such_byte(rt: HostRuntime) {
    let (first, rest) = cut_at(b"ab/c/d", b'/');
    assert_eq!(rt; first, b"ab".as_slice());
    assert_eq!(rt; rest, Some(b"c/d".as_slice()));
    let (whole, none) = cut_at(b"ab", b'/');
    assert_eq!(rt; whole, b"ab".as_slice());
    assert!(rt; none.is_none());
}

// Whether a row is right: TEXT|PLACES|LIMIT|NUMBER.
fn is_number_right(row: &str) -> Option<bool> {
    let (text, rest) = row.split_once('|')?;
    let (places, rest) = rest.split_once('|')?;
    let (limit, number) = rest.split_once('|')?;
    let places = places.parse::<usize>().ok()?;
    let limit = limit.parse::<u32>().ok()?;
    Some(match decimal_in(text, places, limit) {
        Some(answer) => is_number(Some(answer.into()), number),
        None => is_number(None, number),
    })
}

const NUMBERS: &str = "\
0|4|64|0
64|4|64|64
65|4|64|none
0064|4|64|64
00064|4|64|none
|4|64|none
+1|4|64|none
-1|4|64|none
 1|4|64|none
1.|4|64|none
\u{663}|4|64|none
4294967295|10|4294967295|4294967295
4294967296|10|4294967295|none
9999999999|10|4294967295|none";

#[test]
fn a_number_has_few_digits_and_a_limit(rt: HostRuntime) {
    for row in NUMBERS.split('\n') {
        assert_eq!(rt; is_number_right(row), Some(true), "at {row}");
    }
}
