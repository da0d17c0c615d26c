// Names and prefixes: the place at which each reader finds the first fault.
use med_base::{BackupName, Component, Fqdn, Layout, NameError};
use std::alloc::Global;

// The text of a cell: `{PART*COUNT}` is so many times the part, and `¶` a line feed.
fn text_of(alloc: Global, cell: &str) -> Option<String> {
    let Some((front, rest)) = cell.split_once('{') else {
        return cell.replace(alloc, '\u{b6}', "\n").ok();
    };
    let (part, rest) = rest.split_once('*')?;
    let (count, end) = rest.split_once('}')?;
    let parts = part.repeat(alloc, count.parse::<usize>().ok()?).ok()?;
    format!(in alloc; "{front}{parts}{end}").ok()
}

// Whether a reading is what its cell says: `fits`, or the place of the first fault.
fn is_reading<T: Drop>(reading: Result<T, NameError>, cell: &str) -> bool {
    match reading {
        Ok(_) => cell == "fits",
        Err(NameError::BadName { at }) => cell.parse::<usize>().ok() == Some(at),
        Err(NameError::Memory) => false,
    }
}

// Whether a row is right: TEXT|COMPONENT|NODE|BACKUP|PREFIX, what each reader says of the text.
fn is_name_right(alloc: Global, row: &str) -> Option<bool> {
    let (text, rest) = row.split_once('|')?;
    let (component, rest) = rest.split_once('|')?;
    let (node, rest) = rest.split_once('|')?;
    let (backup, prefix) = rest.split_once('|')?;
    let text = text_of(alloc, text)?;
    let text = text.as_str();
    Some(
        is_reading(Component::read(alloc, text), component)
            && is_reading(Fqdn::read(alloc, text), node)
            && is_reading(BackupName::read(alloc, text), backup)
            && is_reading(Layout::new(alloc, text), prefix),
    )
}

// The first row of names that isn't right.
fn first_wrong_name<'a>(alloc: Global, table: &'a str) -> Option<&'a str> {
    for row in table.split('\n') {
        if is_name_right(alloc, row) != Some(true) {
            return Some(row);
        }
    }
    None
}

const NAMES: &str = "\
|0|0|0|fits
a|fits|fits|fits|fits
.|0|0|0|0
..|0|0|0|0
...|fits|0|0|0
.hidden|fits|0|0|0
.a/b|2|0|0|0
index|fits|0|fits|fits
index2|fits|fits|fits|fits
data|fits|fits|0|fits
meta|fits|fits|0|fits
data2|fits|fits|fits|fits
/|0|0|0|0
a/b|1|1|1|fits
ab\0|2|2|2|0
abc¶d/|3|3|3|0
a b\t\u{e9}|fits|fits|fits|fits";

#[test]
fn each_reader_tells_the_first_fault(rt: HostRuntime) {
    assert_eq!(rt; first_wrong_name(rt.alloc(), NAMES), None);
}

const LONG_NAMES: &str = "\
{a*200}|fits|fits|fits|fits
{a*201}|fits|200|200|fits
{a*255}|fits|200|200|fits
{a*256}|255|200|200|0
{a*300}/|300|300|300|0
{a*199}\u{e9}|fits|200|200|fits
{a*254}\u{e9}|255|200|200|0";

#[test]
fn names_end_at_200_bytes_and_components_at_255(rt: HostRuntime) {
    assert_eq!(rt; first_wrong_name(rt.alloc(), LONG_NAMES), None);
}

// Whether a row is right: PREFIX|READING.
fn is_prefix_right(alloc: Global, row: &str) -> Option<bool> {
    let (prefix, reading) = row.split_once('|')?;
    let prefix = text_of(alloc, prefix)?;
    Some(is_reading(Layout::new(alloc, prefix.as_str()), reading))
}

// The first row of prefixes that isn't right.
fn first_wrong_prefix<'a>(alloc: Global, table: &'a str) -> Option<&'a str> {
    for row in table.split('\n') {
        if is_prefix_right(alloc, row) != Some(true) {
            return Some(row);
        }
    }
    None
}

const PREFIXES: &str = "\
|fits
a|fits
index|fits
a/b.c/d|fits
/|0
/a|0
a/|2
a//b|2
a/.b|2
a/../b|2
a/b¶c|2";

#[test]
fn a_prefix_is_joined_components_without_a_leading_dot(rt: HostRuntime) {
    assert_eq!(rt; first_wrong_prefix(rt.alloc(), PREFIXES), None);
}

const LONG_PREFIXES: &str = "\
{a/*255}aa|fits
{a/*255}aaa|512
{a/*256}|512
{a/*256}.a|512
{a/*257}.a|512
{a/*255}.a|510
{a/*255}.aaa|510
a/.b/{a/*300}a|2";

#[test]
fn a_prefix_ends_at_512_bytes(rt: HostRuntime) {
    assert_eq!(rt; first_wrong_prefix(rt.alloc(), LONG_PREFIXES), None);
}
