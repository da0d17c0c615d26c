// Files by their names.
use med_folder::RealFiles;
use med_mem::MemFiles;
use med_outside::Files;
use med_suite_rows::calls::refusal;
use med_suite_rows::places::{first_undone, long_file, write_file};
use std::alloc::Global;

// Whether bytes are those of the text. `long` stands for those of the long file.
pub(crate) fn is_text(bytes: &[u8], wanted: &str, long: &[u8]) -> bool {
    if wanted == "long" {
        bytes == long
    } else {
        bytes == wanted.as_bytes()
    }
}

// A name answers its bytes, `none`, or a refusal.
fn is_right<F: Files>(alloc: Global, files: &mut F, long: &[u8], row: &str) -> Option<bool> {
    let (name, wanted) = row.split_once(" => ")?;
    match files.read(alloc, name) {
        Ok(Some(bytes)) => Some(is_text(bytes.as_slice(), wanted, long)),
        Ok(None) => Some(wanted == "none"),
        Err(denied) => Some(refusal(denied) == wanted),
    }
}

// The first row that the files answer otherwise.
fn first_wrong<'a, F: Files>(
    alloc: Global,
    files: &mut F,
    long: &[u8],
    table: &'a str,
) -> Option<&'a str> {
    for row in table.split('\n') {
        if is_right(alloc, files, long, row) != Some(true) {
            return Some(row);
        }
    }
    None
}

fn add(alloc: Global, files: &mut MemFiles, name: &str, text: &str) -> Option<()> {
    let bytes = text.as_bytes().to_vec(alloc).ok()?;
    files.add(alloc, name, bytes).ok()
}

// Adds two files of one name. The third call is to fail.
fn add_two(alloc: Global, files: &mut MemFiles) -> Option<()> {
    add(alloc, files, "m.ini", "abc")?;
    add(alloc, files, "m.ini", "de")?;
    files.fail_at(3).ok()
}

const ADDED: &str = "\
m.ini => abc
n.ini => none
m.ini => failed
m.ini => abc";

#[test]
fn files_are_read_by_name_and_fail_where_told(rt: HostRuntime) {
    let mut files = MemFiles::new(rt.alloc());
    assert_eq!(rt; add_two(rt.alloc(), &mut files), Some(()));
    assert_eq!(rt; first_wrong(rt.alloc(), &mut files, b"", ADDED), None);
}

const MADE: &str = "\
file conf/medusa.ini=abc
link conf/link=medusa.ini
link conf/dangling=nowhere";

const NAMED: &str = "\
conf/medusa.ini => abc
conf/long => long
conf/link => abc
conf/dangling => none
conf/other.ini => none
conf/medusa.ini/x => none
conf/me\0dusa.ini => none
 => none
conf => failed";

#[test]
fn files_are_read_by_name_and_a_folder_is_a_fault(rt: HostRuntime) {
    let long = long_file(rt.alloc());
    assert_eq!(rt; first_undone(&rt, MADE), None);
    assert!(rt; write_file(&rt, "conf/long", long.as_slice()).is_ok());
    let mut files = RealFiles::new(rt);
    assert_eq!(rt;
        first_wrong(rt.alloc(), &mut files, long.as_slice(), NAMED),
        None
    );
}
