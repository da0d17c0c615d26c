// What a text is read as, for the backup b2 of n1: the paths and sizes of its files, or its fault.
use med_base::{BackupName, Fqdn, Layout};
use med_manifest::{FileRecord, Manifest, ManifestError, ManifestWhy};
use std::alloc::Global;

// The text, and behind it the path and the size of the file.
fn with_file(alloc: Global, told: &str, file: &FileRecord) -> Option<String> {
    let path = file.path.as_str();
    let size = file.fingerprint.size;
    format!(in alloc; "{told} {path} {size};").ok()
}

fn files_told(alloc: Global, files: &[FileRecord]) -> Option<String> {
    let mut told = String::from_str(alloc, "files").ok()?;
    for file in files {
        told = with_file(alloc, told.as_str(), file)?;
    }
    Some(told)
}

fn why_told(alloc: Global, why: &ManifestWhy) -> Option<String> {
    match why {
        ManifestWhy::NotJson => String::from_str(alloc, "not json").ok(),
        ManifestWhy::NotManifest { at } => format!(in alloc; "not manifest {at}").ok(),
        ManifestWhy::BadDigest { at } => format!(in alloc; "bad digest {at}").ok(),
        ManifestWhy::ForeignPath { path } => {
            let path = path.as_str();
            format!(in alloc; "foreign <{path}>").ok()
        }
        ManifestWhy::DuplicatePath { path } => {
            let path = path.as_str();
            format!(in alloc; "duplicate <{path}>").ok()
        }
    }
}

fn told(alloc: Global, read: &Result<Manifest, ManifestError>) -> Option<String> {
    match read {
        Ok(manifest) => files_told(alloc, manifest.files.as_slice()),
        Err(ManifestError::Why(why)) => why_told(alloc, why),
        Err(ManifestError::Memory) => None,
    }
}

// What bytes are read as, where the prefix stands before each path.
pub(crate) fn read_of(
    alloc: Global,
    prefix: &str,
    bytes: &[u8],
) -> Option<Result<Manifest, ManifestError>> {
    let layout = Layout::new(alloc, prefix).ok()?;
    let node = Fqdn::read(alloc, "n1").ok()?;
    let name = BackupName::read(alloc, "b2").ok()?;
    Some(Manifest::read(alloc, &layout, &node, &name, bytes))
}

// Whether bytes are read as the answer says, under a prefix.
pub(crate) fn is_read(alloc: Global, prefix: &str, bytes: &[u8], answer: &str) -> Option<bool> {
    let read = read_of(alloc, prefix, bytes)?;
    let told = told(alloc, &read)?;
    Some(told.as_str() == answer)
}

// Whether the text with the cell in the place of `$` is read as the answer says, under a prefix.
pub(crate) fn is_cell_read(
    alloc: Global,
    prefix: &str,
    text: &str,
    cell: &str,
    answer: &str,
) -> Option<bool> {
    let whole = text.replace(alloc, '$', cell).ok()?;
    is_read(alloc, prefix, whole.as_bytes(), answer)
}

fn is_right(alloc: Global, text: &str, row: &str) -> Option<bool> {
    let row = row.replace(alloc, '\u{b6}', "\n").ok()?;
    let (cell, answer) = row.as_str().split_once(" => ")?;
    is_cell_read(alloc, "", text, cell, answer)
}

// The first row of the table that isn't read as it says, its cell in the text.
pub(crate) fn first_wrong<'a>(alloc: Global, text: &str, table: &'a str) -> Option<&'a str> {
    for row in table.split('\n') {
        if is_right(alloc, text, row) != Some(true) {
            return Some(row);
        }
    }
    None
}

// One table with one file, whose path is the cell.
pub(crate) const PATH: &str = concat!(
    r#"[{"columnfamily":"t","keyspace":"ks","objects":["#,
    r#"{"MD5":"900150983cd24fb0d6963f7d28e17f72","path":$,"size":1}]}]"#
);
