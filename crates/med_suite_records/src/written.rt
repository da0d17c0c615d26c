// Texts of manifests, written by hand from the rule. The digests are those of RFC 1321, A.5.
ghost use Rattle.std.specs.Prelude.{◌≡◌, IsTrue, map};
ghost use Rattle.std.specs.List.{AllByRecursion};
ghost use Rattle.std.specs.declared.cmp.Ordering.TheVariants.{Less};
ghost use Rattle.med_base.specs.Key.{AreRising, key_cmp};

use med_base::{BackupName, Component, FileKey, Fingerprint, Fqdn, Layout, ObjPath};
use med_manifest::{FileRecord, Manifest};
use std::alloc::Global;

fn is_below_all(key: &FileKey, files: &[FileRecord]) -> bool
    ensures { IsTrue result
        → AllByRecursion (λ k. key_cmp key.now k ≡ Less) (map (λ r. r.key) files.now) }
{
    let mut rest = files;
    while let [file, after @ ..] = rest {
        if !(*key < file.key) {
            return false;
        }
        rest = after;
    }
    true
}

fn is_rising(files: &[FileRecord]) -> bool
    ensures { IsTrue result → AreRising (map (λ r. r.key) files.now) }
{
    let mut rest = files;
    while let [file, after @ ..] = rest {
        if !is_below_all(&file.key, after) {
            return false;
        }
        rest = after;
    }
    true
}

// The text of a manifest whose files are in order.
fn text_of(alloc: Global, manifest: &Manifest) -> Option<Vec<u8>> {
    if !is_rising(manifest.files.as_slice()) {
        return None;
    }
    manifest.write(alloc).ok()
}

fn key_of(alloc: Global, keyspace: &str, table: &str, file: &str) -> Option<FileKey> {
    let keyspace = Component::read(alloc, keyspace).ok()?;
    let table = Component::read(alloc, table).ok()?;
    let file = Component::read(alloc, file).ok()?;
    Some(FileKey {
        keyspace,
        table,
        file,
    })
}

// The own path of the file in the backup b1 of n1.
fn own_path(alloc: Global, key: &FileKey) -> Option<ObjPath> {
    let node = Fqdn::read(alloc, "n1").ok()?;
    let name = BackupName::read(alloc, "b1").ok()?;
    Layout::plain(alloc).own(alloc, &node, &name, key).ok()
}

// The file of a row: KEYSPACE|TABLE|FILE|BYTES.
fn record_of(alloc: Global, row: &str) -> Option<FileRecord> {
    let (keyspace, rest) = row.split_once('|')?;
    let (table, rest) = rest.split_once('|')?;
    let (file, bytes) = rest.split_once('|')?;
    let key = key_of(alloc, keyspace, table, file)?;
    let path = own_path(alloc, &key)?;
    let fingerprint = Fingerprint::of(bytes.as_bytes());
    Some(FileRecord {
        key,
        path,
        fingerprint,
    })
}

fn records_of(alloc: Global, rows: &str) -> Option<Vec<FileRecord>> {
    let mut files = Vec::new(alloc);
    for row in rows.split('\n') {
        files.push(record_of(alloc, row)?).ok()?;
    }
    Some(files)
}

fn is_text_of(alloc: Global, manifest: &Manifest, expected: &str) -> Option<bool> {
    let text = text_of(alloc, manifest)?;
    Some(text.as_slice() == expected.as_bytes())
}

// Whether the files of the rows are written so.
fn is_written(alloc: Global, rows: &str, expected: &str) -> Option<bool> {
    let files = records_of(alloc, rows)?;
    is_text_of(alloc, &Manifest { files }, expected)
}

const ABC: &str = concat!(
    r#"[{"columnfamily":"t-1","keyspace":"ks","objects":["#,
    r#"{"MD5":"900150983cd24fb0d6963f7d28e17f72","#,
    r#""path":"n1/b1/data/ks/t-1/nb-1-big-Data.db","size":3}]}]"#
);

#[test]
fn one_file_has_its_digest_path_and_size(rt: HostRuntime) {
    let rows = "ks|t-1|nb-1-big-Data.db|abc";
    assert_eq!(rt; is_written(rt.alloc(), rows, ABC), Some(true));
}

#[test]
fn no_files_are_an_empty_list(rt: HostRuntime) {
    let files = Vec::new(rt.alloc());
    assert_eq!(rt;
        is_text_of(rt.alloc(), &Manifest { files }, "[]"),
        Some(true)
    );
}

const THREE_TABLES: &str = concat!(
    r#"[{"columnfamily":"t-1","keyspace":"ks","objects":["#,
    r#"{"MD5":"900150983cd24fb0d6963f7d28e17f72","#,
    r#""path":"n1/b1/data/ks/t-1/nb-1-big-Data.db","size":3},"#,
    r#"{"MD5":"d41d8cd98f00b204e9800998ecf8427e","#,
    r#""path":"n1/b1/data/ks/t-1/nb-1-big-TOC.txt","size":0}]},"#,
    r#"{"columnfamily":"t-2","keyspace":"ks","objects":["#,
    r#"{"MD5":"0cc175b9c0f1b6a831c399e269772661","#,
    r#""path":"n1/b1/data/ks/t-2/nb-1-big-Data.db","size":1}]},"#,
    r#"{"columnfamily":"t-1","keyspace":"ks2","objects":["#,
    r#"{"MD5":"f96b697d7cb7938d525a2f31aaf161d0","#,
    r#""path":"n1/b1/data/ks2/t-1/nb-1-big-Data.db","size":14}]}]"#
);

#[test]
fn a_table_has_its_files_and_a_keyspace_its_tables(rt: HostRuntime) {
    let rows = "\
ks|t-1|nb-1-big-Data.db|abc
ks|t-1|nb-1-big-TOC.txt|
ks|t-2|nb-1-big-Data.db|a
ks2|t-1|nb-1-big-Data.db|message digest";
    assert_eq!(rt; is_written(rt.alloc(), rows, THREE_TABLES), Some(true));
}

const ESCAPED: &str = concat!(
    r#"[{"columnfamily":"\"t\"","keyspace":"ks","objects":["#,
    r#"{"MD5":"900150983cd24fb0d6963f7d28e17f72","#,
    r#""path":"n1/b1/data/ks/\"t\"/\"\\\té"#,
    "\u{7f}",
    r#"\u001f","size":3}]}]"#
);

#[test]
fn names_are_escaped_as_json_asks(rt: HostRuntime) {
    let rows = "ks|\"t\"|\"\\\té\u{7f}\u{1f}|abc";
    assert_eq!(rt; is_written(rt.alloc(), rows, ESCAPED), Some(true));
}

// The shared path of the file of n1.
fn shared_path(alloc: Global, key: &FileKey) -> Option<ObjPath> {
    let node = Fqdn::read(alloc, "n1").ok()?;
    Layout::plain(alloc).shared(alloc, &node, key).ok()
}

// The file of that number, of one table, in the order of the numbers.
fn numbered(alloc: Global, number: usize) -> Option<FileRecord> {
    let name = format!(in alloc; "nb-{number:08}-big-Data.db").ok()?;
    let key = key_of(alloc, "ks", "t-1", name.as_str())?;
    let path = shared_path(alloc, &key)?;
    let fingerprint = Fingerprint::of(name.as_bytes());
    Some(FileRecord {
        key,
        path,
        fingerprint,
    })
}

fn many(alloc: Global, count: usize) -> Option<Vec<FileRecord>> {
    let mut files = Vec::new(alloc);
    for number in 0..count {
        files.push(numbered(alloc, number)?).ok()?;
    }
    Some(files)
}

fn is_same(a: &FileRecord, b: &FileRecord) -> bool {
    a.key == b.key && a.path.as_str() == b.path.as_str() && a.fingerprint == b.fingerprint
}

fn are_same(a: &[FileRecord], b: &[FileRecord]) -> bool {
    a.len() == b.len() && a.iter().zip(b.iter()).all(|(x, y)| is_same(x, y))
}

fn read_of(alloc: Global, text: &[u8]) -> Option<Manifest> {
    let layout = Layout::plain(alloc);
    let node = Fqdn::read(alloc, "n1").ok()?;
    let name = BackupName::read(alloc, "b1").ok()?;
    Manifest::read(alloc, &layout, &node, &name, text).ok()
}

// Whether the manifest is read to the same files, in the text that it is written as.
fn is_read_back(alloc: Global, manifest: &Manifest) -> Option<bool> {
    let text = text_of(alloc, manifest)?;
    let again = read_of(alloc, text.as_slice())?;
    Some(are_same(again.files.as_slice(), manifest.files.as_slice()))
}

fn are_read_back(alloc: Global, count: usize) -> Option<bool> {
    let files = many(alloc, count)?;
    is_read_back(alloc, &Manifest { files })
}

#[test]
fn two_thousand_files_are_read_back(rt: HostRuntime) {
    assert_eq!(rt; are_read_back(rt.alloc(), 2000), Some(true));
}
