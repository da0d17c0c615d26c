// Backups of a node, and what they leave.
ghost use Rattle.std.specs.Prelude.{◌≡◌, [], IfSome};
ghost use Rattle.med_outside.specs.State.{IsReady};

use crate::snapshots::opened;
use med_backup::{BackupError, BackupReport, backup_node};
use med_base::{BackupName, Fqdn, Layout};
use med_mem::MemStore;
use med_outside::{CopyFault, Mode, Snap, Storage, Trace};
use med_shelf::Shelf;
use med_suite_rows::calls::first_wrong;
use std::alloc::Global;

/// A token map that has the node.
pub(crate) const RING: &str = r#"{"n1":{"dc":"d","is_up":true,"rack":"r","tokens":[1]}}"#;

/// A shelf of the node n1.
pub(crate) fn shelf_of(alloc: Global) -> Option<Shelf>
    ensures { IfSome result (λ shelf. shelf.layout ≡ []) }
{
    let node = Fqdn::read(alloc, "n1").ok()?;
    Some(Shelf::new(alloc, Layout::plain(alloc), node))
}

fn report_told(alloc: Global, report: &BackupReport) -> Option<String> {
    let (name, node) = (report.name.as_str(), report.node.as_str());
    let (files, bytes) = (report.files, report.bytes);
    let mut text = format!(in alloc; "{name} of {node}: {files} files, ").ok()?;
    let (reused, stored, aside) = (report.reused, report.stored, report.aside);
    let counts = format!(in alloc; "{bytes} bytes, {reused} {stored} {aside}").ok()?;
    text.push_str(counts.as_str()).ok()?;
    Some(text)
}

fn fault_told(fault: &CopyFault) -> &'static str {
    match fault {
        CopyFault::Snap => "snap",
        CopyFault::Store => "store",
        CopyFault::Memory => "memory",
    }
}

fn error_told(alloc: Global, error: &BackupError) -> Option<String> {
    match error {
        BackupError::NoSnapshot => String::from_str(alloc, "no snapshot").ok(),
        BackupError::BadFileName { at } => format!(in alloc; "bad file name {}", *at).ok(),
        BackupError::BadRing(_why) => String::from_str(alloc, "bad ring").ok(),
        BackupError::NotInRing { host } => format!(in alloc; "not in ring {}", host.as_str()).ok(),
        BackupError::Running { name } => format!(in alloc; "running {}", name.as_str()).ok(),
        BackupError::Taken { path } => format!(in alloc; "taken {}", path.as_str()).ok(),
        BackupError::Fault(fault) => String::from_str(alloc, fault_told(fault)).ok(),
    }
}

// What a backup answers: its name and node, the files and bytes of its manifest, and how many files were
// reused, stored and set aside; or why it wasn't made.
fn told(alloc: Global, answer: &Result<BackupReport, BackupError>) -> Option<String> {
    match answer {
        Ok(report) => report_told(alloc, report),
        Err(error) => error_told(alloc, error),
    }
}

/// What a backup of the name answers.
pub(crate) fn answer_of<S: Storage, P: Snap>(
    alloc: Global,
    store: &mut S,
    shelf: &mut Shelf,
    snap: &mut P,
    name: &BackupName,
    mode: Mode,
) -> Option<String>
    requires layout { shelf.old.layout ≡ [] }
    requires ready { IsReady [] (S.state store.old) }
    ensures ready { IsReady [] (S.state store.new) }
{
    let mut trace = Trace::new(alloc);
    let answer = backup_node(alloc, shelf, store, snap, name, mode, &mut trace);
    told(alloc, &answer)
}

/// What a backup `NAME MODE FILES` answers, on a shelf of its own, with this ring. The call of that
/// number of its snapshot fails.
pub(crate) fn backed_up<S: Storage>(
    alloc: Global,
    store: &mut S,
    line: &str,
    ring: &str,
    failing: Option<u64>,
) -> Option<String>
    requires { IsReady [] (S.state store.old) }
    ensures { IsReady [] (S.state store.new) }
{
    let (name, rest) = line.split_once(' ')?;
    let (mode, files) = rest.split_once(' ')?;
    let mode = if mode == "full" {
        Mode::Full
    } else {
        Mode::Differential
    };
    let mut shelf = shelf_of(alloc)?;
    let name = BackupName::read(alloc, name).ok()?;
    let mut snap = opened(alloc, files, ring, failing)?;
    answer_of(alloc, store, &mut shelf, &mut snap, &name, mode)
}

// Whether the row is right: `backup NAME MODE FILES => ANSWER`, or one of a storage.
fn is_right<S: Storage>(alloc: Global, store: &mut S, row: &str, ring: &str) -> Option<bool>
    requires { IsReady [] (S.state store.old) }
    ensures { IsReady [] (S.state store.new) }
{
    match row.strip_prefix("backup ") {
        None => Some(first_wrong(alloc, store, row).is_none()),
        Some(backup) => {
            let (line, wanted) = backup.split_once(" => ")?;
            Some(backed_up(alloc, store, line, ring, None)?.as_str() == wanted)
        }
    }
}

/// The first row that is wrong.
pub(crate) fn first_wrong_row<'a, S: Storage>(
    alloc: Global,
    store: &mut S,
    table: &'a str,
    ring: &str,
) -> Option<&'a str>
    requires { IsReady [] (S.state store.old) }
    ensures { IsReady [] (S.state store.new) }
{
    for row in table.split('\n') {
        if is_right(alloc, store, row, ring) != Some(true) {
            return Some(row);
        }
    }
    None
}

// The first row that is wrong over an empty bucket, whose puts have the seconds from 1000 on.
fn first_wrong_of<'a>(alloc: Global, table: &'a str, ring: &str) -> Option<&'a str> {
    let mut store = MemStore::new(alloc, 1000, 1);
    if first_wrong(alloc, &mut store, "open b/k => done").is_some() {
        return Some("open");
    }
    first_wrong_row(alloc, &mut store, table, ring)
}

// Four puts of the claim, two files, the manifest, two entries, and the two latest objects.
const FULL: &str = "\
backup b1 full b=hello,a=abc => b1 of n1: 2 files, 8 bytes, 0 2 0
seconds  => index/backup_index/b1/finished_n1_1006.timestamp 1008;\
index/backup_index/b1/manifest_n1.json 1007;\
index/backup_index/b1/started_n1_1000.timestamp 1003;\
index/backup_index/b1/tokenmap_n1.json 1002;\
index/latest_backup/n1/backup_name.txt 1009;index/latest_backup/n1/tokenmap.json 1010;\
n1/b1/data/ks/t-1/a 1004;n1/b1/data/ks/t-1/b 1005;n1/b1/meta/manifest.json 1006;\
n1/b1/meta/schema.cql 1000;n1/b1/meta/tokenmap.json 1001;
piece n1/b1/data/ks/t-1/a 0 => abc
piece n1/b1/data/ks/t-1/b 0 => hello
object n1/b1/meta/schema.cql => s
object n1/b1/meta/tokenmap.json => {\"n1\":{\"dc\":\"d\",\"is_up\":true,\"rack\":\"r\",\"tokens\":[1]}}
object n1/b1/meta/manifest.json => [{\"columnfamily\":\"t-1\",\"keyspace\":\"ks\",\"objects\":\
[{\"MD5\":\"900150983cd24fb0d6963f7d28e17f72\",\"path\":\"n1/b1/data/ks/t-1/a\",\"size\":3},\
{\"MD5\":\"5d41402abc4b2a76b9719d911017c592\",\"path\":\"n1/b1/data/ks/t-1/b\",\"size\":5}]}]
object index/latest_backup/n1/backup_name.txt => b1
backup b1 full a=abc => taken n1/b1/data/ks/t-1/a
backup b1 differential a=abc => taken n1/b1/data/ks/t-1/a";

#[test]
fn a_full_backup_has_files_of_its_own_and_takes_its_name(rt: HostRuntime) {
    assert_eq!(rt; first_wrong_of(rt.alloc(), FULL, RING), None);
}

/// Two differential backups and a full one, and what they leave, but for seconds.
pub(crate) const SHARED: &str = "\
backup d1 differential a=abc,b=x => d1 of n1: 2 files, 4 bytes, 0 2 0
backup d2 differential a=abc,b=yy,c=z => d2 of n1: 3 files, 6 bytes, 1 1 1
piece n1/data/ks/t-1/a 0 => abc
piece n1/data/ks/t-1/b 0 => x
piece n1/data/ks/t-1/c 0 => z
sizes n1/d1/data/ => nothing
sizes n1/d2/data/ => n1/d2/data/ks/t-1/b 2;
piece n1/d2/data/ks/t-1/b 0 => yy
object n1/d2/meta/differential => 
object n1/d2/meta/manifest.json => [{\"columnfamily\":\"t-1\",\"keyspace\":\"ks\",\"objects\":\
[{\"MD5\":\"900150983cd24fb0d6963f7d28e17f72\",\"path\":\"n1/data/ks/t-1/a\",\"size\":3},\
{\"MD5\":\"2fb1c5cf58867b5bbc9a1b145a86f3a0\",\"path\":\"n1/d2/data/ks/t-1/b\",\"size\":2},\
{\"MD5\":\"fbade9e36a3f36d3d676c1b808451dd7\",\"path\":\"n1/data/ks/t-1/c\",\"size\":1}]}]
object index/latest_backup/n1/backup_name.txt => d2
backup b1 full a=abc => b1 of n1: 1 files, 3 bytes, 0 1 0
piece n1/b1/data/ks/t-1/a 0 => abc";

#[test]
fn a_differential_backup_shares_the_files_that_are_the_same(rt: HostRuntime) {
    assert_eq!(rt; first_wrong_of(rt.alloc(), SHARED, RING), None);
}

const REFUSED: &str = "\
backup b1 full - => no snapshot
backup b1 full a=abc,.=x => bad file name 1
sizes  => nothing";

#[test]
fn a_snapshot_without_files_or_with_a_bad_name_is_refused(rt: HostRuntime) {
    assert_eq!(rt; first_wrong_of(rt.alloc(), REFUSED, RING), None);
}

const BAD_RING: &str = "\
backup b1 full a=abc => bad ring
sizes  => nothing";

const OTHER_RING: &str = "\
backup b1 full a=abc => not in ring n1
sizes  => nothing";

#[test]
fn a_ring_that_does_not_read_or_lacks_the_node_is_refused(rt: HostRuntime) {
    assert_eq!(rt; first_wrong_of(rt.alloc(), BAD_RING, "[]"), None);
    let other = r#"{"n2":{"tokens":[1],"is_up":true}}"#;
    assert_eq!(rt; first_wrong_of(rt.alloc(), OTHER_RING, other), None);
}
