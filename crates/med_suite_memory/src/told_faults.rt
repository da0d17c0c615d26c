// Calls in memory that are told to fail, the ring of a snapshot, and snapshots of many files.
use med_base::Fqdn;
use med_mem::{MemFile, MemFiles, MemNodes, MemOpened, MemSink, MemSnap};
use med_outside::{Denied, Files, Nodes, RawKey, Sink, Snap};
use med_suite_rows::calls::{is_number, refusal};
use std::alloc::Global;

fn told_files(alloc: Global) -> Option<MemFiles> {
    let mut files = MemFiles::new(alloc);
    files.add(alloc, "m.ini", b"abc".to_vec(alloc).ok()?).ok()?;
    files.fail_at(2).ok()?;
    files.fail_at(4).ok()?;
    Some(files)
}

// A read answers the length of the file, `none`, or a refusal.
fn is_read(alloc: Global, files: &mut MemFiles, row: &str) -> Option<bool> {
    let (name, wanted) = row.split_once(" => ")?;
    match files.read(alloc, name) {
        Ok(Some(bytes)) => is_number(alloc, bytes.len() as u64, wanted),
        Ok(None) => Some(wanted == "none"),
        Err(denied) => Some(refusal(denied) == wanted),
    }
}

const READS: &str = "\
m.ini => 3
m.ini => failed
absent => none
absent => failed
m.ini => 3";

fn first_misread<'a>(alloc: Global, files: &mut MemFiles, table: &'a str) -> Option<&'a str> {
    for row in table.split('\n') {
        if is_read(alloc, files, row) != Some(true) {
            return Some(row);
        }
    }
    None
}

fn are_files_told(alloc: Global) -> Option<bool> {
    let mut files = told_files(alloc)?;
    Some(first_misread(alloc, &mut files, READS).is_none())
}

#[test]
fn files_fail_at_the_reads_that_are_told(rt: HostRuntime) {
    assert_eq!(rt; are_files_told(rt.alloc()), Some(true));
}

// A write answers how many bytes the sink took, or `failed`.
fn is_written(alloc: Global, sink: &mut MemSink, row: &str) -> Option<bool> {
    let (text, wanted) = row.split_once(" => ")?;
    match sink.write(text.as_bytes()) {
        Ok(count) => is_number(alloc, count as u64, wanted),
        Err(_) => Some(wanted == "failed"),
    }
}

fn first_miswritten<'a>(alloc: Global, sink: &mut MemSink, table: &'a str) -> Option<&'a str> {
    for row in table.split('\n') {
        if is_written(alloc, sink, row) != Some(true) {
            return Some(row);
        }
    }
    None
}

const WRITES: &str = "\
ab => 2
xy => failed
cd => 2
 => failed
ef => 1
g => failed";

fn is_sink_told(alloc: Global) -> Option<bool> {
    let mut sink = MemSink::new(alloc, 5).ok()?;
    sink.fail_at(4).ok()?;
    sink.fail_at(2).ok()?;
    let wrong = first_miswritten(alloc, &mut sink, WRITES);
    Some(wrong.is_none() && sink.bytes() == b"abcde".as_slice())
}

#[test]
fn a_sink_fails_at_the_writes_that_are_told_and_where_it_is_full(rt: HostRuntime) {
    assert_eq!(rt; is_sink_told(rt.alloc()), Some(true));
}

fn raw_key(alloc: Global, file: &str) -> Option<RawKey> {
    Some(RawKey {
        keyspace: String::from_str(alloc, "k").ok()?,
        table: String::from_str(alloc, "t-1").ok()?,
        file: String::from_str(alloc, file).ok()?,
    })
}

fn named_file(alloc: Global, name: &str, text: &str) -> Option<MemFile> {
    let key = raw_key(alloc, name)?;
    let bytes = text.as_bytes().to_vec(alloc).ok()?;
    Some(MemFile { key, bytes })
}

fn snapshot_of(alloc: Global, files: Vec<MemFile>) -> Option<MemSnap> {
    let schema = b"CREATE".to_vec(alloc).ok()?;
    let ring = b"[\"-1\"]".to_vec(alloc).ok()?;
    Some(MemSnap {
        files,
        schema,
        ring,
    })
}

// Nodes with a snapshot of one file.
fn one_file(alloc: Global) -> Option<MemNodes> {
    let mut files = Vec::new(alloc);
    files.push(named_file(alloc, "f.db", "abc")?).ok()?;
    let snap = snapshot_of(alloc, files)?;
    let mut nodes = MemNodes::new(alloc);
    nodes.add(alloc, "nodes", "n1", "medusa-b1", snap).ok()?;
    Some(nodes)
}

fn open(alloc: Global, nodes: &mut MemNodes, node: &str) -> Option<Result<MemOpened, Denied>> {
    let node = Fqdn::read(alloc, node).ok()?;
    Some(nodes.open(alloc, "nodes", &node, "medusa-b1"))
}

// The same, where it must not be refused.
fn opened(alloc: Global, nodes: &mut MemNodes, node: &str) -> Option<MemOpened> {
    open(alloc, nodes, node)?.ok()
}

// Whether an opening is refused, by a fault.
fn is_failed(alloc: Global, nodes: &mut MemNodes) -> Option<bool> {
    match open(alloc, nodes, "n1")? {
        Ok(snap) => {
            nodes.close(snap);
            Some(false)
        }
        Err(denied) => Some(denied == Denied::Failed),
    }
}

fn are_bytes(answer: &Result<Vec<u8>, Denied>, wanted: &str) -> Option<bool> {
    match answer {
        Ok(bytes) if bytes.is_empty() => Some(wanted == "nothing"),
        Ok(bytes) => Some(bytes.as_slice() == wanted.as_bytes()),
        Err(denied) => Some(refusal(*denied) == wanted),
    }
}

// The keys answer their number, the schema and the ring themselves or `nothing`, and each may
// answer a refusal.
fn is_told(alloc: Global, snap: &mut MemOpened, row: &str) -> Option<bool> {
    let (call, wanted) = row.split_once(" => ")?;
    match call {
        "keys" => match snap.keys(alloc) {
            Ok(keys) => is_number(alloc, keys.len() as u64, wanted),
            Err(denied) => Some(refusal(denied) == wanted),
        },
        "schema" => are_bytes(&snap.schema(alloc), wanted),
        "ring" => are_bytes(&snap.ring(alloc), wanted),
        _ => None,
    }
}

fn first_untold<'a>(alloc: Global, snap: &mut MemOpened, table: &'a str) -> Option<&'a str> {
    for row in table.split('\n') {
        if is_told(alloc, snap, row) != Some(true) {
            return Some(row);
        }
    }
    None
}

// Whether the snapshot of a node, opened now, answers as the rows say.
fn is_opened_as(alloc: Global, nodes: &mut MemNodes, node: &str, table: &str) -> Option<bool> {
    let mut snap = opened(alloc, nodes, node)?;
    let wrong = first_untold(alloc, &mut snap, table);
    nodes.close(snap);
    Some(wrong.is_none())
}

const TOLD: &str = "\
keys => 1
schema => CREATE
ring => [\"-1\"]";

const NOTHING: &str = "\
keys => 0
schema => nothing
ring => nothing";

const FAILING: &str = "\
keys => 1
ring => failed
ring => [\"-1\"]
keys => failed
schema => CREATE";

fn are_rings_told(alloc: Global) -> Option<bool> {
    let mut nodes = one_file(alloc)?;
    let added = is_opened_as(alloc, &mut nodes, "n1", TOLD)?;
    let absent = is_opened_as(alloc, &mut nodes, "n2", NOTHING)?;
    Some(added && absent)
}

#[test]
fn a_ring_is_told_and_is_empty_where_nothing_was_added(rt: HostRuntime) {
    assert_eq!(rt; are_rings_told(rt.alloc()), Some(true));
}

// A snapshot that was opened before it was told goes on; each that is opened later fails.
fn are_later_ones_told(alloc: Global, nodes: &mut MemNodes) -> Option<bool> {
    let mut before = opened(alloc, nodes, "n1")?;
    nodes.fail_snap_at(2).ok()?;
    nodes.fail_snap_at(4).ok()?;
    let wrong = first_untold(alloc, &mut before, TOLD);
    nodes.close(before);
    let first = is_opened_as(alloc, nodes, "n1", FAILING)?;
    let second = is_opened_as(alloc, nodes, "n1", FAILING)?;
    Some(wrong.is_none() && first && second)
}

fn are_nodes_told(alloc: Global) -> Option<bool> {
    let mut nodes = one_file(alloc)?;
    nodes.fail_at(5).ok()?;
    nodes.fail_at(1).ok()?;
    let first = is_failed(alloc, &mut nodes)?;
    let later = are_later_ones_told(alloc, &mut nodes)?;
    let fifth = is_failed(alloc, &mut nodes)?;
    Some(first && later && fifth)
}

#[test]
fn nodes_and_their_snapshots_fail_at_the_calls_that_are_told(rt: HostRuntime) {
    assert_eq!(rt; are_nodes_told(rt.alloc()), Some(true));
}

fn push_numbered(alloc: Global, files: &mut Vec<MemFile>, number: u64) -> Option<()> {
    let name = format!(in alloc; "{number}").ok()?;
    let text = format!(in alloc; "bytes {number}").ok()?;
    let file = named_file(alloc, name.as_str(), text.as_str())?;
    files.push(file).ok()
}

// Ten thousand files, whose names aren't in order, and each key a second time.
fn many_files(alloc: Global) -> Option<MemNodes> {
    let mut files = Vec::new(alloc);
    for i in 0..20_000u64 {
        push_numbered(alloc, &mut files, (i * 7) % 10_000)?;
    }
    let snap = snapshot_of(alloc, files)?;
    let mut nodes = MemNodes::new(alloc);
    nodes.add(alloc, "nodes", "n1", "medusa-b1", snap).ok()?;
    Some(nodes)
}

fn are_many_listed(alloc: Global) -> Option<bool> {
    let mut nodes = many_files(alloc)?;
    is_opened_as(alloc, &mut nodes, "n1", "keys => 10000")
}

#[test]
fn each_of_many_keys_is_listed_once(rt: HostRuntime) {
    assert_eq!(rt; are_many_listed(rt.alloc()), Some(true));
}
