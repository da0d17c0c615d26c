// Snapshots in memory, by a line of text.
use med_base::{Fqdn, NoMemory};
use med_mem::{MemFile, MemNodes, MemOpened, MemSnap};
use med_outside::{Nodes, RawKey};
use std::alloc::Global;

const ROOT: &str = "nodes";

fn key(alloc: Global, name: &str) -> Result<RawKey, NoMemory> {
    let keyspace = String::from_str(alloc, "ks")?;
    let table = String::from_str(alloc, "t-1")?;
    let file = String::from_str(alloc, name)?;
    Ok(RawKey {
        keyspace,
        table,
        file,
    })
}

fn file(alloc: Global, name: &str, text: &str) -> Result<MemFile, NoMemory> {
    let key = key(alloc, name)?;
    let bytes = text.as_bytes().to_vec(alloc)?;
    Ok(MemFile { key, bytes })
}

// The files `NAME=TEXT`, with commas between them, all of one table. A dash alone is no file.
fn files(alloc: Global, line: &str) -> Result<Vec<MemFile>, NoMemory> {
    let mut files = Vec::new(alloc);
    for item in line.split(',') {
        if let Some((name, text)) = item.split_once('=') {
            files.push(file(alloc, name, text)?)?;
        }
    }
    Ok(files)
}

fn snapshot(alloc: Global, line: &str, ring: &str) -> Result<MemSnap, NoMemory> {
    let files = files(alloc, line)?;
    let schema = b"s".as_slice().to_vec(alloc)?;
    let ring = ring.as_bytes().to_vec(alloc)?;
    Ok(MemSnap {
        files,
        schema,
        ring,
    })
}

fn nodes_with(alloc: Global, line: &str, ring: &str) -> Result<MemNodes, NoMemory> {
    let mut nodes = MemNodes::new(alloc);
    let snap = snapshot(alloc, line, ring)?;
    nodes.add(alloc, ROOT, "n1", "t", snap)?;
    Ok(nodes)
}

/// The open snapshot of these files, with the schema `s` and this ring. Its call of that number fails.
pub(crate) fn opened(
    alloc: Global,
    line: &str,
    ring: &str,
    failing: Option<u64>,
) -> Option<MemOpened> {
    let mut nodes = nodes_with(alloc, line, ring).ok()?;
    if let Some(step) = failing {
        nodes.fail_snap_at(step).ok()?;
    }
    let node = Fqdn::read(alloc, "n1").ok()?;
    nodes.open(alloc, ROOT, &node, "t").ok()
}
