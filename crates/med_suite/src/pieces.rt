// Files of about a piece, whose bytes are all 7.
use crate::said::{BACKUP, INI, NODES, RING, append_run, key, with_ini, words};
use med_base::NoMemory;
use med_mem::{MemFile, MemNodes, MemSnap, MemStore};
use std::alloc::Global;

// A piece, one byte more, and no byte.
const FILES: [(&str, usize); 3] = [("a", 1_048_576), ("b", 1_048_577), ("c", 0)];

const FILES_DONE: &str =
    "0|backup b1 of n1: 3 files, 2097153 bytes, 0 reused, 3 stored, 0 aside\n||";

// The line of the manifest, which follows those of the files.
const MANIFEST: &str = "n1/b1/meta/manifest.json 1000 \
    [{\"columnfamily\":\"t-1\",\"keyspace\":\"ks\",\"objects\":[\
    {\"MD5\":\"24c8b42e9f4d53ef58987e469baaad49\",\
    \"path\":\"n1/b1/data/ks/t-1/a\",\"size\":1048576},\
    {\"MD5\":\"f8c6fc2107925cdb6add9bea0f7deb1f\",\
    \"path\":\"n1/b1/data/ks/t-1/b\",\"size\":1048577},\
    {\"MD5\":\"d41d8cd98f00b204e9800998ecf8427e\",\
    \"path\":\"n1/b1/data/ks/t-1/c\",\"size\":0}]}]\n";

fn file(alloc: Global, name: &str, size: usize) -> Result<MemFile, NoMemory> {
    let key = key(alloc, name)?;
    let bytes = [7u8].as_slice().repeat(alloc, size)?;
    Ok(MemFile { key, bytes })
}

fn snapshot(alloc: Global) -> Result<MemSnap, NoMemory> {
    let mut files = Vec::new(alloc);
    for (name, size) in FILES {
        files.push(file(alloc, name, size)?)?;
    }
    let schema = b"-- s\n".to_vec(alloc)?;
    let ring = RING.as_bytes().to_vec(alloc)?;
    Ok(MemSnap {
        files,
        schema,
        ring,
    })
}

fn nodes(alloc: Global) -> Result<MemNodes, NoMemory> {
    let mut nodes = MemNodes::new(alloc);
    nodes.add(alloc, NODES, "n1", "medusa-b1", snapshot(alloc)?)?;
    Ok(nodes)
}

// What is seen of a backup of the files.
fn seen(alloc: Global) -> Result<String, NoMemory> {
    let mut text = String::new(alloc);
    let words = words(alloc, BACKUP)?;
    let mut store = MemStore::new(alloc, 1000, 0);
    let mut nodes = nodes(alloc)?;
    let scene = with_ini(INI);
    append_run(
        alloc,
        &mut text,
        words.as_slice(),
        &scene,
        &mut store,
        &mut nodes,
    )?;
    Ok(text)
}

fn append_file(alloc: Global, text: &mut String, name: &str, size: usize) -> Result<(), NoMemory> {
    let start = format!(in alloc; "n1/b1/data/ks/t-1/{name} 1000 ")?;
    text.push_str(start.as_str())?;
    text.push_str("\u{7}".repeat(alloc, size)?.as_str())?;
    text.push('\n')?;
    Ok(())
}

// The objects that are wanted.
fn objects(alloc: Global) -> Result<String, NoMemory> {
    let mut text = String::new(alloc);
    for (name, size) in FILES {
        append_file(alloc, &mut text, name, size)?;
    }
    text.push_str(MANIFEST)?;
    Ok(text)
}

fn is_backed_up(alloc: Global) -> Result<bool, NoMemory> {
    let seen = seen(alloc)?;
    let objects = objects(alloc)?;
    let seen = seen.as_str();
    Ok(seen.starts_with(FILES_DONE) && seen.contains(objects.as_str()))
}

#[test]
fn files_of_about_a_piece_are_backed_up_byte_for_byte(rt: HostRuntime) {
    assert_eq!(rt; is_backed_up(rt.alloc()), Ok(true));
}
