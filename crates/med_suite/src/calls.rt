// Public calls by themselves, and want of memory.
use crate::said::{
    ALL, BACKUP, DONE, INI, NODES, PUTS, append_objects, append_said, files, nodes, seen, wanted,
    with_ini, with_names, words,
};
use med_backup::walk;
use med_base::{FileKey, Fqdn, NoMemory};
use med_commands::{run_command, tell_no_memory};
use med_mem::{MemFiles, MemNodes, MemOpened, MemSink, MemStore};
use med_outside::{Nodes, Storage};
use med_words::{Request, read_words};
use std::alloc::Global;

// Whether a text of what was seen is the first backup, or its first puts and status 20.
fn is_done_or_without_memory(alloc: Global, seen: &str) -> Result<bool, NoMemory> {
    for count in 0..ALL + 1 {
        let refused = wanted(alloc, "20||medusa: out of memory\u{b6}|", PUTS, count)?;
        if seen == refused.as_str() {
            return Ok(true);
        }
    }
    let done = wanted(alloc, DONE, PUTS, ALL)?;
    Ok(seen == done.as_str())
}

// The first backup, where an allocation may fail.
fn first_backup_or_no_memory(alloc: Global) -> Result<bool, NoMemory> {
    let words = words(alloc, BACKUP)?;
    let seen = seen(alloc, words.as_slice(), &with_ini(INI))?;
    is_done_or_without_memory(alloc, seen.as_str())
}

// With ample memory `one_file_is_backed_up` of rows.rt says the same. Beside the gate each allocation of this test is refused in turn (tools/memory-trials).
#[test]
fn want_of_memory_leaves_the_first_puts(rt: HostRuntime) {
    match first_backup_or_no_memory(rt.alloc()) {
        Ok(is_right) => assert!(rt; is_right),
        Err(NoMemory) => {}
    }
}

fn append_key(alloc: Global, text: &mut String, key: &FileKey) -> Result<(), NoMemory> {
    let (keyspace, table) = (key.keyspace.as_str(), key.table.as_str());
    let file = key.file.as_str();
    text.push_str(format!(in alloc; "{keyspace} {table} {file};")?.as_str())?;
    Ok(())
}

// The keys of a snapshot, walked by the call itself.
fn append_walk(alloc: Global, text: &mut String, snap: &mut MemOpened) -> Result<(), NoMemory> {
    let Ok(keys) = walk(alloc, snap) else {
        return Err(NoMemory);
    };
    for key in &keys {
        append_key(alloc, text, key)?;
    }
    Ok(())
}

fn append_keys(alloc: Global, text: &mut String, nodes: &mut MemNodes) -> Result<(), NoMemory> {
    let Ok(node) = Fqdn::read(alloc, "n1") else {
        return Err(NoMemory);
    };
    let Ok(mut snap) = nodes.open(alloc, NODES, &node, "medusa-b1") else {
        return Err(NoMemory);
    };
    let answer = append_walk(alloc, text, &mut snap);
    nodes.close(snap);
    answer
}

fn walked(alloc: Global) -> Result<String, NoMemory> {
    let mut text = String::new(alloc);
    let mut nodes = nodes(alloc, &with_names(["b", "a"].as_slice()))?;
    append_keys(alloc, &mut text, &mut nodes)?;
    Ok(text)
}

#[test]
fn a_walk_gives_the_keys_in_order(rt: HostRuntime) {
    let is_walked = match walked(rt.alloc()) {
        Ok(text) => text.as_str() == "ks t-1 a;ks t-1 b;",
        Err(NoMemory) => false,
    };
    assert!(rt; is_walked);
}

// The call that takes a request, of which no more is known here than that it ends. It asks for a
// storage at rest.
fn status_of_request(
    alloc: Global,
    request: &Request,
    files: &mut MemFiles,
    store: &mut MemStore,
    nodes: &mut MemNodes,
    out: &mut MemSink,
    err: &mut MemSink,
) -> u8 {
    store.drop_upload();
    run_command(alloc, request, files, store, nodes, out, err)
}

fn append_answer(
    alloc: Global,
    text: &mut String,
    request: &Request,
    files: &mut MemFiles,
    store: &mut MemStore,
    nodes: &mut MemNodes,
) -> Result<(), NoMemory> {
    let mut out = MemSink::new(alloc, 1000)?;
    let mut err = MemSink::new(alloc, 1000)?;
    let status = status_of_request(alloc, request, files, store, nodes, &mut out, &mut err);
    append_said(alloc, text, status, &out, &err)
}

// What is seen of a request over the scene of the first backup.
fn append_request(alloc: Global, text: &mut String, request: &Request) -> Result<(), NoMemory> {
    let scene = with_ini(INI);
    let mut files = files(alloc, &scene)?;
    let mut store = MemStore::new(alloc, 1000, 0);
    let mut nodes = nodes(alloc, &scene)?;
    append_answer(alloc, text, request, &mut files, &mut store, &mut nodes)?;
    append_objects(alloc, text, &store)
}

fn append_request_of(alloc: Global, text: &mut String, line: &str) -> Result<(), NoMemory> {
    let words = words(alloc, line)?;
    match read_words(alloc, words.as_slice()) {
        Ok(request) => append_request(alloc, text, &request),
        Err(_) => Ok(()),
    }
}

// The first backup, by the call that takes a request.
fn is_requested(alloc: Global) -> Result<bool, NoMemory> {
    let mut text = String::new(alloc);
    append_request_of(alloc, &mut text, BACKUP)?;
    let done = wanted(alloc, DONE, PUTS, ALL)?;
    Ok(text.as_str() == done.as_str())
}

#[test]
fn a_request_is_run(rt: HostRuntime) {
    assert_eq!(rt; is_requested(rt.alloc()), Ok(true));
}

fn told_no_memory(alloc: Global, text: &mut String) -> Result<(), NoMemory> {
    let mut err = MemSink::new(alloc, 1000)?;
    let status = tell_no_memory(&mut err);
    let out = MemSink::new(alloc, 0)?;
    append_said(alloc, text, status, &out, &err)
}

#[test]
fn want_of_memory_for_the_words_is_told(rt: HostRuntime) {
    let alloc = rt.alloc();
    let mut text = String::new(alloc);
    assert_eq!(rt; told_no_memory(alloc, &mut text), Ok(()));
    assert_eq!(rt; text.as_str(), "20||medusa: out of memory\n|");
}
