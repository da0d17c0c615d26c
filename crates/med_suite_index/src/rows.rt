// The backups of a node, and the nodes that have backups.
ghost use Rattle.std.specs.Prelude.{[]};
ghost use Rattle.med_outside.specs.State.{IsReady};

use med_base::{BackupName, Fqdn, Layout};
use med_index::{nodes_in, rows};
use med_mem::MemStore;
use med_outside::{BackupRow, Mode, Storage};
use med_suite_rows::calls::first_wrong;
use std::alloc::Global;

// Names whose byte order isn't that of their paths, a node whose name begins like another's, a backup
// without a schema, and paths that are no backup's.
const BUCKET: &str = "\
open b/k => done
put n1/b1/meta/schema.cql=s => 1000
put n1/b1/meta/differential= => 1001
put n1/b1/meta/tokenmap.json={} => 1002
put n1/b1/meta/manifest.json=[] => 1003
put n1/b-1/meta/tokenmap.json={} => 1004
put n1/b-1/meta/manifest.json=[] => 1005
put n1/b0/meta/schema.cql=s => 1006
put n10/c/meta/differential= => 1007
put n2.x/c/meta/manifest.json=[] => 1008
put n3/c/meta/other=x => 1009
put n4/data/meta/schema.cql=s => 1010
put index/backup_index/b1/manifest_n5.json=x => 1011
put n6=x => 1012";

fn mode_text(mode: Mode) -> &'static str {
    match mode {
        Mode::Full => "full",
        Mode::Differential => "differential",
    }
}

// A row as a text: name, mode, start, and finish, or whether it is running.
fn row_text(alloc: Global, row: &BackupRow) -> Option<String> {
    let (name, mode, started) = (row.name.as_str(), mode_text(row.mode), row.started);
    match (row.finished, row.running) {
        (Some(finished), false) => { format!(in alloc; "{name} {mode} {started} {finished};").ok() }
        (None, true) => format!(in alloc; "{name} {mode} {started} running;").ok(),
        (Some(_), true) => None,
        (None, false) => format!(in alloc; "{name} {mode} {started};").ok(),
    }
}

fn rows_text(alloc: Global, rows: &[BackupRow]) -> Option<String> {
    let mut text = String::new(alloc);
    for row in rows {
        text.push_str(row_text(alloc, row)?.as_str()).ok()?;
    }
    Some(text)
}

fn rows_of<S: Storage>(
    alloc: Global,
    store: &mut S,
    node: &str,
    running: &[BackupName],
) -> Option<String>
    requires { IsReady [] (S.state store.old) }
    ensures { IsReady [] (S.state store.new) }
{
    let node = Fqdn::read(alloc, node).ok()?;
    let found = rows(alloc, store, &Layout::plain(alloc), &node, running).ok()?;
    rows_text(alloc, found.as_slice())
}

// The rows of a node are those of the text, where the backup b0 is running.
fn are_rows<S: Storage>(alloc: Global, store: &mut S, node: &str, wanted: &str) -> Option<bool>
    requires { IsReady [] (S.state store.old) }
    ensures { IsReady [] (S.state store.new) }
{
    let running = [BackupName::read(alloc, "b0").ok()?];
    Some(rows_of(alloc, store, node, running.as_slice())?.as_str() == wanted)
}

#[test]
fn the_backups_of_a_node_are_in_order_of_their_start(rt: HostRuntime) {
    let mut store = MemStore::new(rt.alloc(), 1000, 1);
    assert_eq!(rt; first_wrong(rt.alloc(), &mut store, BUCKET), None);
    let n1 = "b1 differential 1000 1003;b-1 full 1004 1005;b0 full 1006 running;";
    assert_eq!(rt; are_rows(rt.alloc(), &mut store, "n1", n1), Some(true));
    assert_eq!(rt;
        are_rows(rt.alloc(), &mut store, "n10", "c differential 1007;"),
        Some(true)
    );
    assert_eq!(rt; are_rows(rt.alloc(), &mut store, "n3", ""), Some(true));
}

fn nodes_text(alloc: Global, nodes: &[Fqdn]) -> Option<String> {
    let mut text = String::new(alloc);
    for node in nodes {
        text.push_str(node.as_str()).ok()?;
        text.push(';').ok()?;
    }
    Some(text)
}

fn are_nodes<S: Storage>(alloc: Global, store: &mut S, wanted: &str) -> Option<bool>
    requires { IsReady [] (S.state store.old) }
    ensures { IsReady [] (S.state store.new) }
{
    let nodes = nodes_in(alloc, store, &Layout::plain(alloc)).ok()?;
    Some(nodes_text(alloc, nodes.as_slice())?.as_str() == wanted)
}

#[test]
fn the_nodes_that_have_a_backup_are_in_byte_order(rt: HostRuntime) {
    let mut store = MemStore::new(rt.alloc(), 1000, 1);
    assert_eq!(rt; are_nodes(rt.alloc(), &mut store, ""), Some(true));
    assert_eq!(rt; first_wrong(rt.alloc(), &mut store, BUCKET), None);
    assert_eq!(rt;
        are_nodes(rt.alloc(), &mut store, "n1;n10;n2.x;"),
        Some(true)
    );
}
