// The entries that a backup puts into the index.
ghost use Rattle.std.specs.Prelude.{[]};
ghost use Rattle.med_outside.specs.State.{IsReady};

use med_base::{BackupName, Fqdn, Layout};
use med_index::{finish_entries, start_entries};
use med_mem::MemStore;
use med_outside::{Mode, Storage, Trace};
use med_suite_rows::calls::first_wrong;
use std::alloc::Global;

// A backup of a node.
#[derive(Drop)]
struct Backup {
    node: Fqdn,
    name: BackupName,
}

fn names(alloc: Global) -> Option<Backup> {
    let node = Fqdn::read(alloc, "n_1").ok()?;
    let name = BackupName::read(alloc, "b1").ok()?;
    Some(Backup { node, name })
}

// Puts the entries of a backup that starts and finishes, and tells how many changes were made.
fn put_entries<S: Storage>(alloc: Global, store: &mut S, mode: Mode) -> Option<usize>
    requires { IsReady [] (S.state store.old) }
    ensures { IsReady [] (S.state store.new) }
{
    let (layout, mut trace) = (Layout::plain(alloc), Trace::new(alloc));
    let Backup { node, name } = names(alloc)?;
    let ring = b"{}".as_slice();
    match start_entries(
        alloc, store, &layout, &node, &name, mode, ring, 1000, &mut trace,
    ) {
        Ok(()) => {}
        Err(_) => return None,
    }
    let manifest = b"[]".as_slice();
    match finish_entries(
        alloc, store, &layout, &node, &name, manifest, 1003, &mut trace,
    ) {
        Ok(()) if !trace.unsure => Some(trace.changes.len()),
        _ => None,
    }
}

const DIFFERENTIAL: &str = "\
sizes  => index/backup_index/b1/differential_n_1 0;\
index/backup_index/b1/finished_n_1_1003.timestamp 0;\
index/backup_index/b1/manifest_n_1.json 2;\
index/backup_index/b1/started_n_1_1000.timestamp 0;\
index/backup_index/b1/tokenmap_n_1.json 2;
object index/backup_index/b1/manifest_n_1.json => []
object index/backup_index/b1/tokenmap_n_1.json => {}";

#[test]
fn a_differential_backup_has_five_entries(rt: HostRuntime) {
    let mut store = MemStore::new(rt.alloc(), 1000, 1);
    assert_eq!(rt;
        first_wrong(rt.alloc(), &mut store, "open b/k => done"),
        None
    );
    assert_eq!(rt;
        put_entries(rt.alloc(), &mut store, Mode::Differential),
        Some(5)
    );
    assert_eq!(rt; first_wrong(rt.alloc(), &mut store, DIFFERENTIAL), None);
}

#[test]
fn a_full_backup_has_no_mark(rt: HostRuntime) {
    let mut store = MemStore::new(rt.alloc(), 1000, 1);
    assert_eq!(rt;
        first_wrong(rt.alloc(), &mut store, "open b/k => done"),
        None
    );
    assert_eq!(rt; put_entries(rt.alloc(), &mut store, Mode::Full), Some(4));
    let mark = "object index/backup_index/b1/differential_n_1 => absent";
    assert_eq!(rt; first_wrong(rt.alloc(), &mut store, mark), None);
}
