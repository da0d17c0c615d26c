// Which backups of a node a purge removes.
ghost use Rattle.std.specs.Prelude.{[]};
ghost use Rattle.med_outside.specs.State.{IsReady};

use med_base::{BackupName, Fqdn, Layout, NoMemory};
use med_index::rows;
use med_mem::MemStore;
use med_outside::Storage;
use med_purge::rule;
use med_suite_rows::calls::first_wrong;
use std::alloc::Global;

// Backups that start and finish a day apart each. One isn't finished, and one of these is being made.
// The order of their starts is z, d, b, r, a, c.
const BUCKET: &str = "\
open b/k => done
put n1/z/meta/schema.cql= => 86400
put n1/z/meta/manifest.json=[] => 172800
put n1/d/meta/schema.cql= => 259200
put n1/d/meta/manifest.json=[] => 345600
put n1/b/meta/schema.cql= => 432000
put n1/r/meta/schema.cql= => 518400
put n1/a/meta/schema.cql= => 604800
put n1/a/meta/manifest.json=[] => 691200
put n1/c/meta/schema.cql= => 777600
put n1/c/meta/manifest.json=[] => 864000";

// The second, the days of the age and the number of backups, and the names that go.
const RULES: &str = "\
900000 0 0 =>
900000 0 1 => a d z
900000 0 2 => d z
900000 0 3 => z
900000 0 4 =>
345600 1 0 => z
345601 1 0 => d z
700000 1 0 => a b d z
345601 1 1 => a d z
900000 4294967295 0 =>
10 1 0 =>";

// The names that go, each behind a space.
fn names_text(alloc: Global, names: &[BackupName]) -> Result<String, NoMemory> {
    let mut text = String::new(alloc);
    for name in names {
        text.push_str(" ")?;
        text.push_str(name.as_str())?;
    }
    Ok(text)
}

// What the rule names of the node's backups, where one of them is being made.
fn ruled<S: Storage>(alloc: Global, store: &mut S, line: &str) -> Option<String>
    requires { IsReady [] (S.state store.old) }
    ensures { IsReady [] (S.state store.new) }
{
    let (now, rest) = line.split_once(' ')?;
    let (age, count) = rest.split_once(' ')?;
    let (now, age) = (now.parse::<u64>().ok()?, age.parse::<u32>().ok()?);
    let count = count.parse::<u32>().ok()?;
    let node = Fqdn::read(alloc, "n1").ok()?;
    let mut running = Vec::new(alloc);
    running.push(BackupName::read(alloc, "r").ok()?).ok()?;
    let layout = Layout::plain(alloc);
    let rows = rows(alloc, store, &layout, &node, running.as_slice()).ok()?;
    let names = rule(alloc, rows.as_slice(), now, age, count).ok()?;
    names_text(alloc, names.as_slice()).ok()
}

fn is_right<S: Storage>(alloc: Global, store: &mut S, row: &str) -> Option<bool>
    requires { IsReady [] (S.state store.old) }
    ensures { IsReady [] (S.state store.new) }
{
    let (line, wanted) = row.split_once(" =>")?;
    Some(ruled(alloc, store, line)?.as_str() == wanted)
}

// The first row that the rule answers otherwise.
fn first_unruled<'a, S: Storage>(alloc: Global, store: &mut S, table: &'a str) -> Option<&'a str>
    requires { IsReady [] (S.state store.old) }
    ensures { IsReady [] (S.state store.new) }
{
    for row in table.split('\n') {
        if is_right(alloc, store, row) != Some(true) {
            return Some(row);
        }
    }
    None
}

#[test]
fn the_rule_goes_by_start_and_by_the_finished_ones_after(rt: HostRuntime) {
    let mut store = MemStore::new(rt.alloc(), 86_400, 86_400);
    assert_eq!(rt; first_wrong(rt.alloc(), &mut store, BUCKET), None);
    assert_eq!(rt; first_unruled(rt.alloc(), &mut store, RULES), None);
}
