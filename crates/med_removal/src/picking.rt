// The objects of a listing that go with a removal.
ghost use Rattle.std.specs.Prelude.{◌≡◌, ◌+◌, ◌*◌, ◌↔◌, ◌++◌, IsTrue, nat_lt, IfOk, IfSome, OnOk, codes, string_bytes};
ghost use Rattle.std.specs.List.{AllByRecursion};
ghost use Rattle.med_base.specs.Classify.{kind_of};
ghost use Rattle.med_core.specs.Reach.{Removing};
ghost use Rattle.med_core.specs.Section.{Call};
ghost use Rattle.med_core.specs.Removal.{is_content_of, is_shared_of};
ghost use Rattle.med_manifest.specs.Listed.{paths_of};
ghost use Rattle.med_outside.specs.State.{IsReady, OnlyReads};
ghost use Rattle.med_index.specs.Errors.{HasStoreCause};
ghost use Rattle.med_removal.specs.Going.{Adds, AreRemovable};
ghost use Rattle.med_removal.specs.Picking.{Covers, Suits, data_size, goes, old_outside, picked_of};

use crate::Going;
use med_base::{BackupName, Fqdn, Layout, NoMemory, ObjPath, PathKind};
use med_index::{ListError, Visitor, walk};
use med_outside::{Entry, Storage};
use std::alloc::Global;
use std::collections::BTreeSet;

const SECONDS_A_DAY: u64 = 86_400;

/// Paths that manifests name.
pub type Named = BTreeSet<ObjPath>;

// Which objects go.
#[derive(Clone, Copy)]
pub(crate) enum Which<'a> {
    /// What lies in the folder of the backup, but for the objects that tell of it.
    Content {
        name: &'a BackupName,
    },
    /// The shared files that aren't among these paths, and are older than so many days.
    Old {
        named: &'a Named,
        grace_days: u32,
        now: u64,
    },
}

// Whether so many days have passed since a second.
fn is_past(second: u64, days: u32, now: u64) -> bool
    ensures { result ≡ nat_lt (second + 86400 * days) now }
{
    match second.checked_add(SECONDS_A_DAY * u64::from(days)) {
        Some(end) => end < now,
        None => false,
    }
}

// Whether the path lies in the folder of the backup, and isn't that of an object that tells of it.
fn is_content(layout: &Layout, node: &Fqdn, name: &BackupName, path: &ObjPath) -> bool
    ensures { result ≡ is_content_of node.now name.now (kind_of layout.now path.now) }
{
    match layout.classify(path) {
        PathKind::Own { owner, backup, .. } => owner == node.as_str() && backup == name.as_str(),
        PathKind::Stray {
            owner,
            backup: Some(backup),
        } => owner == node.as_str() && backup == name.as_str(),
        PathKind::Stray {
            owner: _,
            backup: None,
        } => false,
        PathKind::Shared { .. } | PathKind::Meta { .. } | PathKind::IndexEntry { .. } => false,
        PathKind::Latest { .. } | PathKind::Other => false,
    }
}

// Whether the path is that of a shared file of the node.
fn is_shared(layout: &Layout, node: &Fqdn, path: &ObjPath) -> bool
    ensures { result ≡ is_shared_of node.now (kind_of layout.now path.now) }
{
    match layout.classify(path) {
        PathKind::Shared { owner, .. } => owner == node.as_str(),
        PathKind::Own { .. } | PathKind::Meta { .. } | PathKind::IndexEntry { .. } => false,
        PathKind::Latest { .. } | PathKind::Stray { .. } | PathKind::Other => false,
    }
}

// Whether the object goes.
fn goes(layout: &Layout, node: &Fqdn, which: Which<'_>, entry: &Entry) -> bool
    ensures { result ≡ goes layout.now node.now which.entry entry.now }
{
    match which {
        Which::Content { name } => is_content(layout, node, name, &entry.path),
        Which::Old {
            named,
            grace_days,
            now,
        } => {
            is_shared(layout, node, &entry.path)
                && !named.contains(&entry.path)
                && is_past(entry.second, grace_days, now)
        }
    }
}

// The objects that go, as far as they were found.
#[derive(Drop)]
struct Picked<'a> {
    node: &'a Fqdn,
    which: Which<'a>,
    going: Going,
}

// The size of an entry, where it is that of a data object.
fn data_size(layout: &Layout, entry: &Entry) -> Option<u64>
    ensures { result ≡ data_size layout.now entry.now }
{
    if layout.is_data(&entry.path) {
        Some(entry.size)
    } else {
        None
    }
}

impl Visitor for Picked<'_> {
    ghost use Rattle.med_removal.specs.Picking.{ArePicked, IsPicking};
    ghost use Rattle.med_removal.specs.declared.picking.Which.{Which};

    ghost Terms = { Which };

    ghost terms = { λ p. p.which };

    ghost found = { λ p before f c rest. ArePicked before c f p.which p.node.now p.going rest };

    ghost held = { λ p before f n. IsPicking before f p.which p.node.now p.going.paths.items };

    fn visit(&mut self, alloc: Global, layout: &Layout, entry: &Entry) -> Result<(), NoMemory> {
        if !goes(layout, self.node, self.which, entry) {
            return Ok(());
        }
        let path = entry.path.copy(alloc)?;
        self.going.add(path, data_size(layout, entry))
    }
}

// Adds what goes of the objects under a text.
fn pick<S: Storage>(
    alloc: Global,
    store: &mut S,
    layout: &Layout,
    node: &Fqdn,
    which: Which<'_>,
    under: &str,
    going: &mut Going,
) -> Result<(), ListError>
    requires { Covers layout.now node.now which under.now }
    ensures told { OnOk result
        (IfSome (S.state store.old).content
        (λ c. Adds layout.now node.now c (picked_of layout.now c node.now which.entry) going.old
        going.new)) }
    ensures within { OnOk result
        ((call : Call) → Suits call which.entry
        → AreRemovable layout.now node.now call going.old.paths.items
        → AreRemovable layout.now node.now call going.new.paths.items) }
    ensures looks { OnlyReads (S.state store.old) (S.state store.new) (S.stood store.old)
        (S.stood store.new) }
    ensures cause { HasStoreCause (S.state store.old).faults (S.state store.new).faults result }
{
    let mut picked = Picked {
        node,
        which,
        going: Going::none(alloc),
    };
    match walk(alloc, store, layout, under, &mut picked) {
        Ok(()) => {}
        Err(error) => return Err(error),
    }
    match going.join(picked.going) {
        Ok(()) => Ok(()),
        Err(NoMemory) => Err(ListError::Memory),
    }
}

/// Adds what lies in the folder of the backup, but for the objects that tell of it, in byte order. The
/// bucket is only read; `Store` comes only where its count of faults rose.
pub fn add_content<S: Storage>(
    alloc: Global,
    store: &mut S,
    layout: &Layout,
    node: &Fqdn,
    name: &BackupName,
    going: &mut Going,
) -> Result<(), ListError>
    ensures told { OnOk result
        (IfSome (S.state store.old).content
        (λ c. Adds layout.now node.now c (paths_of layout.now c (is_content_of node.now name.now))
        going.old going.new)) }
    ensures within { OnOk result
        ((call : Call) → Removing call name.now
        → AreRemovable layout.now node.now call going.old.paths.items
        → AreRemovable layout.now node.now call going.new.paths.items) }
    ensures looks { OnlyReads (S.state store.old) (S.state store.new) (S.stood store.old)
        (S.stood store.new) }
    ensures cause { HasStoreCause (S.state store.old).faults (S.state store.new).faults result }
{
    let folder = match layout.backup_folder(alloc, node, name) {
        Ok(folder) => folder,
        Err(NoMemory) => return Err(ListError::Memory),
    };
    let which = Which::Content { name };
    pick(alloc, store, layout, node, which, folder.as_str(), going)
}

// The folder of the files that the backups of a node share, with a slash at its end.
fn shared_folder(alloc: Global, layout: &Layout, node: &Fqdn) -> Result<String, NoMemory>
    ensures { IfOk result
        (λ text. string_bytes text ≡ layout.now ++ node.now ++ codes "/data/") }
{
    let before = layout.before();
    let node = node.as_str();
    Ok(format!(in alloc; "{before}{node}/data/")?)
}

/// Adds the shared files of the node that aren't in the set and are older than so many days, in byte
/// order. The bucket is only read; `Store` comes only where its count of faults rose.
pub fn add_old<S: Storage>(
    alloc: Global,
    store: &mut S,
    layout: &Layout,
    node: &Fqdn,
    named: &Named,
    grace_days: u32,
    now: u64,
    going: &mut Going,
) -> Result<(), ListError>
    ensures told { OnOk result
        (IfSome (S.state store.old).content
        (λ c. Adds layout.now node.now c
        (old_outside layout.now c node.now named.now grace_days now) going.old going.new)) }
    ensures within { OnOk result
        ((call : Call) → AreRemovable layout.now node.now call going.old.paths.items
        → AreRemovable layout.now node.now call going.new.paths.items) }
    ensures looks { OnlyReads (S.state store.old) (S.state store.new) (S.stood store.old)
        (S.stood store.new) }
    ensures cause { HasStoreCause (S.state store.old).faults (S.state store.new).faults result }
{
    let folder = match shared_folder(alloc, layout, node) {
        Ok(folder) => folder,
        Err(NoMemory) => return Err(ListError::Memory),
    };
    let which = Which::Old {
        named,
        grace_days,
        now,
    };
    pick(alloc, store, layout, node, which, folder.as_str(), going)
}
