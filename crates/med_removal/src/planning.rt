// The plan of a removal: what it changes, found before anything is changed.
ghost use Rattle.std.specs.Prelude.{◌≡◌, [], ℕ, List, IfErr, IfOk, IfSome};
ghost use Rattle.med_core.specs.Section.{Remove};
ghost use Rattle.med_outside.specs.State.{IsReady, OnlyReads};
ghost use Rattle.med_index.specs.Errors.{HasIndexCause};
ghost use Rattle.med_index.specs.Marks.{IsSetOf};
ghost use Rattle.med_index.specs.Visits.{AreFound};
ghost use Rattle.med_removal.specs.Going.{AreRemovable};
ghost use Rattle.med_removal.specs.Named.{TellsUnreadOutside};
ghost use Rattle.med_removal.specs.Plan.{IsGone, IsPlanFor, IsPlanOver};

use crate::Going;
use crate::backups::add_backups;
use crate::named::read_named;
use crate::picking::add_old;
use med_base::{BackupName, Fqdn, Layout, NoMemory, ObjPath};
use med_core::Removed;
use med_index::{IndexError, Marks, Planned, find_backups, plan_mend_outside, set_of};
use med_outside::Storage;
use std::alloc::Global;
use std::collections::{BTreeMap, BTreeSet};

/// What a removal is to make. Nothing was changed yet.
#[derive(Drop)]
pub struct RemovalPlan {
    /// For how many days an old shared file stays that no manifest names.
    pub grace_days: u32,
    /// The second at which the removal is made. Seconds are whole ones since 1970-01-01T00:00:00Z.
    pub now: u64,
    /// The first changes: the latest entry of the node tells of its newest finished backup of those
    /// that stay.
    pub mend: Vec<Planned>,
    /// Then what stands under these paths goes, in this order.
    pub paths: Vec<ObjPath>,
    /// The names of the backups that go, and how many data objects go with how many bytes.
    pub removed: Removed,
}

// What goes with a removal of these backups.
fn plan_paths<S: Storage>(
    alloc: Global,
    store: &mut S,
    layout: &Layout,
    node: &Fqdn,
    found: &BTreeMap<BackupName, Marks>,
    cut: &BTreeSet<BackupName>,
    names: &[BackupName],
    grace_days: u32,
    now: u64,
) -> Result<Going, IndexError>
    requires ready { IsReady layout.now (S.state store.old) }
    ensures ok { IfOk result
        (λ going. IfSome (S.state store.old).content
        (λ c. AreFound node.now found.now layout.now node.now c [] → IsSetOf names.now cut.now
        → IsGone layout.now c node.now names.now grace_days now going)) }
    ensures within { IfOk result
        (λ going. AreRemovable layout.now node.now (Remove names.now grace_days now)
        going.paths.items) }
    ensures err { IfErr result
        (λ e. IfSome (S.state store.old).content
        (λ c. AreFound node.now found.now layout.now node.now c [] → IsSetOf names.now cut.now
        → TellsUnreadOutside layout.now c node.now names.now e)) }
    ensures ready { IsReady layout.now (S.state store.new) }
    ensures looks { OnlyReads (S.state store.old) (S.state store.new) (S.stood store.old)
        (S.stood store.new) }
    ensures cause { HasIndexCause (S.state store.old).faults (S.state store.new).faults result }
{
    let named = match read_named(alloc, store, layout, node, found, cut) {
        Ok(named) => named,
        Err(error) => return Err(error),
    };
    let mut going = Going::none(alloc);
    match add_backups(alloc, store, layout, node, found, names, &mut going) {
        Ok(()) => {}
        Err(error) => return Err(IndexError::from(error)),
    }
    match add_old(
        alloc, store, layout, node, &named, grace_days, now, &mut going,
    ) {
        Ok(()) => Ok(going),
        Err(error) => Err(IndexError::from(error)),
    }
}

// The plan of a removal of these backups, where these were found.
fn plan_found<S: Storage>(
    alloc: Global,
    store: &mut S,
    layout: &Layout,
    node: &Fqdn,
    found: &BTreeMap<BackupName, Marks>,
    cut: &BTreeSet<BackupName>,
    names: Vec<BackupName>,
    grace_days: u32,
    now: u64,
) -> Result<RemovalPlan, IndexError>
    requires ready { IsReady layout.now (S.state store.old) }
    ensures ok { IfOk result
        (λ plan. IfSome (S.state store.old).content
        (λ c. AreFound node.now found.now layout.now node.now c [] → IsSetOf names.items cut.now
        → IsPlanOver layout.now c node.now names.items grace_days now plan)) }
    ensures plan { IfOk result
        (IsPlanFor layout.now node.now names.items grace_days now) }
    ensures err { IfErr result
        (λ e. IfSome (S.state store.old).content
        (λ c. AreFound node.now found.now layout.now node.now c [] → IsSetOf names.items cut.now
        → TellsUnreadOutside layout.now c node.now names.items e)) }
    ensures looks { OnlyReads (S.state store.old) (S.state store.new) (S.stood store.old)
        (S.stood store.new) }
    ensures cause { HasIndexCause (S.state store.old).faults (S.state store.new).faults result }
{
    let slice = names.as_slice();
    let going = match plan_paths(
        alloc, store, layout, node, found, cut, slice, grace_days, now,
    ) {
        Ok(going) => going,
        Err(error) => return Err(error),
    };
    let mend = match plan_mend_outside(alloc, store, layout, node, found, cut) {
        Ok(mend) => mend,
        Err(error) => return Err(IndexError::from(error)),
    };
    let Going {
        paths,
        files,
        bytes,
    } = going;
    Ok(RemovalPlan {
        grace_days,
        now,
        mend,
        paths,
        removed: Removed {
            names,
            files,
            bytes,
        },
    })
}

/// The plan of a removal of these backups of a node, at this second. With them go the entries that the
/// index has of them, and the shared files of the node that no manifest of another finished backup
/// names and that are older than so many days. All is read that has to be, and nothing is changed.
/// `BadManifest` comes exactly where a manifest of a finished backup doesn't read that doesn't go, with
/// the first such path in byte order. `Store` comes only where the storage's count of faults rose.
pub fn plan_removal<S: Storage>(
    alloc: Global,
    store: &mut S,
    layout: &Layout,
    node: &Fqdn,
    names: Vec<BackupName>,
    grace_days: u32,
    now: u64,
) -> Result<RemovalPlan, IndexError>
    requires ready { IsReady layout.now (S.state store.old) }
    ensures ok { IfOk result
        (λ plan. IfSome (S.state store.old).content
        (λ c. IsPlanOver layout.now c node.now names.items grace_days now plan)) }
    ensures plan { IfOk result
        (IsPlanFor layout.now node.now names.items grace_days now) }
    ensures err { IfErr result
        (λ e. IfSome (S.state store.old).content
        (λ c. TellsUnreadOutside layout.now c node.now names.items e)) }
    ensures looks { OnlyReads (S.state store.old) (S.state store.new) (S.stood store.old)
        (S.stood store.new) }
    ensures cause { HasIndexCause (S.state store.old).faults (S.state store.new).faults result }
{
    let cut = match set_of(alloc, names.as_slice()) {
        Ok(cut) => cut,
        Err(NoMemory) => return Err(IndexError::Memory),
    };
    let found = match find_backups(alloc, store, layout, node) {
        Ok(found) => found,
        Err(error) => return Err(IndexError::from(error)),
    };
    plan_found(
        alloc, store, layout, node, &found, &cut, names, grace_days, now,
    )
}
