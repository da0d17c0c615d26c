// The index of a node, made anew from its backups.
ghost use Rattle.std.specs.Prelude.{◌≡◌, List, IfOk, IfErr, IfSome, OnOk, IsOk, Bool, false};
ghost use Rattle.std.specs.List.{AllByRecursion};
ghost use Rattle.med_base.specs.Effects.{Effect};
ghost use Rattle.med_outside.specs.Makes.{Makes, IsError};
ghost use Rattle.med_outside.specs.State.{IsReady, OnlyReads};
ghost use Rattle.med_index.specs.declared.errors.IndexError.TheVariants.{Store};
ghost use Rattle.med_index.specs.Errors.{HasIndexCause};
ghost use Rattle.med_index.specs.Planned.{ArePlanned, IsOfIndexPlan};
ghost use Rattle.med_index.specs.Gathered.{TellsUnread};
ghost use Rattle.med_index.specs.Plans.{count_of, is_put};
ghost use Rattle.med_manifest.specs.Rebuild.{IsRebuildOf};
ghost use Rattle.med_index.specs.Rebuilt.{IsRebuild};

use crate::backups::find_backups;
use crate::changes::{Planned, apply_all};
use crate::gather::{Gathered, gather};
use crate::mend::plan_mend;
use crate::plans::plan_entries;
use crate::{IndexError, IndexReport};
use med_base::{Fqdn, Layout, NoMemory};
use med_outside::{Storage, Trace};
use std::alloc::Global;

fn is_put(planned: &Planned) -> bool
    ensures { result ≡ is_put planned.now }
{
    match planned {
        Planned::Put { path: _, bytes: _ } => true,
        Planned::Delete { path: _ } => false,
    }
}

// How many of the changes are puts, or how many aren't.
fn count_of(plan: &[Planned], puts: bool) -> u64
    ensures { result ≡ count_of puts plan.now }
{
    let mut count: u64 = 0;
    for planned in plan {
        if is_put(planned) == puts {
            count += 1;
        }
    }
    count
}

// What is to be done so that the index of the node is just what its backups give. All is read that
// has to be, and nothing is changed.
fn plan_rebuild<S: Storage>(
    alloc: Global,
    store: &mut S,
    layout: &Layout,
    node: &Fqdn,
) -> Result<Vec<Planned>, IndexError>
    requires ready { IsReady layout.now (S.state store.old) }
    ensures plan { IfOk result
        (λ plan. IfSome (S.state store.old).content
        (λ c. (xs : List Effect) → ArePlanned plan.items xs
        → IsRebuildOf layout.now c node.now xs)) }
    ensures index { IfOk result
        (λ plan. AllByRecursion (IsOfIndexPlan layout.now node.now) plan.items) }
    ensures err { IfErr result
        (λ e. IfSome (S.state store.old).content (λ c. TellsUnread layout.now c node.now e)) }
    ensures looks { OnlyReads (S.state store.old) (S.state store.new) (S.stood store.old)
        (S.stood store.new) }
    ensures cause { HasIndexCause (S.state store.old).faults (S.state store.new).faults result }
{
    let found = match find_backups(alloc, store, layout, node) {
        Ok(found) => found,
        Err(error) => return Err(IndexError::from(error)),
    };
    let mut plan = match plan_mend(alloc, store, layout, node, &found) {
        Ok(plan) => plan,
        Err(error) => return Err(IndexError::from(error)),
    };
    let Gathered { given, sizes } = match gather(alloc, store, layout, node, found) {
        Ok(gathered) => gathered,
        Err(error) => return Err(error),
    };
    match plan_entries(&mut plan, given, sizes) {
        Ok(()) => Ok(plan),
        Err(NoMemory) => Err(IndexError::Memory),
    }
}

/// Makes the index of the node just what its backups give: the latest entry tells of the newest
/// finished backup, entries that no backup gives are deleted, and those that are given and don't
/// stand with the same bytes are put. `BadManifest` comes exactly where a manifest of the node
/// doesn't read, with the first such path in byte order, and then nothing has changed. After `Store`
/// or `Memory` the first of the changes were made; where one of them answered `Store` that one was
/// made too, or not, and the trace is unsure.
pub fn rebuild<S: Storage>(
    alloc: Global,
    store: &mut S,
    layout: &Layout,
    node: &Fqdn,
    trace: &mut Trace,
) -> Result<IndexReport, IndexError>
    requires ready { IsReady layout.now (S.state store.old) }
    requires sure { trace.old.unsure ≡ false }
    ensures makes { (xs : List Effect)
        × IsRebuild layout.now (S.state store.old).content node.now result xs
        × Makes (IsOk result) (IsError result IndexError.Store) xs (S.state store.old)
        (S.state store.new) (S.stood store.old) (S.stood store.new) trace.old trace.new }
    ensures ready { IsReady layout.now (S.state store.new) }
    ensures sure { OnOk result (trace.new.unsure ≡ false) }
    ensures cause { HasIndexCause (S.state store.old).faults (S.state store.new).faults result }
{
    let plan = match plan_rebuild(alloc, store, layout, node) {
        Ok(plan) => plan,
        Err(error) => return Err(error),
    };
    let put = count_of(plan.as_slice(), true);
    let deleted = count_of(plan.as_slice(), false);
    match apply_all(alloc, store, layout, node, plan.as_slice(), trace) {
        Ok(()) => Ok(IndexReport { put, deleted }),
        Err(error) => Err(IndexError::from(error)),
    }
}
