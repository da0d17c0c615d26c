// The latest entry of a node, mended so that it tells of the newest finished backup.
ghost use Rattle.std.specs.Prelude.{◌≡◌, ◌++◌, ℕ, List, [], Some, false, IfOk, IfSome, OnOk, IsOk, option_map};
ghost use Rattle.std.specs.List.{AllByRecursion};
ghost use Rattle.std.specs.Option.{option_to_list};
ghost use Rattle.med_base.specs.declared.layout.MetaKind.TheVariants.{Tokenmap};
ghost use Rattle.med_base.specs.Classify.{is_data, kind_of};
ghost use Rattle.med_base.specs.Effects.{Effect};
ghost use Rattle.med_base.specs.Kinds.{Meta};
ghost use Rattle.med_base.specs.Layout.{latest_path, meta_path};
ghost use Rattle.med_manifest.specs.Mend.{changes_of_mend, mend_to};
ghost use Rattle.med_outside.specs.Makes.{Makes, IsError};
ghost use Rattle.med_outside.specs.State.{IsReady, OnlyReads};
ghost use Rattle.med_outside.specs.Storage.{AnswersBytes};
ghost use Rattle.med_index.specs.declared.errors.ListError.TheVariants.{Store};
ghost use Rattle.med_index.specs.Errors.{HasStoreCause};
ghost use Rattle.med_index.specs.Marks.{IsSetOf};
ghost use Rattle.med_index.specs.Planned.{ArePlanned, IsChangeTo, IsOfLatestPlan, IsPlanOf, latest_to};
ghost use Rattle.med_index.specs.Rebuilt.{IsMend};
ghost use Rattle.med_index.specs.Visits.{AreFound};

use crate::ListError;
use crate::backups::find_backups;
use crate::changes::{Planned, apply_all};
use crate::marks::Marks;
use crate::newest::newest_found;
use crate::running::no_names;
use med_base::{BackupName, Fqdn, LatestKind, Layout, MetaKind, NoMemory, ObjPath};
use med_outside::{Denied, Storage, Trace};
use std::alloc::Global;
use std::collections::{BTreeMap, BTreeSet};

// What is to be done so that an object has these bytes, or doesn't stand.
fn change_to(
    alloc: Global,
    path: ObjPath,
    found: Option<Vec<u8>>,
    wanted: Option<&[u8]>,
) -> Result<Option<Planned>, NoMemory>
    ensures { IfOk result
        (IsChangeTo path (option_map (λ bytes. bytes.items) found)
        (option_map (λ bytes. bytes.now) wanted.entry)) }
{
    match (found, wanted) {
        (None, None) => Ok(None),
        (Some(_), None) => Ok(Some(Planned::Delete { path })),
        (None, Some(wanted)) => {
            let bytes = wanted.to_vec(alloc)?;
            Ok(Some(Planned::Put { path, bytes }))
        }
        (Some(found), Some(wanted)) => {
            if found.as_slice() == wanted {
                return Ok(None);
            }
            let bytes = wanted.to_vec(alloc)?;
            Ok(Some(Planned::Put { path, bytes }))
        }
    }
}

/// The bytes of an object that isn't a data object.
pub(crate) fn read<S: Storage>(
    alloc: Global,
    store: &mut S,
    layout: &Layout,
    path: &ObjPath,
) -> Result<Option<Vec<u8>>, ListError>
    requires ready { IsReady layout.now (S.state store.old) }
    requires no_data { is_data layout.now path.now ≡ false }
    ensures answer { IfOk result
        (λ found. AnswersBytes path.now (S.state store.old).content
        (option_map (λ bytes. bytes.items) found)) }
    ensures ready { IsReady layout.now (S.state store.new) }
    ensures looks { OnlyReads (S.state store.old) (S.state store.new) (S.stood store.old)
        (S.stood store.new) }
    ensures cause { HasStoreCause (S.state store.old).faults (S.state store.new).faults result }
{
    match store.get(alloc, path) {
        Ok(found) => Ok(found),
        Err(Denied::Failed) => Err(ListError::Store),
        Err(Denied::Memory) => Err(ListError::Memory),
    }
}

// What is to be done so that a latest object of the node has these bytes, or doesn't stand.
fn plan_object<S: Storage>(
    alloc: Global,
    store: &mut S,
    layout: &Layout,
    node: &Fqdn,
    kind: LatestKind,
    wanted: Option<&[u8]>,
) -> Result<Option<Planned>, ListError>
    requires ready { IsReady layout.now (S.state store.old) }
    ensures plan { IfOk result
        (λ change. IfSome (S.state store.old).content
        (λ c. IsPlanOf c (latest_path layout.now node.now kind)
        (option_map (λ bytes. bytes.now) wanted.entry) change)) }
    ensures latest { IfOk result
        (λ change. IfSome change (IsOfLatestPlan layout.now node.now)) }
    ensures ready { IsReady layout.now (S.state store.new) }
    ensures looks { OnlyReads (S.state store.old) (S.state store.new) (S.stood store.old)
        (S.stood store.new) }
    ensures cause { HasStoreCause (S.state store.old).faults (S.state store.new).faults result }
{
    let path = match layout.latest(alloc, node, kind) {
        Ok(path) => path,
        Err(NoMemory) => return Err(ListError::Memory),
    };
    let found = match read(alloc, store, layout, &path) {
        Ok(found) => found,
        Err(error) => return Err(error),
    };
    match change_to(alloc, path, found, wanted) {
        Ok(change) => Ok(change),
        Err(NoMemory) => Err(ListError::Memory),
    }
}

// The changes as a list.
fn plan_of(
    alloc: Global,
    first: Option<Planned>,
    second: Option<Planned>,
) -> Result<Vec<Planned>, NoMemory>
    ensures { IfOk result (λ plan. plan.items ≡ option_to_list first ++ option_to_list second) }
{
    let mut plan = Vec::new(alloc);
    if let Some(change) = first {
        plan.push(change)?;
    }
    if let Some(change) = second {
        plan.push(change)?;
    }
    Ok(plan)
}

// What is to be done so that the latest objects of the node are these, or don't stand.
fn plan_latest<S: Storage>(
    alloc: Global,
    store: &mut S,
    layout: &Layout,
    node: &Fqdn,
    name: Option<&[u8]>,
    ring: Option<&[u8]>,
) -> Result<Vec<Planned>, ListError>
    requires ready { IsReady layout.now (S.state store.old) }
    ensures plan { IfOk result
        (λ plan. IfSome (S.state store.old).content
        (λ c. (xs : List Effect) → ArePlanned plan.items xs
        → (seconds : ℕ → ℕ)
        × (xs ≡ latest_to layout.now c node.now (option_map (λ bytes. bytes.now) name.entry)
        (option_map (λ bytes. bytes.now) ring.entry) seconds))) }
    ensures latest { IfOk result
        (λ plan. AllByRecursion (IsOfLatestPlan layout.now node.now) plan.items) }
    ensures looks { OnlyReads (S.state store.old) (S.state store.new) (S.stood store.old)
        (S.stood store.new) }
    ensures cause { HasStoreCause (S.state store.old).faults (S.state store.new).faults result }
{
    let first = plan_object(alloc, store, layout, node, LatestKind::Name, name)?;
    let second = plan_object(alloc, store, layout, node, LatestKind::Tokenmap, ring)?;
    match plan_of(alloc, first, second) {
        Ok(plan) => Ok(plan),
        Err(NoMemory) => Err(ListError::Memory),
    }
}

/// The bytes of the token map of a backup.
pub(crate) fn tokenmap_of<S: Storage>(
    alloc: Global,
    store: &mut S,
    layout: &Layout,
    node: &Fqdn,
    name: &BackupName,
) -> Result<Option<Vec<u8>>, ListError>
    requires ready { IsReady layout.now (S.state store.old) }
    ensures answer { IfOk result
        (λ found. AnswersBytes (meta_path layout.now node.now name.now Tokenmap)
        (S.state store.old).content (option_map (λ bytes. bytes.items) found)) }
    ensures kind { OnOk result
        (kind_of layout.now (meta_path layout.now node.now name.now Tokenmap)
        ≡ Meta node.now name.now Tokenmap) }
    ensures ready { IsReady layout.now (S.state store.new) }
    ensures looks { OnlyReads (S.state store.old) (S.state store.new) (S.stood store.old)
        (S.stood store.new) }
    ensures cause { HasStoreCause (S.state store.old).faults (S.state store.new).faults result }
{
    let path = match layout.meta(alloc, node, name, MetaKind::Tokenmap) {
        Ok(path) => path,
        Err(NoMemory) => return Err(ListError::Memory),
    };
    read(alloc, store, layout, &path)
}

// The bytes, lent.
fn lent(bytes: &Option<Vec<u8>>) -> Option<&[u8]>
    ensures { option_map (λ lent. lent.now) result ≡ option_map (λ bytes. bytes.items) bytes.now }
{
    match bytes {
        Some(bytes) => Some(bytes.as_slice()),
        None => None,
    }
}

// What is to be done so that the latest entry of the node tells of this backup.
fn plan_newest<S: Storage>(
    alloc: Global,
    store: &mut S,
    layout: &Layout,
    node: &Fqdn,
    name: &BackupName,
) -> Result<Vec<Planned>, ListError>
    requires ready { IsReady layout.now (S.state store.old) }
    ensures plan { IfOk result
        (λ plan. IfSome (S.state store.old).content
        (λ c. (newest : ℕ × List ℕ) → newest.1 ≡ name.now → (xs : List Effect)
        → ArePlanned plan.items xs
        → (seconds : ℕ → ℕ) × (xs ≡ mend_to layout.now c node.now (Some newest) seconds))) }
    ensures kind { OnOk result
        (kind_of layout.now (meta_path layout.now node.now name.now Tokenmap)
        ≡ Meta node.now name.now Tokenmap) }
    ensures latest { IfOk result
        (λ plan. AllByRecursion (IsOfLatestPlan layout.now node.now) plan.items) }
    ensures looks { OnlyReads (S.state store.old) (S.state store.new) (S.stood store.old)
        (S.stood store.new) }
    ensures cause { HasStoreCause (S.state store.old).faults (S.state store.new).faults result }
{
    let ring = tokenmap_of(alloc, store, layout, node, name)?;
    let name = Some(name.as_str().as_bytes());
    plan_latest(alloc, store, layout, node, name, lent(&ring))
}

/// What is to be done so that the latest entry of the node tells of the newest finished backup of
/// those that were found and aren't among some names. The bucket is only read; `Store` comes only
/// where its count of faults rose.
pub fn plan_mend_outside<S: Storage>(
    alloc: Global,
    store: &mut S,
    layout: &Layout,
    node: &Fqdn,
    found: &BTreeMap<BackupName, Marks>,
    but: &BTreeSet<BackupName>,
) -> Result<Vec<Planned>, ListError>
    requires ready { IsReady layout.now (S.state store.old) }
    ensures plan { IfOk result
        (λ plan. IfSome (S.state store.old).content
        (λ c. AreFound node.now found.now layout.now node.now c [] → (names : List (List ℕ))
        → IsSetOf names but.now → (xs : List Effect) → ArePlanned plan.items xs
        → (seconds : ℕ → ℕ) × (xs ≡ changes_of_mend layout.now c node.now names seconds))) }
    ensures latest { IfOk result
        (λ plan. AllByRecursion (IsOfLatestPlan layout.now node.now) plan.items) }
    ensures looks { OnlyReads (S.state store.old) (S.state store.new) (S.stood store.old)
        (S.stood store.new) }
    ensures cause { HasStoreCause (S.state store.old).faults (S.state store.new).faults result }
{
    match newest_found(found, but) {
        None => plan_latest(alloc, store, layout, node, None, None),
        Some((_, name)) => plan_newest(alloc, store, layout, node, name),
    }
}

/// What is to be done so that the latest entry of the node tells of the newest finished backup that
/// was found.
pub(crate) fn plan_mend<S: Storage>(
    alloc: Global,
    store: &mut S,
    layout: &Layout,
    node: &Fqdn,
    found: &BTreeMap<BackupName, Marks>,
) -> Result<Vec<Planned>, ListError>
    requires ready { IsReady layout.now (S.state store.old) }
    ensures plan { IfOk result
        (λ plan. IfSome (S.state store.old).content
        (λ c. AreFound node.now found.now layout.now node.now c [] → (xs : List Effect)
        → ArePlanned plan.items xs
        → (seconds : ℕ → ℕ) × (xs ≡ changes_of_mend layout.now c node.now [] seconds))) }
    ensures latest { IfOk result
        (λ plan. AllByRecursion (IsOfLatestPlan layout.now node.now) plan.items) }
    ensures looks { OnlyReads (S.state store.old) (S.state store.new) (S.stood store.old)
        (S.stood store.new) }
    ensures cause { HasStoreCause (S.state store.old).faults (S.state store.new).faults result }
{
    let none = no_names(alloc);
    plan_mend_outside(alloc, store, layout, node, found, &none)
}

// What is to be done so that the latest entry of the node tells of its newest finished backup.
fn find_mend<S: Storage>(
    alloc: Global,
    store: &mut S,
    layout: &Layout,
    node: &Fqdn,
) -> Result<Vec<Planned>, ListError>
    requires ready { IsReady layout.now (S.state store.old) }
    ensures plan { IfOk result
        (λ plan. IfSome (S.state store.old).content
        (λ c. (xs : List Effect) → ArePlanned plan.items xs
        → (seconds : ℕ → ℕ) × (xs ≡ changes_of_mend layout.now c node.now [] seconds))) }
    ensures latest { IfOk result
        (λ plan. AllByRecursion (IsOfLatestPlan layout.now node.now) plan.items) }
    ensures looks { OnlyReads (S.state store.old) (S.state store.new) (S.stood store.old)
        (S.stood store.new) }
    ensures cause { HasStoreCause (S.state store.old).faults (S.state store.new).faults result }
{
    let found = find_backups(alloc, store, layout, node)?;
    plan_mend(alloc, store, layout, node, &found)
}

/// Makes the latest entry of the node tell of its newest finished backup: the one whose manifest
/// has the greatest second, and of those the last in the order of their names. Where there is none
/// the node has no latest entry. After a refusal the first of the changes were made; where one of
/// them answered `Store` that one was made too, or not, and the trace is unsure.
pub fn mend_latest<S: Storage>(
    alloc: Global,
    store: &mut S,
    layout: &Layout,
    node: &Fqdn,
    trace: &mut Trace,
) -> Result<(), ListError>
    requires ready { IsReady layout.now (S.state store.old) }
    requires sure { trace.old.unsure ≡ false }
    ensures makes { (xs : List Effect)
        × IsMend layout.now (S.state store.old).content node.now xs
        × Makes (IsOk result) (IsError result ListError.Store) xs (S.state store.old)
        (S.state store.new) (S.stood store.old) (S.stood store.new) trace.old trace.new }
    ensures ready { IsReady layout.now (S.state store.new) }
    ensures sure { OnOk result (trace.new.unsure ≡ false) }
    ensures cause { HasStoreCause (S.state store.old).faults (S.state store.new).faults result }
{
    // The contract of `as_str` says that the node has a name, whatever is read.
    let _ = node.as_str();
    let plan = match find_mend(alloc, store, layout, node) {
        Ok(plan) => plan,
        Err(error) => return Err(error),
    };
    apply_all(alloc, store, layout, node, plan.as_slice(), trace)
}
