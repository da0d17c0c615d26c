// Changes of the index that are to be made, and how they are made.
ghost use Rattle.std.specs.Prelude.{◌≡◌, ◌∷◌, [], List, false, OnOk, IsOk};
ghost use Rattle.std.specs.List.{AllByRecursion};
ghost use Rattle.med_base.specs.Effects.{Effect};
ghost use Rattle.med_outside.specs.Makes.{Makes, IsError};
ghost use Rattle.med_outside.specs.State.{IsReady};
ghost use Rattle.med_index.specs.declared.errors.ListError.TheVariants.{Store};
ghost use Rattle.med_index.specs.Errors.{HasStoreCause};
ghost use Rattle.med_index.specs.Planned.{ArePlanned, IsOfIndexPlan, IsPlannedAs};

use crate::ListError;
use med_base::{Fqdn, Layout, ObjPath};
use med_outside::{Denied, Storage, Trace, delete_recorded, put_recorded};
use std::alloc::Global;

/// A change of the index that is to be made.
#[derive(Drop)]
pub enum Planned {
    /// An object is stored.
    Put { path: ObjPath, bytes: Vec<u8> },
    /// No object has the path.
    Delete { path: ObjPath },
}

// Makes one change, and records it.
fn apply<S: Storage>(
    alloc: Global,
    store: &mut S,
    layout: &Layout,
    node: &Fqdn,
    planned: &Planned,
    trace: &mut Trace,
) -> Result<(), ListError>
    requires ready { IsReady layout.now (S.state store.old) }
    requires sure { trace.old.unsure ≡ false }
    requires index { IsOfIndexPlan layout.now node.now planned.now }
    ensures makes { (x : Effect) × IsPlannedAs planned.now x
        × Makes (IsOk result) (IsError result ListError.Store) (x ∷ []) (S.state store.old)
        (S.state store.new) (S.stood store.old) (S.stood store.new) trace.old trace.new }
    ensures ready { IsReady layout.now (S.state store.new) }
    ensures sure { OnOk result (trace.new.unsure ≡ false) }
    ensures cause { HasStoreCause (S.state store.old).faults (S.state store.new).faults result }
{
    match planned {
        Planned::Put { path, bytes } => match put_recorded(alloc, store, path, bytes, trace) {
            Ok(_) => Ok(()),
            Err(Denied::Failed) => Err(ListError::Store),
            Err(Denied::Memory) => Err(ListError::Memory),
        },
        Planned::Delete { path } => match delete_recorded(alloc, store, path, trace) {
            Ok(()) => Ok(()),
            Err(Denied::Failed) => Err(ListError::Store),
            Err(Denied::Memory) => Err(ListError::Memory),
        },
    }
}

/// Makes the changes in order, and records each.
pub(crate) fn apply_all<S: Storage>(
    alloc: Global,
    store: &mut S,
    layout: &Layout,
    node: &Fqdn,
    plan: &[Planned],
    trace: &mut Trace,
) -> Result<(), ListError>
    requires ready { IsReady layout.now (S.state store.old) }
    requires sure { trace.old.unsure ≡ false }
    requires index { AllByRecursion (IsOfIndexPlan layout.now node.now) plan.now }
    ensures makes { (xs : List Effect) × ArePlanned plan.now xs
        × Makes (IsOk result) (IsError result ListError.Store) xs (S.state store.old)
        (S.state store.new) (S.stood store.old) (S.stood store.new) trace.old trace.new }
    ensures ready { IsReady layout.now (S.state store.new) }
    ensures sure { OnOk result (trace.new.unsure ≡ false) }
    ensures cause { HasStoreCause (S.state store.old).faults (S.state store.new).faults result }
{
    for planned in plan {
        match apply(alloc, store, layout, node, planned, trace) {
            Ok(()) => {}
            Err(error) => return Err(error),
        }
    }
    Ok(())
}
