// What is to be done with the entries of a node.
ghost use Rattle.std.specs.Prelude.{◌≡◌, ◌++◌, OnOk};
ghost use Rattle.std.specs.BTreeMap.{IsOrdered};
ghost use Rattle.std.specs.Map.{keys_of};
ghost use Rattle.med_base.specs.NameOrder.{name_cmp};
ghost use Rattle.med_index.specs.Plans.{delete_unless, deletes_of, put_of, puts_of};

use crate::changes::Planned;
use crate::given::{Given, Sizes};
use med_base::{NoMemory, ObjPath};

// Plans that an entry is deleted, unless it is given.
fn plan_delete(plan: &mut Vec<Planned>, given: &Given, path: ObjPath) -> Result<(), NoMemory>
    ensures { OnOk result (plan.new.items ≡ plan.old.items ++ delete_unless given.now path) }
{
    if !given.contains_key(&path) {
        plan.push(Planned::Delete { path })?;
    }
    Ok(())
}

// Plans that the entries that stand are deleted, each unless it is given.
fn plan_deletes(plan: &mut Vec<Planned>, given: &Given, sizes: Sizes) -> Result<(), NoMemory>
    ensures plan { OnOk result
        (plan.new.items ≡ plan.old.items ++ deletes_of given.now (keys_of sizes.entries)) }
    ensures order { OnOk result (IsOrdered name_cmp sizes) }
{
    for (path, _) in sizes {
        plan_delete(plan, given, path)?;
    }
    Ok(())
}

// Plans that an entry is put, where it has bytes that are to be put.
fn plan_put(plan: &mut Vec<Planned>, path: ObjPath, bytes: Option<Vec<u8>>) -> Result<(), NoMemory>
    ensures { OnOk result (plan.new.items ≡ plan.old.items ++ put_of path bytes) }
{
    if let Some(bytes) = bytes {
        plan.push(Planned::Put { path, bytes })?;
    }
    Ok(())
}

// Plans that the entries that are given are put, each unless it stands.
fn plan_puts(plan: &mut Vec<Planned>, given: Given) -> Result<(), NoMemory>
    ensures plan { OnOk result (plan.new.items ≡ plan.old.items ++ puts_of given.entries) }
    ensures order { OnOk result (IsOrdered name_cmp given) }
{
    for (path, bytes) in given {
        plan_put(plan, path, bytes)?;
    }
    Ok(())
}

/// Plans that the entries that stand and aren't given are deleted, and that those that are given and
/// don't stand are put.
pub(crate) fn plan_entries(
    plan: &mut Vec<Planned>,
    given: Given,
    sizes: Sizes,
) -> Result<(), NoMemory>
    ensures plan { OnOk result (plan.new.items
        ≡ plan.old.items ++ (deletes_of given (keys_of sizes.entries) ++ puts_of given.entries)) }
    ensures given { OnOk result (IsOrdered name_cmp given) }
    ensures sizes { OnOk result (IsOrdered name_cmp sizes) }
{
    plan_deletes(plan, &given, sizes)?;
    plan_puts(plan, given)
}
