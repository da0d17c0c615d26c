// The nodes that have backups.
ghost use Rattle.std.specs.Prelude.{◌≡◌, None, Some, IfOk, IfSome, OnOk, map};
ghost use Rattle.std.specs.BTreeMap.{IsOrdered, Updates};
ghost use Rattle.std.specs.List.Sorted.{IsStrictlySortedBy};
ghost use Rattle.med_base.specs.NameOrder.{name_cmp};
ghost use Rattle.med_base.specs.Names.{fqdn_fault};
ghost use Rattle.med_outside.specs.State.{IsReady, OnlyReads};
ghost use Rattle.med_index.specs.Errors.{HasStoreCause};
ghost use Rattle.med_index.specs.Rows.{AreNodes};

use crate::ListError;
use crate::meta::meta_at;
use crate::pages::{Visitor, walk};
use med_base::{Fqdn, Layout, NameError, NoMemory};
use med_outside::{Entry, Storage};
use std::alloc::{AllocError, Global};
use std::collections::BTreeMap;

// The nodes of which a backup was found.
#[derive(Drop)]
struct Nodes {
    found: BTreeMap<Fqdn, ()>,
}

// Notes a node.
fn note(alloc: Global, found: &mut BTreeMap<Fqdn, ()>, node: &str) -> Result<(), NoMemory>
    requires { fqdn_fault node.now ≡ None }
    ensures { OnOk result (Updates name_cmp found.old found.new node.now (Some tt)) }
{
    let name = match Fqdn::read(alloc, node) {
        Ok(name) => name,
        Err(NameError::BadName { at: _ }) => unreachable!(),
        Err(NameError::Memory) => return Err(NoMemory),
    };
    found.insert(name, ())?;
    Ok(())
}

impl Visitor for Nodes {
    ghost use Rattle.med_index.specs.Visits.{AreNodesFound};

    ghost Terms = { Unit {0} };

    ghost terms = { λ _. tt };

    ghost found = { λ n before f c rest. AreNodesFound n.found before c rest };

    ghost held = { λ n before f name. Unit {0} };

    fn visit(&mut self, alloc: Global, layout: &Layout, entry: &Entry) -> Result<(), NoMemory> {
        match meta_at(layout, &entry.path) {
            Some((owner, _, _)) => note(alloc, &mut self.found, owner),
            None => Ok(()),
        }
    }
}

// The keys of the map, in its order.
fn names_of(alloc: Global, found: BTreeMap<Fqdn, ()>) -> Result<Vec<Fqdn>, AllocError>
    ensures keys { IfOk result (λ names. names.items ≡ map (λ e. e.0) found.entries) }
    ensures order { OnOk result (IsOrdered name_cmp found) }
{
    found.into_keys().collect(alloc)
}

/// The nodes that have a backup, in order of their bytes. The bucket is only read; `Store` comes
/// only where its count of faults rose.
pub fn nodes_in<S: Storage>(
    alloc: Global,
    store: &mut S,
    layout: &Layout,
) -> Result<Vec<Fqdn>, ListError>
    requires { IsReady layout.now (S.state store.old) }
    ensures ok { IfOk result
        (λ nodes. IfSome (S.state store.old).content
        (λ c. AreNodes c layout.now nodes.items)) }
    ensures order { IfOk result (λ nodes. IsStrictlySortedBy name_cmp nodes.items) }
    ensures looks { OnlyReads (S.state store.old) (S.state store.new) (S.stood store.old)
        (S.stood store.new) }
    ensures cause { HasStoreCause (S.state store.old).faults (S.state store.new).faults result }
{
    let mut nodes = Nodes {
        found: BTreeMap::new(alloc),
    };
    walk(alloc, store, layout, layout.before(), &mut nodes)?;
    match names_of(alloc, nodes.found) {
        Ok(names) => Ok(names),
        Err(AllocError) => Err(ListError::Memory),
    }
}
