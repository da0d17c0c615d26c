// All that a rebuild of the index of a node reads, beside its backups.
ghost use Rattle.std.specs.Prelude.{◌≡◌, [], IfOk, IfErr, IfSome, OnOk};
ghost use Rattle.med_outside.specs.State.{IsReady, OnlyReads};
ghost use Rattle.med_index.specs.Errors.{HasIndexCause};
ghost use Rattle.med_index.specs.Gathered.{IsGathered, ReadsAll, TellsUnread};
ghost use Rattle.med_index.specs.Given.{AreOfNode};
ghost use Rattle.med_index.specs.Visits.{AreFound};

use crate::IndexError;
use crate::given::{Given, Sizes, give_rests};
use crate::listed::sizes_of;
use crate::manifests::{manifests_outside, read_manifests};
use crate::marks::Marks;
use crate::running::no_names;
use med_base::{BackupName, Fqdn, Layout, NoMemory};
use med_outside::Storage;
use std::alloc::Global;
use std::collections::BTreeMap;

/// What the backups of a node give to its index, and the sizes of the entries that it has.
#[derive(Drop)]
pub(crate) struct Gathered {
    pub(crate) given: Given,
    pub(crate) sizes: Sizes,
}

// Reads the manifests of the finished backups that were found.
fn read_all<S: Storage>(
    alloc: Global,
    store: &mut S,
    layout: &Layout,
    node: &Fqdn,
    found: &BTreeMap<BackupName, Marks>,
    given: &mut Given,
) -> Result<(), IndexError>
    requires ready { IsReady layout.now (S.state store.old) }
    ensures within { OnOk result
        (AreOfNode layout.now node.now given.old → AreOfNode layout.now node.now given.new) }
    ensures ok { OnOk result
        (IfSome (S.state store.old).content
        (λ c. ReadsAll layout.now node.now c found.now given.old given.new)) }
    ensures err { IfErr result
        (λ e. IfSome (S.state store.old).content
        (λ c. AreFound node.now found.now layout.now node.now c []
        → TellsUnread layout.now c node.now e)) }
    ensures ready { IsReady layout.now (S.state store.new) }
    ensures looks { OnlyReads (S.state store.old) (S.state store.new) (S.stood store.old)
        (S.stood store.new) }
    ensures cause { HasIndexCause (S.state store.old).faults (S.state store.new).faults result }
{
    let none = no_names(alloc);
    let manifests = match manifests_outside(alloc, layout, node, found, &none) {
        Ok(manifests) => manifests,
        Err(NoMemory) => return Err(IndexError::Memory),
    };
    read_manifests(alloc, store, layout, node, manifests, given)
}

/// Gathers what the backups that were found give to the index of the node, where each manifest
/// reads.
pub(crate) fn gather<S: Storage>(
    alloc: Global,
    store: &mut S,
    layout: &Layout,
    node: &Fqdn,
    found: BTreeMap<BackupName, Marks>,
) -> Result<Gathered, IndexError>
    requires ready { IsReady layout.now (S.state store.old) }
    ensures given { IfOk result (λ g. AreOfNode layout.now node.now g.given) }
    ensures sizes { IfOk result (λ g. AreOfNode layout.now node.now g.sizes) }
    ensures ok { IfOk result
        (λ g. IfSome (S.state store.old).content
        (λ c. AreFound node.now found layout.now node.now c []
        → IsGathered layout.now node.now c g.given g.sizes)) }
    ensures err { IfErr result
        (λ e. IfSome (S.state store.old).content
        (λ c. AreFound node.now found layout.now node.now c []
        → TellsUnread layout.now c node.now e)) }
    ensures ready { IsReady layout.now (S.state store.new) }
    ensures looks { OnlyReads (S.state store.old) (S.state store.new) (S.stood store.old)
        (S.stood store.new) }
    ensures cause { HasIndexCause (S.state store.old).faults (S.state store.new).faults result }
{
    let sizes = match sizes_of(alloc, store, layout, node) {
        Ok(sizes) => sizes,
        Err(error) => return Err(IndexError::from(error)),
    };
    let mut given = BTreeMap::new(alloc);
    match read_all(alloc, store, layout, node, &found, &mut given) {
        Ok(()) => {}
        Err(error) => return Err(error),
    }
    match give_rests(alloc, store, layout, node, found, &sizes, &mut given) {
        Ok(()) => Ok(Gathered { given, sizes }),
        Err(error) => Err(IndexError::from(error)),
    }
}
