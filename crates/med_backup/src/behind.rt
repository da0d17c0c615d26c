// The calls of a backup behind its claim.
ghost use Rattle.std.specs.Prelude.{◌≡◌, [], IfSome};
ghost use Rattle.std.specs.List.{AllByRecursion};
ghost use Rattle.med_base.specs.Key.{AreRising, IsKey};
ghost use Rattle.med_base.specs.Kinds.{IsBackupName, IsFqdn};
ghost use Rattle.med_outside.specs.Sent.{AsksBoth};
ghost use Rattle.med_outside.specs.Snapshot.{HasKey};
ghost use Rattle.med_shelf.specs.Shelf.{IsClaimOf, MayAct};
ghost use Rattle.med_backup.specs.Placing.{MakesBehind};

use crate::placing::place_files;
use med_base::{BackupName, FileKey, Fqdn};
use med_outside::{CopyFault, Snap, Storage, Trace};
use med_shelf::{Claim, Finished, Shelf};
use std::alloc::Global;

// The rules that the two names keep, which their references don't tell.
fn names_keep_rules(node: &Fqdn, name: &BackupName)
    ensures node { IsFqdn node.now }
    ensures name { IsBackupName name.now }
{
    node.as_str();
    name.as_str();
}

/// Places the files of the keys in order, and finishes the backup. After a refusal in a place the
/// claim is given up.
pub(crate) fn place_and_finish<S: Storage, P: Snap>(
    alloc: Global,
    shelf: &mut Shelf,
    store: &mut S,
    claim: Claim,
    keys: Vec<FileKey>,
    snap: &mut P,
    trace: &mut Trace,
) -> Result<Finished, CopyFault>
    requires may { MayAct shelf.old (S.state store.old) trace.old }
    requires of { IsClaimOf shelf.old claim }
    requires records { claim.records ≡ [] }
    requires rising { AreRising keys.items }
    requires names { AllByRecursion IsKey keys.items }
    requires has { IfSome (P.state snap.old).held
        (λ s. AllByRecursion (λ key. HasKey key s) keys.items) }
    ensures behind { MakesBehind shelf.old shelf.new claim keys.items (P.state snap.old).held
        result (S.state store.old) (S.state store.new) (S.stood store.old) (S.stood store.new)
        trace.old trace.new }
    ensures asks { AsksBoth (P.state snap.old) (P.state snap.new) (S.state store.old)
        (S.state store.new) result }
{
    names_keep_rules(claim.node(), claim.name());
    let mut claim = claim;
    match place_files(alloc, shelf, store, &mut claim, keys, snap, trace) {
        Ok(()) => {}
        Err(fault) => {
            shelf.abandon(claim);
            return Err(fault);
        }
    }
    shelf.finish(alloc, store, claim, snap, trace)
}
