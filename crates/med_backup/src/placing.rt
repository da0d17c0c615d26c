// The files of a snapshot are placed, one after another.
ghost use Rattle.std.specs.Prelude.{◌≡◌, [], IfOk, IfErr, IfSome};
ghost use Rattle.std.specs.List.{AllByRecursion};
ghost use Rattle.med_base.specs.Key.{AreRising};
ghost use Rattle.med_outside.specs.Sent.{AsksBoth};
ghost use Rattle.med_outside.specs.Snapshot.{HasKey};
ghost use Rattle.med_shelf.specs.Shelf.{IsClaimOf, MayAct};
ghost use Rattle.med_backup.specs.Placing.{PlacedAll, PlacedSome};

use med_base::FileKey;
use med_outside::{CopyFault, Snap, Storage, Trace};
use med_shelf::{Claim, Shelf};
use std::alloc::Global;

/// Places the files of the keys in order. After a refusal some first of them were placed, and the
/// place of the next one was cut short.
pub(crate) fn place_files<S: Storage, P: Snap>(
    alloc: Global,
    shelf: &mut Shelf,
    store: &mut S,
    claim: &mut Claim,
    keys: Vec<FileKey>,
    snap: &mut P,
    trace: &mut Trace,
) -> Result<(), CopyFault>
    requires may { MayAct shelf.old (S.state store.old) trace.old }
    requires of { IsClaimOf shelf.old claim.old }
    requires records { claim.old.records ≡ [] }
    requires rising { AreRising keys.items }
    requires has { IfSome (P.state snap.old).held
        (λ s. AllByRecursion (λ key. HasKey key s) keys.items) }
    ensures all { IfOk result (λ _. PlacedAll shelf.old shelf.new claim.old claim.new keys.items
        (P.state snap.old).held (S.state store.old) (S.state store.new) (S.stood store.old)
        (S.stood store.new) trace.old trace.new) }
    ensures some { IfErr result (λ why. PlacedSome shelf.old shelf.new claim.old claim.new
        keys.items (P.state snap.old).held why (S.state store.old) (S.state store.new)
        (S.stood store.old) (S.stood store.new) trace.old trace.new) }
    ensures asks { AsksBoth (P.state snap.old) (P.state snap.new) (S.state store.old)
        (S.state store.new) result }
{
    for key in keys {
        match shelf.place(alloc, store, claim, &key, snap, trace) {
            Ok(_) => {}
            Err(fault) => return Err(fault),
        }
    }
    Ok(())
}
