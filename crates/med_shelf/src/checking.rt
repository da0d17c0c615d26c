// The look at the records of a backup before its finish.
ghost use Rattle.std.specs.Prelude.{◌≡◌, false, IfSome, option_map};
ghost use Rattle.std.specs.List.{AllByRecursion};
ghost use Rattle.med_base.specs.Key.{AreRising};
ghost use Rattle.med_index.specs.Modes.{is_differential};
ghost use Rattle.med_manifest.specs.Manifest.{IsPathOf};
ghost use Rattle.med_outside.specs.Sent.{AsksBoth};
ghost use Rattle.med_outside.specs.Snapshot.{HasKey};
ghost use Rattle.med_outside.specs.State.{IsReady};
ghost use Rattle.med_shelf.specs.Checks.{ChecksRecord, ChecksRecords};
ghost use Rattle.med_shelf.specs.Records.{keys_of};

use crate::placing::place_file;
use crate::sending::stands;
use med_base::{BackupName, Fingerprint, Fqdn, Layout};
use med_core::{Mode, Record};
use med_outside::{CopyFault, Snap, Stat, Storage, Trace};
use std::alloc::Global;

// The fingerprint of the object that was found, if one was.
fn print_of(found: Option<Stat>) -> Option<Fingerprint>
    ensures { result ≡ option_map (λ stat. stat.fingerprint) found }
{
    match found {
        None => None,
        Some(stat) => Some(stat.fingerprint),
    }
}

// Looks at the path of a record: where it has the recorded fingerprint the record stays, and else
// the file is placed again, with a record made anew.
fn check_record<S: Storage, P: Snap>(
    alloc: Global,
    store: &mut S,
    snap: &mut P,
    layout: &Layout,
    node: &Fqdn,
    name: &BackupName,
    mode: Mode,
    recorded: Record,
    trace: &mut Trace,
) -> Result<Record, CopyFault>
    requires ready { IsReady layout.now (S.state store.old) }
    requires sure { trace.old.unsure ≡ false }
    requires key { IfSome (P.state snap.old).held (HasKey recorded.file.key) }
    requires path { IsPathOf layout.now node.now name.now recorded.file.key recorded.file.path }
    ensures checks { ChecksRecord layout.now node.now name.now (is_differential mode) recorded
        (P.state snap.old).held result (S.state store.old) (S.state store.new)
        (S.stood store.old) (S.stood store.new) trace.old trace.new }
    ensures asks { AsksBoth (P.state snap.old) (P.state snap.new) (S.state store.old)
        (S.state store.new) result }
{
    let found = match store.stat(alloc, &recorded.file.path) {
        Ok(found) => found,
        Err(denied) => return Err(CopyFault::of_store(denied)),
    };
    let standing = print_of(found);
    if stands(standing, recorded.file.fingerprint) {
        return Ok(recorded);
    }
    let key = &recorded.file.key;
    place_file(alloc, store, snap, layout, node, name, mode, key, trace)
}

/// Looks at the records in order, and answers those that stay and those that were made anew. After a
/// refusal some first of the files that weren't stored as recorded were placed again.
pub(crate) fn check_records<S: Storage, P: Snap>(
    alloc: Global,
    store: &mut S,
    snap: &mut P,
    layout: &Layout,
    node: &Fqdn,
    name: &BackupName,
    mode: Mode,
    records: Vec<Record>,
    trace: &mut Trace,
) -> Result<Vec<Record>, CopyFault>
    requires ready { IsReady layout.now (S.state store.old) }
    requires sure { trace.old.unsure ≡ false }
    requires keys { IfSome (P.state snap.old).held
        (λ s. AllByRecursion (λ r. HasKey r.file.key s) records.items) }
    requires rising { AreRising (keys_of records.items) }
    requires paths { AllByRecursion
        (λ r. IsPathOf layout.now node.now name.now r.file.key r.file.path) records.items }
    ensures checks { ChecksRecords layout.now node.now name.now (is_differential mode)
        records.items (P.state snap.old).held result (λ v. v.items) (S.state store.old)
        (S.state store.new) (S.stood store.old) (S.stood store.new) trace.old trace.new }
    ensures asks { AsksBoth (P.state snap.old) (P.state snap.new) (S.state store.old)
        (S.state store.new) result }
{
    let mut kept = Vec::new(alloc);
    for recorded in records {
        match check_record(
            alloc, store, snap, layout, node, name, mode, recorded, trace,
        ) {
            Ok(one) => match kept.push(one) {
                Ok(()) => {}
                Err(_) => return Err(CopyFault::Memory),
            },
            Err(fault) => return Err(fault),
        }
    }
    Ok(kept)
}
