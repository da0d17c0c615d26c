// A backup is finished: its records are looked at, and its manifest is put.
ghost use Rattle.std.specs.Prelude.{◌≡◌, false, IfOk, IfSome};
ghost use Rattle.std.specs.List.{AllByRecursion};
ghost use Rattle.std.specs.List.Sorted.{IsPermutation, IsSorted};
ghost use Rattle.med_base.specs.Key.{AreRising, IsKey, key_cmp};
ghost use Rattle.med_base.specs.Kinds.{IsBackupName, IsFqdn};
ghost use Rattle.med_index.specs.Modes.{is_differential};
ghost use Rattle.med_manifest.specs.Manifest.{IsPathOf};
ghost use Rattle.med_outside.specs.Sent.{AsksBoth};
ghost use Rattle.med_outside.specs.Snapshot.{HasKey};
ghost use Rattle.med_outside.specs.State.{IsReady};
ghost use Rattle.med_shelf.specs.Finishes.{Finishes, FinishesSorted, HasKeys};
ghost use Rattle.med_shelf.specs.Records.{keys_of, record_cmp};
ghost use Rattle.med_shelf.specs.Shelf.{IsClaimOf, MayAct};

use crate::checking::check_records;
use crate::claiming::names_keep_rules;
use crate::ending::end_backup;
use crate::writing::write_records;
use crate::{Claim, FinishError, Finished, Shelf};
use med_base::{BackupName, Fqdn, Layout, NoMemory};
use med_core::{Mode, Record};
use med_outside::{CopyFault, Snap, Storage, Trace};
use std::alloc::Global;
use std::cmp::Ordering;

fn record_order(a: &Record, b: &Record) -> Ordering
    ensures { result ≡ record_cmp a.now b.now }
{
    a.file.key.cmp(&b.file.key)
}

// Puts the records in order of their keys.
fn sort_records(records: &mut Vec<Record>)
    ensures same { IsPermutation records.old.items records.new.items }
    ensures order { IsSorted record_cmp records.new.items }
{
    records.sort_unstable_by(record_order);
}

// Finishes the backup of these records, which stand in order of their keys.
fn finish_sorted<S: Storage, P: Snap>(
    alloc: Global,
    store: &mut S,
    snap: &mut P,
    layout: &Layout,
    node: &Fqdn,
    name: BackupName,
    mode: Mode,
    records: Vec<Record>,
    trace: &mut Trace,
) -> Result<Finished, CopyFault>
    requires ready { IsReady layout.now (S.state store.old) }
    requires sure { trace.old.unsure ≡ false }
    requires held { IfSome (P.state snap.old).held
        (λ s. AllByRecursion (λ r. HasKey r.file.key s) records.items) }
    requires rising { AreRising (keys_of records.items) }
    requires files { AllByRecursion (λ r. IsKey r.file.key
        × IsPathOf layout.now node.now name r.file.key r.file.path) records.items }
    ensures finishes { FinishesSorted layout.now node.now name (is_differential mode)
        records.items (P.state snap.old).held result (S.state store.old) (S.state store.new)
        (S.stood store.old) (S.stood store.new) trace.old trace.new }
    ensures asks { AsksBoth (P.state snap.old) (P.state snap.new) (S.state store.old)
        (S.state store.new) result }
{
    let looked = match check_records(
        alloc, store, snap, layout, node, &name, mode, records, trace,
    ) {
        Ok(looked) => looked,
        Err(fault) => return Err(fault),
    };
    let written = match write_records(alloc, looked) {
        Ok(written) => written,
        Err(NoMemory) => return Err(CopyFault::Memory),
    };
    match end_backup(
        alloc,
        store,
        layout,
        node,
        &name,
        written.text.as_slice(),
        trace,
    ) {
        Ok(second) => Ok(Finished {
            name,
            second,
            records: written.records,
        }),
        Err(denied) => Err(CopyFault::of_store(denied)),
    }
}

impl Shelf {
    /// Finishes a backup. Its records are looked at in order of their keys, and the file of each that
    /// isn't stored as recorded is placed again, from the snapshot. Then the manifest is put and its
    /// entries in the index, and the latest entry of the node is mended. The name is no longer running,
    /// whatever the answer is; after a refusal a first part of this was done, and the backup is finished
    /// only where its manifest was put.
    pub fn finish<S: Storage, P: Snap>(
        &mut self,
        alloc: Global,
        store: &mut S,
        claim: Claim,
        snap: &mut P,
        trace: &mut Trace,
    ) -> Result<Finished, FinishError>
        requires may { MayAct self.old (S.state store.old) trace.old }
        requires claim { IsClaimOf self.old claim }
        requires keys { HasKeys claim (P.state snap.old).held }
        ensures finishes { Finishes self.old self.new claim (P.state snap.old).held result
            (S.state store.old) (S.state store.new) (S.stood store.old) (S.stood store.new)
            trace.old trace.new }
        ensures asks { AsksBoth (P.state snap.old) (P.state snap.new) (S.state store.old)
            (S.state store.new) result }
    {
        names_keep_rules(&claim.node, &claim.name);
        self.running.retain(|name| *name != claim.name);
        let mut records = claim.records;
        let name = claim.name;
        sort_records(&mut records);
        let (layout, node, mode) = (&claim.layout, &claim.node, claim.mode);
        finish_sorted(alloc, store, snap, layout, node, name, mode, records, trace)
    }
}
