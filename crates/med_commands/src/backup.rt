// The command `backup`.
ghost use Rattle.std.specs.Prelude.{◌≡◌, ◌≤◌, OnOk, OnErr};
ghost use Rattle.med_outside.specs.Device.{Output, on};
ghost use Rattle.med_outside.specs.State.{IsAtRest, IsReady};
ghost use Rattle.med_outside.specs.World.{world, rose_of, rose_of_output, IsLater};
ghost use Rattle.med_plan.specs.Ends.{Ends, Steps, seen};
ghost use Rattle.med_commands.specs.NodeConfig.{node_config_of};
ghost use Rattle.med_plan.specs.Ends.{Passed};
ghost use Rattle.med_backup.specs.Backups.{AsksAsBackup};
ghost use Rattle.med_words.specs.Views.{asked_of};
ghost use Rattle.med_words.specs.Tables.{backup};
ghost use Rattle.med_commands.specs.Backups.{AsksNodes, MakesBackup, WorksOnNode, WorksOnSnapshot};
ghost use Rattle.med_commands.specs.Fault.{stop_of};
ghost use Rattle.med_commands.specs.Headline.{says};
ghost use Rattle.med_commands.specs.Plans.{plan_of};
ghost use Rattle.med_commands.specs.Printed.{Wrote, WrotePart};
ghost use Rattle.med_commands.specs.Report.{report_line};

use crate::fault::{Fault, fault_of};
use crate::load::load;
use crate::print::write_whole;
use crate::report::line_of;
use med_backup::{BackupError, BackupReport, backup_node};
use med_base::{BackupName, Fqdn, Layout, NoMemory};
use med_ini::Config;
use med_outside::{CopyFault, Files, Mode, Nodes, Sink, SinkFailed, Snap, Storage, Trace};
use med_shelf::Shelf;
use med_words::Request;
use std::alloc::{AllocError, Global};

// Backs up the snapshot of the node, on a shelf where no backup is being made.
fn back_up_snapshot<S: Storage, P: Snap>(
    alloc: Global,
    layout: Layout,
    node: Fqdn,
    store: &mut S,
    snap: &mut P,
    name: &BackupName,
    mode: Mode,
) -> Result<BackupReport, BackupError>
    requires ready { IsReady layout (S.state store.old) }
    ensures backup { MakesBackup layout node name.now mode (P.state snap.old).held result
        (S.state store.old) (S.state store.new) (S.stood store.old) (S.stood store.new) }
    ensures asks { AsksAsBackup (P.state snap.old) (P.state snap.new) (S.state store.old)
        (S.state store.new) result }
{
    let mut shelf = Shelf::new(alloc, layout, node);
    let mut trace = Trace::new(alloc);
    backup_node(alloc, &mut shelf, store, snap, name, mode, &mut trace)
}

// Opens the node's snapshot for the backup, backs it up, and closes it whatever the answer is.
fn back_up_tagged<S: Storage, N: Nodes>(
    alloc: Global,
    config: Config,
    store: &mut S,
    nodes: &mut N,
    name: &BackupName,
    mode: Mode,
) -> Result<BackupReport, BackupError>
    requires ready { IsReady config.layout (S.state store.old) }
    ensures works { WorksOnSnapshot (node_config_of config) name.now mode (N.state nodes.old)
        (N.state nodes.new) result (S.state store.old) (S.state store.new) (S.stood store.old)
        (S.stood store.new) }
    ensures asks { AsksNodes (N.state nodes.old) (N.state nodes.new) (S.state store.old)
        (S.state store.new) result }
{
    let tag = match format!(in alloc; "medusa-{}", name.as_str()) {
        Ok(tag) => tag,
        Err(_) => return Err(BackupError::Fault(CopyFault::Memory)),
    };
    let layout = config.layout;
    let node = config.node;
    let root = config.nodes_root;
    let mut snap = match nodes.open(alloc, root.as_str(), &node, tag.as_str()) {
        Ok(snap) => snap,
        Err(denied) => return Err(BackupError::Fault(CopyFault::of_snap(denied))),
    };
    let answer = back_up_snapshot(alloc, layout, node, store, &mut snap, name, mode);
    nodes.close(snap);
    answer
}

// Opens the bucket, and backs up the node into it.
fn back_up_node<S: Storage, N: Nodes>(
    alloc: Global,
    config: Config,
    store: &mut S,
    nodes: &mut N,
    name: &BackupName,
    mode: Mode,
) -> Result<BackupReport, BackupError>
    requires rest { IsAtRest (S.state store.old) }
    ensures works { WorksOnNode (node_config_of config) name.now mode (N.state nodes.old)
        (N.state nodes.new) result (S.state store.old) (S.state store.new) (S.stood store.old)
        (S.stood store.new) }
    ensures asks { AsksNodes (N.state nodes.old) (N.state nodes.new) (S.state store.old)
        (S.state store.new) result }
{
    match store.open(
        alloc,
        config.base.as_str(),
        config.bucket.as_str(),
        &config.layout,
    ) {
        Ok(()) => back_up_tagged(alloc, config, store, nodes, name, mode),
        Err(denied) => Err(BackupError::Fault(CopyFault::of_store(denied))),
    }
}

// Prints the line of a backup that was made.
fn print_line<O: Sink>(alloc: Global, report: &BackupReport, out: &mut O) -> Result<(), Fault>
    ensures step { Steps {T = Unit {0}}
        (rose_of_output (O.state out.old).faults (O.state out.new).faults) Passed (on Output)
        (seen (λ x. x) stop_of result) }
    ensures ok { OnOk result
        (Wrote (report_line report.now) (O.state out.old).taken (O.state out.new).taken) }
    ensures err { OnErr result
        (WrotePart (report_line report.now) (O.state out.old).taken (O.state out.new).taken) }
    ensures later { (O.state out.old).faults ≤ (O.state out.new).faults }
{
    let line = match line_of(alloc, report) {
        Ok(line) => line,
        Err(AllocError) => return Err(Fault::Memory),
    };
    match write_whole(out, line.as_str().as_bytes()) {
        Ok(()) => Ok(()),
        Err(SinkFailed) => Err(Fault::Output),
    }
}

/// Backs up the node of the config file under the name that the request asks for, and prints one
/// line.
pub(crate) fn back_up<F: Files, S: Storage, N: Nodes, O: Sink>(
    alloc: Global,
    request: &Request,
    name: &BackupName,
    mode: Mode,
    files: &mut F,
    store: &mut S,
    nodes: &mut N,
    out: &mut O,
) -> Result<(), Fault>
    requires asks { (asked_of request.now).action ≡ backup name.now mode }
    requires rest { IsAtRest (S.state store.old) }
    ensures ends { let a = world (F.state files.old) (N.state nodes.old) (S.state store.old)
        (S.stood store.old) (O.state out.old) in
        let b = world (F.state files.new) (N.state nodes.new) (S.state store.new)
        (S.stood store.new) (O.state out.new) in
        Ends (rose_of a b) says (plan_of (asked_of request.now) a b)
        (seen (λ x. x) stop_of result) }
    ensures later { IsLater
        (world (F.state files.old) (N.state nodes.old) (S.state store.old)
        (S.stood store.old) (O.state out.old))
        (world (F.state files.new) (N.state nodes.new) (S.state store.new)
        (S.stood store.new) (O.state out.new)) }
{
    let told_name = match name.copy(alloc) {
        Ok(name) => name,
        Err(NoMemory) => return Err(Fault::Memory),
    };
    let config = load(alloc, files, request)?;
    match back_up_node(alloc, config, store, nodes, name, mode) {
        Ok(report) => print_line(alloc, &report, out),
        Err(error) => Err(fault_of(told_name, error)),
    }
}
