// The command `build-index`.
ghost use Rattle.std.specs.Prelude.{◌≡◌, ◌≤◌, [], false, IfOk, IfErr, OnOk, OnErr, Err, string_bytes};
ghost use Rattle.med_commands.specs.Changes.{IsMadeBy};
ghost use Rattle.med_plan.specs.Ends.{Passed};
ghost use Rattle.med_outside.specs.Device.{Output, on};
ghost use Rattle.med_plan.specs.Ends.{Ends, Steps, seen};
ghost use Rattle.med_outside.specs.State.{IsAtRest, IsReady};
ghost use Rattle.med_outside.specs.World.{NodesState, world, rose_of, rose_of_output, IsLater};
ghost use Rattle.med_words.specs.Views.{asked_of};
ghost use Rattle.med_words.specs.Tables.{build_index};
ghost use Rattle.med_commands.specs.Fault.{stop_of};
ghost use Rattle.med_commands.specs.Headline.{says};
ghost use Rattle.med_commands.specs.Indexed.{HasRebuilt, HasRebuiltAll, HasRebuiltOne, nodes_plan, rebuild_plan, rebuilds_plan, rose_of_store};
ghost use Rattle.med_commands.specs.Plans.{plan_of};
ghost use Rattle.med_commands.specs.Printed.{Wrote, WrotePart};

use crate::fault::{Fault, fault_of_rebuild};
use crate::load::load;
use crate::print::write_whole;
use crate::report::add_index_line;
use med_base::{Fqdn, Layout};
use med_index::{ListError, nodes_in, rebuild};
use med_outside::{Denied, Files, Sink, SinkFailed, Storage, Trace};
use med_words::Request;
use std::alloc::{AllocError, Global};

// Makes the index of the node anew, and adds its line.
fn rebuild_one<S: Storage>(
    alloc: Global,
    store: &mut S,
    layout: &Layout,
    node: &Fqdn,
    trace: &mut Trace,
    lines: &mut String,
) -> Result<(), Fault>
    requires ready { IsReady layout.now (S.state store.old) }
    requires sure { trace.old.unsure ≡ false }
    ensures ok { OnOk result
        (HasRebuiltOne layout.now (S.state store.old) (S.state store.new) (S.stood store.old)
        (S.stood store.new) node.now (string_bytes lines.old) (string_bytes lines.new)) }
    ensures err { IfErr result
        (λ fault. Ends (rose_of_store (S.state store.old).faults (S.state store.new).faults)
        (IsMadeBy (S.state store.old) (S.state store.new) (S.stood store.old) (S.stood store.new))
        (rebuild_plan layout.now node.now (S.state store.old).content) (Err (stop_of fault))) }
    ensures ready { IsReady layout.now (S.state store.new) }
    ensures sure { OnOk result (trace.new.unsure ≡ false) }
    ensures later { (S.state store.old).faults ≤ (S.state store.new).faults }
{
    let report = match rebuild(alloc, store, layout, node, trace) {
        Ok(report) => report,
        Err(error) => return Err(fault_of_rebuild(error)),
    };
    match add_index_line(alloc, node, report, lines) {
        Ok(()) => Ok(()),
        Err(AllocError) => Err(Fault::Memory),
    }
}

// Makes the index of each of the nodes anew, and answers their lines.
fn rebuild_each<S: Storage>(
    alloc: Global,
    store: &mut S,
    layout: &Layout,
    nodes: &[Fqdn],
) -> Result<String, Fault>
    requires ready { IsReady layout.now (S.state store.old) }
    ensures ok { IfOk result
        (λ lines. HasRebuilt layout.now (S.state store.old) (S.state store.new)
        (S.stood store.old) (S.stood store.new) nodes.now (string_bytes lines)) }
    ensures err { IfErr result
        (λ fault. Ends (rose_of_store (S.state store.old).faults (S.state store.new).faults)
        (IsMadeBy (S.state store.old) (S.state store.new) (S.stood store.old) (S.stood store.new))
        (rebuilds_plan layout.now (S.state store.old).content [] nodes.now)
        (Err (stop_of fault))) }
    ensures later { (S.state store.old).faults ≤ (S.state store.new).faults }
{
    let mut trace = Trace::new(alloc);
    let mut lines = String::new(alloc);
    for node in nodes {
        match rebuild_one(alloc, store, layout, node, &mut trace, &mut lines) {
            Ok(()) => {}
            Err(fault) => return Err(fault),
        }
    }
    Ok(lines)
}

// Makes the index of each node that has a backup anew, and answers their lines.
fn rebuild_all<S: Storage>(alloc: Global, store: &mut S, layout: &Layout) -> Result<String, Fault>
    requires ready { IsReady layout.now (S.state store.old) }
    ensures ok { IfOk result
        (λ lines. HasRebuiltAll layout.now (S.state store.old) (S.state store.new)
        (S.stood store.old) (S.stood store.new) (string_bytes lines)) }
    ensures err { IfErr result
        (λ fault. Ends (rose_of_store (S.state store.old).faults (S.state store.new).faults)
        (IsMadeBy (S.state store.old) (S.state store.new) (S.stood store.old) (S.stood store.new))
        (nodes_plan layout.now (S.state store.old).content) (Err (stop_of fault))) }
    ensures later { (S.state store.old).faults ≤ (S.state store.new).faults }
{
    let nodes = match nodes_in(alloc, store, layout) {
        Ok(nodes) => nodes,
        Err(ListError::Store) => return Err(Fault::Storage),
        Err(ListError::Memory) => return Err(Fault::Memory),
    };
    rebuild_each(alloc, store, layout, nodes.as_slice())
}

// Prints the lines.
fn print_lines<O: Sink>(out: &mut O, lines: &str) -> Result<(), Fault>
    ensures step { Steps {T = Unit {0}}
        (rose_of_output (O.state out.old).faults (O.state out.new).faults) Passed (on Output)
        (seen (λ x. x) stop_of result) }
    ensures ok { OnOk result
        (Wrote lines.now (O.state out.old).taken (O.state out.new).taken) }
    ensures err { OnErr result
        (WrotePart lines.now (O.state out.old).taken (O.state out.new).taken) }
    ensures later { (O.state out.old).faults ≤ (O.state out.new).faults }
{
    match write_whole(out, lines.as_bytes()) {
        Ok(()) => Ok(()),
        Err(SinkFailed) => Err(Fault::Output),
    }
}

/// Makes the index of each node that has a backup anew, and prints a line for each. The nodes that
/// have snapshots are asked nothing: the clauses hold of whatever they are.
pub(crate) fn build_index<F: Files, S: Storage, O: Sink>(
    alloc: Global,
    request: &Request,
    files: &mut F,
    store: &mut S,
    out: &mut O,
) -> Result<(), Fault>
    requires asks { (asked_of request.now).action ≡ build_index }
    requires rest { IsAtRest (S.state store.old) }
    ensures ends { (nodes : NodesState) →
        let a = world (F.state files.old) nodes (S.state store.old) (S.stood store.old)
        (O.state out.old) in
        let b = world (F.state files.new) nodes (S.state store.new) (S.stood store.new)
        (O.state out.new) in
        Ends (rose_of a b) says (plan_of (asked_of request.now) a b)
        (seen (λ x. x) stop_of result) }
    ensures later { (nodes : NodesState) →
        IsLater
        (world (F.state files.old) nodes (S.state store.old) (S.stood store.old)
        (O.state out.old))
        (world (F.state files.new) nodes (S.state store.new) (S.stood store.new)
        (O.state out.new)) }
{
    let config = load(alloc, files, request)?;
    let (base, bucket) = (config.base.as_str(), config.bucket.as_str());
    match store.open(alloc, base, bucket, &config.layout) {
        Ok(()) => {}
        Err(Denied::Failed) => return Err(Fault::Storage),
        Err(Denied::Memory) => return Err(Fault::Memory),
    }
    match rebuild_all(alloc, store, &config.layout) {
        Ok(lines) => print_lines(out, lines.as_str()),
        Err(fault) => Err(fault),
    }
}
