// Nodes in memory, with the snapshots that were added to them.
ghost use Rattle.std.specs.Prelude.{◌≡◌, ◌≤◌, [], Some, None, IfOk, OnOk, OnErr};
ghost use Rattle.med_outside.specs.Causes.{HasCause};
ghost use Rattle.med_outside.specs.Counts.{after_open, tagged, with_closed};
ghost use Rattle.med_outside.specs.World.{just_opened};
ghost use Rattle.med_mem.specs.Failing.{FailsAsTold, unmade, with_step, after_call, with_faults};
ghost use Rattle.med_mem.specs.Snaps.{snapshot_of, snapshot_with, or_nothing, HasAdded, Keeps, KeepsOthers, is_for, first_for, given, given_as, given_for, shown, snap_state, nodes_state, with_opens, with_snap_step};

use crate::failing::FailingCalls;
use crate::indexed::Indexed;
use crate::snapshot::{MemOpened, MemSnap, copy_snap};
use med_base::{Fqdn, NoMemory};
use med_outside::{Denied, Nodes, OpenSnapshots};
use std::alloc::Global;
use std::marker::Model;

/// A snapshot, and what it was added for.
#[derive(Drop)]
pub(crate) struct Added {
    root: String,
    node: String,
    tag: String,
    snap: MemSnap,
}

/// Nodes in memory. A call of `open` fails exactly where `fail_at` says so.
#[derive(Drop)]
pub struct MemNodes {
    snaps: Vec<Added>,
    calls: FailingCalls,
    snap_steps: Vec<u64>,
    opened: OpenSnapshots,
}

impl Model for MemNodes {
    ghost use Rattle.med_mem.specs.Snaps.{Known, given};

    ghost Value = { Known };

    ghost view = { λ m. record {
      given = given m.snaps.items;
      calls = m.calls;
      snap_steps = m.snap_steps.items;
      counts = m.opened;
    } };
}

impl MemNodes {
    /// Nodes without a snapshot. It takes no memory.
    pub fn new(alloc: Global) -> MemNodes
        ensures { result ≡ record {
          given = [];
          calls = unmade [];
          snap_steps = [];
          counts = record { opened = 0; still_open = []; last = tagged [] [] [] };
        } }
    {
        MemNodes {
            snaps: Vec::new(alloc),
            calls: FailingCalls::none(alloc),
            snap_steps: Vec::new(alloc),
            opened: OpenSnapshots::none(alloc),
        }
    }

    /// Adds the snapshot of a node with a tag under a root. The first that was added for the three
    /// counts.
    pub fn add(
        &mut self,
        alloc: Global,
        root: &str,
        node: &str,
        tag: &str,
        snap: MemSnap,
    ) -> Result<(), NoMemory>
        ensures here { OnOk result
            (HasAdded root.now node.now tag.now (snapshot_of snap) self.old self.new) }
        ensures before { Keeps self.old self.new }
        ensures elsewhere { KeepsOthers root.now node.now tag.now self.old self.new }
        ensures err { OnErr result (self.new ≡ self.old) }
        ensures calls { self.new.calls ≡ self.old.calls }
        ensures steps { self.new.snap_steps ≡ self.old.snap_steps }
        ensures counts { self.new.counts ≡ self.old.counts }
    {
        let added = new_added(alloc, root, node, tag, snap)?;
        self.snaps.push(added)?;
        Ok(())
    }

    /// Lets the call of that number fail, counted from 1 over all calls of `open`. Behind the last
    /// value of a number no call fails.
    pub fn fail_at(&mut self, step: u64) -> Result<(), NoMemory>
        ensures ok { OnOk result (self.new ≡ with_opens (with_step step self.old.calls) self.old) }
        ensures err { OnErr result (self.new ≡ self.old) }
    {
        self.calls.fail_at(step)
    }

    /// Lets each snapshot that is opened from now on fail at its own call of that number, counted
    /// from 1 over all its calls.
    pub fn fail_snap_at(&mut self, step: u64) -> Result<(), NoMemory>
        ensures ok { OnOk result (self.new ≡ with_snap_step step self.old) }
        ensures err { OnErr result (self.new ≡ self.old) }
    {
        self.snap_steps.push(step)?;
        Ok(())
    }
}

fn new_added(
    alloc: Global,
    root: &str,
    node: &str,
    tag: &str,
    snap: MemSnap,
) -> Result<Added, NoMemory>
    ensures { IfOk result (λ added. given_as added ≡ given_for root.now node.now tag.now snap) }
{
    let root = String::from_str(alloc, root)?;
    let node = String::from_str(alloc, node)?;
    let tag = String::from_str(alloc, tag)?;
    Ok(Added {
        root,
        node,
        tag,
        snap,
    })
}

fn is_added_for(added: &Added, root: &str, node: &str, tag: &str) -> bool
    ensures { result ≡ is_for root.now node.now tag.now (given_as added.now) }
{
    added.root.as_str() == root && added.node.as_str() == node && added.tag.as_str() == tag
}

// The first that was added for the three.
fn find_added<'a>(snaps: &'a [Added], root: &str, node: &str, tag: &str) -> Option<&'a MemSnap>
    ensures { first_for root.now node.now tag.now (given snaps.now) ≡ shown result }
{
    for added in snaps {
        if is_added_for(added, root, node, tag) {
            return Some(&added.snap);
        }
    }
    None
}

// A copy of the first that was added for the three, and an empty one where none was.
fn copy_added(
    alloc: Global,
    snaps: &[Added],
    root: &str,
    node: &str,
    tag: &str,
) -> Result<Indexed, NoMemory>
    ensures { IfOk result (λ s. snapshot_with s
        ≡ or_nothing (first_for root.now node.now tag.now (given snaps.now))) }
{
    match find_added(snaps, root, node, tag) {
        Some(snap) => Indexed::of(alloc, copy_snap(alloc, snap)?),
        None => Ok(Indexed::nothing(alloc)),
    }
}

impl Nodes for MemNodes {
    ghost use Rattle.med_mem.specs.Snaps.{nodes_state};

    type Snap = MemOpened;

    ghost state = { nodes_state };

    fn open(
        &mut self,
        alloc: Global,
        root: &str,
        node: &Fqdn,
        tag: &str,
    ) -> Result<MemOpened, Denied>
        ensures ok { IfOk result (λ s. snap_state s
            ≡ just_opened (tagged root.now node.now tag.now) (nodes_state self.old).snaps) }
        ensures steps { IfOk result (λ s. s.calls ≡ unmade self.old.snap_steps) }
        ensures failed { FailsAsTold self.old.calls result }
        ensures same { (self.new.given ≡ self.old.given)
            × (self.new.snap_steps ≡ self.old.snap_steps) }
        ensures calls { self.new.calls ≡ after_call self.old.calls }
        ensures counts { self.new.counts
            ≡ after_open result (tagged root.now node.now tag.now) self.old.counts }
        ensures cause { HasCause self.old.calls.faults self.new.calls.faults result }
    {
        if self.calls.next_fails() {
            return Err(Denied::Failed);
        }
        let held = copy_added(alloc, self.snaps.as_slice(), root, node.as_str(), tag)?;
        let calls = FailingCalls::of(alloc, self.snap_steps.as_slice())?;
        let of = self.opened.open(alloc, root, node.as_str(), tag)?;
        Ok(MemOpened::new(held, calls, of))
    }

    fn close(&mut self, snap: MemOpened)
        ensures same { (self.new.given ≡ self.old.given)
            × (self.new.snap_steps ≡ self.old.snap_steps) }
        ensures counts { self.new.counts ≡ with_closed snap.of self.old.counts }
        ensures later { self.old.calls.faults ≤ self.new.calls.faults }
        ensures faults { self.new.calls ≡ with_faults snap.calls.faults self.old.calls }
    {
        self.calls.add_faults(snap.faults());
        self.opened.close(snap.of());
    }
}
