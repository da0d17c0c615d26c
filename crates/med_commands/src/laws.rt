// What is told decides how a command ends.
ghost use Rattle.med_outside.specs.World.{world};
ghost use Rattle.med_commands.specs.Decided.{IsDecided};

use med_outside::{Files, Nodes, Sink, Storage};

/// A law: what is told before a command decides how it ends. Words, the config file, the snapshot
/// and the content of the storage lead to one end, whatever stands on the two sides of the command:
/// files, a storage, nodes and an output before it, and the same after it.
pub fn what_is_told_decides<F: Files, S: Storage, N: Nodes, O: Sink>()
    ghost sides: { (F × S × N × O) × (F × S × N × O) }
    ensures exact { IsDecided
        (world (F.state sides.0.0) (N.state sides.0.2) (S.state sides.0.1) (S.stood sides.0.1)
        (O.state sides.0.3))
        (world (F.state sides.1.0) (N.state sides.1.2) (S.state sides.1.1) (S.stood sides.1.1)
        (O.state sides.1.3)) }
{}
