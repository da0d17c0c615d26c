// What takes the printed bytes.
ghost use Rattle.std.specs.Prelude.{◌≡◌, ◌≤◌, ◌<◌, Ok, IfOk, OnErr, length};
ghost use Rattle.med_outside.specs.Causes.{RoseOrFull};
ghost use Rattle.med_outside.specs.Sink.{Takes};
ghost use Rattle.med_outside.specs.World.{SinkState};

/// The sink's count of faults rose.
#[derive(Clone, Copy, Debug, PartialEq, Eq)]
pub struct SinkFailed;

pub trait Sink {
    /// The bytes that it has taken, where it tells, and how often a write failed.
    ghost state: { Self → SinkState };

    /// Takes some first bytes of the piece, and answers how many. After `SinkFailed` it has taken
    /// none. A write that takes nothing of a piece that isn't empty raises the count too. It takes
    /// no memory.
    fn write(&mut self, bytes: &[u8]) -> Result<usize, SinkFailed>
        ensures bound { IfOk result (λ n. n ≤ length bytes.now) }
        ensures ok { IfOk result
            (λ n. Takes n bytes.now (state self.old).taken (state self.new).taken) }
        ensures err { OnErr result ((state self.new).taken ≡ (state self.old).taken) }
        ensures later { (state self.old).faults ≤ (state self.new).faults }
        ensures failed { OnErr result (RoseOrFull (state self.old).faults (state self.new).faults) }
        ensures stuck { result ≡ Ok 0 → 0 < length bytes.now
            → RoseOrFull (state self.old).faults (state self.new).faults };
}
