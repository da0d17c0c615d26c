// The exit statuses.
ghost use Rattle.std.specs.Prelude.{◌≡◌};
ghost use Rattle.med_commands.specs.Status.{code};

/// How the program ends. The number of each is its exit status.
#[derive(Clone, Copy, Debug, PartialEq, Eq)]
pub enum Status {
    /// 0: the work is done, and its text was written whole.
    Done,
    /// 2: the words spell no request, or one whose command isn't built.
    Usage,
    /// 3: there is no config file, or it gives no configuration.
    Config,
    /// 5: an object lies under the folder of the backup's name.
    Taken,
    /// 7: the count of faults of the files, the nodes or a snapshot rose.
    ReadFault,
    /// 8: the storage's count of faults rose.
    StorageFault,
    /// 10: the count of faults of the standard output rose; the work is done.
    WriteFault,
    /// 11: the snapshot has no key, or a key with a part that is no component.
    BadSnapshot,
    /// 12: the snapshot's token map can't be read, or lacks the node.
    BadRing,
    /// 13: a manifest doesn't read, and nothing of its node changed.
    BadManifest,
    /// 15: a backup of the name is being made.
    Running,
    /// 20: there was no memory.
    Memory,
}

impl Status {
    /// The number that the program ends with.
    pub fn code(self) -> u8
        ensures { result ≡ code self }
    {
        match self {
            Status::Done => 0,
            Status::Usage => 2,
            Status::Config => 3,
            Status::Taken => 5,
            Status::ReadFault => 7,
            Status::StorageFault => 8,
            Status::WriteFault => 10,
            Status::BadSnapshot => 11,
            Status::BadRing => 12,
            Status::BadManifest => 13,
            Status::Running => 15,
            Status::Memory => 20,
        }
    }
}
