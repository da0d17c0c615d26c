// The faults of a command, and their texts, which take no memory to print.
ghost use Rattle.std.specs.Prelude.{◌≡◌, ◌≤◌, OnErr};
ghost use Rattle.med_outside.specs.Causes.{RoseOrFull};
ghost use Rattle.med_commands.specs.Fault.{fault_text, fault_for, fault_of_rebuild, status_of_fault};
ghost use Rattle.med_commands.specs.Texts.{usage_text, taken_text, no_snapshot_text, bad_file_text, ring_why_text};
ghost use Rattle.med_commands.specs.Printed.{Prints, Complains, complaint};
ghost use Rattle.med_commands.specs.declared.fault.Fault.TheVariants.{Config};
ghost use Rattle.med_ring.specs.declared.error.RingWhy.TheVariants.{TokenTwice};

use crate::Status;
use crate::load::LoadError;
use crate::print::{say, say_named, write_pieces};
use crate::print_config::say_config;
use itoa::Buffer;
use med_backup::BackupError;
use med_base::{BackupName, Fqdn, ObjPath};
use med_index::IndexError;
use med_outside::{CopyFault, Sink, SinkFailed};
use med_ring::RingWhy;
use med_words::Usage;

/// Why a command ended without its work or its text.
#[derive(Drop)]
pub(crate) enum Fault {
    Usage(Usage),
    NotBuilt { word: &'static str },
    /// There is no configuration.
    Config(LoadError),
    Taken { name: BackupName, path: ObjPath },
    NoSnapshot { name: BackupName },
    BadFileName { at: usize },
    /// The snapshot's token map can't be read.
    BadRing(RingWhy),
    /// The snapshot's token map has no host of the node's name.
    NotInRing { host: Fqdn },
    Running { name: BackupName },
    BadManifest { path: ObjPath },
    /// The count of faults of the nodes or of a snapshot rose.
    Nodes,
    /// The storage's count of faults rose.
    Storage,
    /// The count of faults of the standard output rose.
    Output,
    Memory,
}

/// The fault that a refusal is for a backup of this name.
pub(crate) fn fault_of(name: BackupName, error: BackupError) -> Fault
    ensures { result ≡ fault_for name error }
{
    match error {
        BackupError::NoSnapshot => Fault::NoSnapshot { name },
        BackupError::BadFileName { at } => Fault::BadFileName { at },
        BackupError::BadRing(why) => Fault::BadRing(why),
        BackupError::NotInRing { host } => Fault::NotInRing { host },
        BackupError::Running { name } => Fault::Running { name },
        BackupError::Taken { path } => Fault::Taken { name, path },
        BackupError::Fault(CopyFault::Snap) => Fault::Nodes,
        BackupError::Fault(CopyFault::Store) => Fault::Storage,
        BackupError::Fault(CopyFault::Memory) => Fault::Memory,
    }
}

/// The fault that an error of a rebuild of an index is.
pub(crate) fn fault_of_rebuild(error: IndexError) -> Fault
    ensures { result ≡ fault_of_rebuild error }
{
    match error {
        IndexError::BadManifest { path, why: _ } => Fault::BadManifest { path },
        IndexError::Store => Fault::Storage,
        IndexError::Memory => Fault::Memory,
    }
}

impl From<LoadError> for Fault {
    ghost from_gives = { λ error fault. fault ≡ Config error };

    fn from(error: LoadError) -> Self {
        Fault::Config(error)
    }
}

impl Fault {
    /// The status that the program ends with after this fault.
    pub(crate) fn status(&self) -> Status
        ensures { result ≡ status_of_fault self.now }
    {
        match self {
            Fault::Usage(_) | Fault::NotBuilt { word: _ } => Status::Usage,
            Fault::Config(error) => error.status(),
            Fault::Taken { name: _, path: _ } => Status::Taken,
            Fault::NoSnapshot { name: _ } | Fault::BadFileName { at: _ } => Status::BadSnapshot,
            Fault::BadRing(_) | Fault::NotInRing { host: _ } => Status::BadRing,
            Fault::Running { name: _ } => Status::Running,
            Fault::BadManifest { path: _ } => Status::BadManifest,
            Fault::Nodes => Status::ReadFault,
            Fault::Storage => Status::StorageFault,
            Fault::Output => Status::WriteFault,
            Fault::Memory => Status::Memory,
        }
    }
}

fn say_usage<E: Sink>(err: &mut E, usage: &Usage) -> Result<(), SinkFailed>
    ensures text { Prints (complaint (usage_text usage.now))
        (E.state err.old).taken (E.state err.new).taken result }
    ensures later { (E.state err.old).faults ≤ (E.state err.new).faults }
    ensures failed { OnErr result (RoseOrFull (E.state err.old).faults (E.state err.new).faults) }
{
    match usage {
        Usage::Line => say(err, b"usage: medusa [options] command [options]"),
        Usage::Value { option } => say_named(err, b"bad value for ", option.as_bytes()),
    }
}

fn say_taken<E: Sink>(err: &mut E, name: &str, path: &str) -> Result<(), SinkFailed>
    ensures text { Prints (complaint (taken_text name.now path.now)) (E.state err.old).taken
        (E.state err.new).taken result }
    ensures later { (E.state err.old).faults ≤ (E.state err.new).faults }
    ensures failed { OnErr result (RoseOrFull (E.state err.old).faults (E.state err.new).faults) }
{
    write_pieces(
        err,
        &[
            b"medusa: name ".as_slice(),
            name.as_bytes(),
            b" is taken by ".as_slice(),
            path.as_bytes(),
            b"\n".as_slice(),
        ],
    )
}

fn say_no_snapshot<E: Sink>(err: &mut E, name: &str) -> Result<(), SinkFailed>
    ensures text { Prints (complaint (no_snapshot_text name.now)) (E.state err.old).taken
        (E.state err.new).taken result }
    ensures later { (E.state err.old).faults ≤ (E.state err.new).faults }
    ensures failed { OnErr result (RoseOrFull (E.state err.old).faults (E.state err.new).faults) }
{
    write_pieces(
        err,
        &[
            b"medusa: no snapshot medusa-".as_slice(),
            name.as_bytes(),
            b"\n".as_slice(),
        ],
    )
}

fn say_bad_file<E: Sink>(err: &mut E, at: usize) -> Result<(), SinkFailed>
    ensures text { Prints (complaint (bad_file_text at))
        (E.state err.old).taken (E.state err.new).taken result }
    ensures later { (E.state err.old).faults ≤ (E.state err.new).faults }
    ensures failed { OnErr result (RoseOrFull (E.state err.old).faults (E.state err.new).faults) }
{
    let mut buffer = Buffer::new();
    let place = buffer.format(at as u64);
    write_pieces(
        err,
        &[
            b"medusa: bad file name at ".as_slice(),
            place.as_bytes(),
            b"\n".as_slice(),
        ],
    )
}

fn say_token_twice<E: Sink>(err: &mut E, token: i64) -> Result<(), SinkFailed>
    ensures text { Prints (complaint (ring_why_text (TokenTwice token)))
        (E.state err.old).taken (E.state err.new).taken result }
    ensures later { (E.state err.old).faults ≤ (E.state err.new).faults }
    ensures failed { OnErr result (RoseOrFull (E.state err.old).faults (E.state err.new).faults) }
{
    let mut buffer = Buffer::new();
    let number = buffer.format(token);
    write_pieces(
        err,
        &[
            b"medusa: ring: token ".as_slice(),
            number.as_bytes(),
            b" twice".as_slice(),
            b"\n".as_slice(),
        ],
    )
}

fn say_ring<E: Sink>(err: &mut E, why: &RingWhy) -> Result<(), SinkFailed>
    ensures text { Prints (complaint (ring_why_text why.now))
        (E.state err.old).taken (E.state err.new).taken result }
    ensures later { (E.state err.old).faults ≤ (E.state err.new).faults }
    ensures failed { OnErr result (RoseOrFull (E.state err.old).faults (E.state err.new).faults) }
{
    match why {
        RingWhy::NotJson => say(err, b"ring: not json"),
        RingWhy::NotRing { host } => say_named(err, b"ring: bad host ", host.as_bytes()),
        RingWhy::TokenRange { host } => {
            say_named(err, b"ring: token out of range of ", host.as_bytes())
        }
        RingWhy::TokenTwice { token } => say_token_twice(err, *token),
    }
}

fn say_fault<E: Sink>(err: &mut E, fault: &Fault) -> Result<(), SinkFailed>
    ensures text { Prints (complaint (fault_text fault.now))
        (E.state err.old).taken (E.state err.new).taken result }
    ensures later { (E.state err.old).faults ≤ (E.state err.new).faults }
    ensures failed { OnErr result (RoseOrFull (E.state err.old).faults (E.state err.new).faults) }
{
    match fault {
        Fault::Usage(usage) => say_usage(err, usage),
        Fault::NotBuilt { word } => say_named(err, b"not built ", word.as_bytes()),
        Fault::Config(error) => say_config(err, error),
        Fault::Taken { name, path } => say_taken(err, name.as_str(), path.as_str()),
        Fault::NoSnapshot { name } => say_no_snapshot(err, name.as_str()),
        Fault::BadFileName { at } => say_bad_file(err, *at),
        Fault::BadRing(why) => say_ring(err, why),
        Fault::NotInRing { host } => say_named(err, b"ring: no host ", host.as_str().as_bytes()),
        Fault::Running { name } => say_named(err, b"running ", name.as_str().as_bytes()),
        Fault::BadManifest { path } => say_named(err, b"bad manifest ", path.as_str().as_bytes()),
        Fault::Nodes => say(err, b"read fault"),
        Fault::Storage => say(err, b"storage fault"),
        Fault::Output => say(err, b"write fault"),
        Fault::Memory => say(err, b"out of memory"),
    }
}

/// Tells the fault on `err` in one line, and answers its status. A failed write leaves the status.
pub(crate) fn tell<E: Sink>(err: &mut E, fault: &Fault) -> Status
    ensures status { result ≡ status_of_fault fault.now }
    ensures text { Complains (fault_text fault.now) (E.state err.old).taken (E.state err.new).taken
        (E.state err.old).faults (E.state err.new).faults }
    ensures later { (E.state err.old).faults ≤ (E.state err.new).faults }
{
    match say_fault(err, fault) {
        Ok(()) | Err(SinkFailed) => {}
    }
    fault.status()
}
