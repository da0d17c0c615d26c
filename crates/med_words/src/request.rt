// What the words ask for.
ghost use Rattle.std.specs.Prelude.{◌≡◌};
ghost use Rattle.med_words.specs.Tables.{word_of};
ghost use Rattle.med_words.specs.Views.{action_of};
ghost use Rattle.med_words.specs.declared.request.WordsError.TheVariants.{Memory};

use med_base::{BackupName, NoMemory};
use med_ini::Overrides;
use med_outside::Mode;

/// What is wrong with the words.
#[derive(Clone, Copy, Debug)]
pub enum Usage {
    /// They are no line of the grammar.
    Line,
    /// They are a line, and this option, named with its dashes, has a value that it doesn't take.
    Value { option: &'static str },
}

/// Why the words ask for nothing.
#[derive(Clone, Copy, Debug)]
pub enum WordsError {
    /// The words ask for nothing.
    Usage(Usage),
    /// There was no memory for the request.
    Memory,
}

impl From<NoMemory> for WordsError {
    ghost from_gives = { λ _ e. e ≡ Memory };

    fn from(_: NoMemory) -> Self {
        WordsError::Memory
    }
}

/// What the words ask for: which file of options is read, what stands in for its options, and
/// what is done.
#[derive(Drop)]
pub struct Request {
    pub config_file: String,
    pub over: Overrides,
    pub command: Command,
}

/// What a command word and its options ask for.
#[derive(Drop)]
pub enum Command {
    Backup {
        name: BackupName,
        mode: Mode,
    },
    BackupCluster {
        name: BackupName,
        mode: Mode,
        workers: u32,
    },
    BuildIndex,
    DeleteBackup {
        name: BackupName,
        all_nodes: bool,
    },
    Download {
        name: BackupName,
        destination: String,
    },
    FetchTokenmap {
        name: BackupName,
    },
    LastComplete,
    ListBackups {
        show_all: bool,
    },
    Purge,
    PurgeDecommissioned,
    ReportLast,
    RestoreCluster {
        name: BackupName,
        host_list: String,
    },
    RestoreNode {
        name: BackupName,
    },
    Status {
        name: BackupName,
    },
    Verify {
        name: BackupName,
    },
    Jobs {
        file: String,
    },
    Rehearse {
        rounds: u32,
    },
}

impl Command {
    /// The command word, as `purge`.
    pub fn word(&self) -> &'static str
        ensures value { result.now ≡ word_of (action_of self.now) }
    {
        match self {
            Command::Backup { .. } => "backup",
            Command::BackupCluster { .. } => "backup-cluster",
            Command::BuildIndex => "build-index",
            Command::DeleteBackup { .. } => "delete-backup",
            Command::Download { .. } => "download",
            Command::FetchTokenmap { .. } => "fetch-tokenmap",
            Command::LastComplete => "get-last-complete-cluster-backup",
            Command::ListBackups { .. } => "list-backups",
            Command::Purge => "purge",
            Command::PurgeDecommissioned => "purge-decommissioned",
            Command::ReportLast => "report-last-backup",
            Command::RestoreCluster { .. } => "restore-cluster",
            Command::RestoreNode { .. } => "restore-node",
            Command::Status { .. } => "status",
            Command::Verify { .. } => "verify",
            Command::Jobs { .. } => "jobs",
            Command::Rehearse { .. } => "rehearse",
        }
    }
}
