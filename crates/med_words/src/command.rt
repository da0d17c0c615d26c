// From a line and the values of its options to a command.
ghost use Rattle.std.specs.Prelude.{◌≡◌, Some, None, IfOk, option_map, List};
ghost use Rattle.med_words.specs.Reads.{Reads};
ghost use Rattle.med_words.specs.Grammar.{Text};
ghost use Rattle.med_words.specs.Settings.{value_of};
ghost use Rattle.med_words.specs.Settings as setting;
ghost use Rattle.med_words.specs.Tables.{action_for};
ghost use Rattle.med_words.specs.Views.{own_view, said_view, action_of, HasLine};

use crate::line::Line;
use crate::read::copied;
use crate::request::Command;
use crate::values::Values;
use med_base::{BackupName, NoMemory};
use med_outside::Mode;
use std::alloc::Global;

/// The command of a line that names a backup, or none where an option that it needs has no value.
#[tactic(auto, using(crate::proofs::ActionFor::at_word))]
fn with_name(
    alloc: Global,
    line: &Line<'_>,
    name: BackupName,
    mode: Mode,
    workers: u32,
) -> Result<Option<Command>, NoMemory>
    requires line { (words : List Text) × HasLine words line.now }
    requires name { value_of setting.backup_name (said_view line.now.own) ≡ Some name }
    requires mode { value_of setting.mode (said_view line.now.own) ≡ Some mode }
    requires workers { value_of setting.workers (said_view line.now.own) ≡ Some workers }
    ensures { IfOk result (λ c. action_for line.now.word.now (said_view line.now.own)
        ≡ option_map action_of c) }
{
    let own = line.own;
    Ok(match line.word {
        "backup" => Some(Command::Backup { name, mode }),
        "backup-cluster" => Some(Command::BackupCluster {
            name,
            mode,
            workers,
        }),
        "delete-backup" => {
            let all_nodes = own.all_nodes;
            Some(Command::DeleteBackup { name, all_nodes })
        }
        "download" => copied(alloc, own.destination)?.map(|destination| Command::Download {
            name,
            destination,
        }),
        "fetch-tokenmap" => Some(Command::FetchTokenmap { name }),
        "restore-cluster" => copied(alloc, own.host_list)?.map(|host_list| Command::RestoreCluster {
            name,
            host_list,
        }),
        "restore-node" => Some(Command::RestoreNode { name }),
        "status" => Some(Command::Status { name }),
        "verify" => Some(Command::Verify { name }),
        _ => unreachable!(),
    })
}

/// The command of a line that names no backup, or none where an option that it needs has no value.
#[tactic(auto, using(crate::proofs::ActionFor::at_word))]
fn without_name(
    alloc: Global,
    line: &Line<'_>,
    rounds: Option<u32>,
) -> Result<Option<Command>, NoMemory>
    requires line { (words : List Text) × HasLine words line.now }
    requires name { (own_view line.now.own).name ≡ None }
    requires rounds { value_of setting.rounds (said_view line.now.own) ≡ rounds }
    ensures { IfOk result (λ c. action_for line.now.word.now (said_view line.now.own)
        ≡ option_map action_of c) }
{
    Ok(match line.word {
        "build-index" => Some(Command::BuildIndex),
        "get-last-complete-cluster-backup" => Some(Command::LastComplete),
        "list-backups" => {
            let show_all = line.own.show_all;
            Some(Command::ListBackups { show_all })
        }
        "purge" => Some(Command::Purge),
        "purge-decommissioned" => Some(Command::PurgeDecommissioned),
        "report-last-backup" => Some(Command::ReportLast),
        "jobs" => copied(alloc, line.own.jobs_file)?.map(|file| Command::Jobs { file }),
        "rehearse" => match rounds {
            Some(rounds) => Some(Command::Rehearse { rounds }),
            None => None,
        },
        _ => unreachable!(),
    })
}

/// The command of a line whose options have these values, or none where one is missing.
pub(crate) fn command_of(
    alloc: Global,
    line: &Line<'_>,
    values: Values,
) -> Result<Option<Command>, NoMemory>
    requires line { (words : List Text) × HasLine words line.now }
    requires values { Reads (said_view line.now.own) values }
    ensures { IfOk result (λ c. action_for line.now.word.now (said_view line.now.own)
        ≡ option_map action_of c) }
{
    let Values {
        name,
        mode,
        workers,
        rounds,
    } = values;
    match name {
        Some(name) => with_name(alloc, line, name, mode, workers),
        None => without_name(alloc, line, rounds),
    }
}
