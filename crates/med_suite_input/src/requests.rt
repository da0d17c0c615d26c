// What command lines ask for, by the rules of docs/COMMANDS.md.
use crate::words::words_of;
use med_base::decimal_in;
use med_outside::Mode;
use med_words::{Command, Request, read_words};
use std::alloc::Global;

fn mode_text(mode: Mode) -> &'static str {
    match mode {
        Mode::Full => "full",
        Mode::Differential => "differential",
    }
}

fn flag_text(flag: bool) -> &'static str {
    if flag { "yes" } else { "no" }
}

fn is_number(cell: &str, number: u32) -> bool {
    decimal_in(cell, 4, 9999) == Some(number)
}

fn are_two(cells: &str, first: &str, second: &str) -> bool {
    match cells.split_once('|') {
        Some((left, right)) => left == first && right == second,
        None => false,
    }
}

// Whether the cells are a name, a mode and a number of workers.
fn are_cluster_cells(cells: &str, name: &str, mode: &str, workers: u32) -> bool {
    match cells.split_once('|') {
        Some((first, rest)) => match rest.split_once('|') {
            Some((second, third)) => first == name && second == mode && is_number(third, workers),
            None => false,
        },
        None => false,
    }
}

// Whether a command has these fields, in the order of their declaration.
fn has_fields(command: &Command, cells: &str) -> bool {
    match command {
        Command::Backup { name, mode } => are_two(cells, name.as_str(), mode_text(*mode)),
        Command::BackupCluster {
            name,
            mode,
            workers,
        } => are_cluster_cells(cells, name.as_str(), mode_text(*mode), *workers),
        Command::DeleteBackup { name, all_nodes } => {
            are_two(cells, name.as_str(), flag_text(*all_nodes))
        }
        Command::Download { name, destination } => {
            are_two(cells, name.as_str(), destination.as_str())
        }
        Command::RestoreCluster { name, host_list } => {
            are_two(cells, name.as_str(), host_list.as_str())
        }
        Command::FetchTokenmap { name }
        | Command::RestoreNode { name }
        | Command::Status { name }
        | Command::Verify { name } => name.as_str() == cells,
        Command::ListBackups { show_all } => flag_text(*show_all) == cells,
        Command::Jobs { file } => file.as_str() == cells,
        Command::Rehearse { rounds } => is_number(cells, *rounds),
        _ => cells.is_empty(),
    }
}

// Whether a line asks for a command as its row says: WORDS => WORD, and the fields behind a bar.
fn is_asked(alloc: Global, row: &str) -> Option<bool> {
    let (line, expected) = row.split_once(" => ")?;
    let (word, cells) = expected.split_once('|').unwrap_or((expected, ""));
    let words = words_of(alloc, line).ok()?;
    let request = read_words(alloc, words.as_slice()).ok()?;
    Some(request.command.word() == word && has_fields(&request.command, cells))
}

// The first row that isn't asked so.
fn first_wrong<'a>(alloc: Global, table: &'a str) -> Option<&'a str> {
    for row in table.split('\n') {
        if is_asked(alloc, row) != Some(true) {
            return Some(row);
        }
    }
    None
}

const COMMANDS: &str = "\
backup|--backup-name|b1 => backup|b1|differential
backup|--mode=full|--backup-name=b1 => backup|b1|full
backup|--backup-name|b1|--mode|differential => backup|b1|differential
backup-cluster|--backup-name=b1 => backup-cluster|b1|differential|1
backup-cluster|--workers|0064|--backup-name|b1|--mode|full => backup-cluster|b1|full|64
build-index => build-index
delete-backup|--backup-name|b1 => delete-backup|b1|no
delete-backup|--all-nodes|--backup-name|b1 => delete-backup|b1|yes
download|--backup-name|b1|--download-destination=/d=e => download|b1|/d=e
fetch-tokenmap|--backup-name|b1 => fetch-tokenmap|b1
get-last-complete-cluster-backup => get-last-complete-cluster-backup
list-backups => list-backups|no
list-backups|--show-all => list-backups|yes
purge => purge
purge-decommissioned => purge-decommissioned
report-last-backup => report-last-backup
restore-cluster|--host-list|hosts|--backup-name|b1 => restore-cluster|b1|hosts
restore-node|--backup-name|b1 => restore-node|b1
status|--backup-name|b1 => status|b1
verify|--backup-name|b1 => verify|b1
jobs|--jobs-file|j.csv => jobs|j.csv
rehearse|--rounds|1000 => rehearse|1000";

// A value after `=` is everything after the first `=`; a value may be a command word.
const VALUES: &str = "\
status|--backup-name==x => status|=x
status|--backup-name= x => status| x
status|--backup-name=--x => status|--x
status|--backup-name|status => status|status
--fqdn|purge|status|--backup-name|a b => status|a b";

#[test]
fn each_command_is_read_with_its_options(rt: HostRuntime) {
    assert_eq!(rt; first_wrong(rt.alloc(), COMMANDS), None);
    assert_eq!(rt; first_wrong(rt.alloc(), VALUES), None);
}

// Whether a text is that of a cell, or none for `-`.
fn is_text(text: &Option<String>, cell: &str) -> bool {
    match text {
        Some(text) => text.as_str() == cell,
        None => cell == "-",
    }
}

// Whether a request has these main options: FILE|BUCKET|PREFIX|FQDN.
fn has_main_options(request: &Request, cells: &str) -> Option<bool> {
    let (file, rest) = cells.split_once('|')?;
    let (bucket, rest) = rest.split_once('|')?;
    let (prefix, fqdn) = rest.split_once('|')?;
    let over = &request.over;
    Some(
        request.config_file.as_str() == file
            && is_text(&over.bucket, bucket)
            && is_text(&over.prefix, prefix)
            && is_text(&over.fqdn, fqdn),
    )
}

// Whether main options stand in as their row says: WORDS => FILE|BUCKET|PREFIX|FQDN.
fn stand_in(alloc: Global, row: &str) -> Option<bool> {
    let (line, cells) = row.split_once(" => ")?;
    let words = words_of(alloc, line).ok()?;
    let request = read_words(alloc, words.as_slice()).ok()?;
    has_main_options(&request, cells)
}

// The first row that doesn't stand in so.
fn first_not_in<'a>(alloc: Global, table: &'a str) -> Option<&'a str> {
    for row in table.split('\n') {
        if stand_in(alloc, row) != Some(true) {
            return Some(row);
        }
    }
    None
}

const MAIN_OPTIONS: &str = "\
purge => /etc/medusa/medusa.ini|-|-|-
--config-file|m.ini|purge => m.ini|-|-|-
--prefix=a/b|purge => /etc/medusa/medusa.ini|-|a/b|-
--fqdn=n2|--prefix|p|--bucket-name|k2|--config-file=m.ini|purge => m.ini|k2|p|n2";

#[test]
fn the_main_options_stand_in(rt: HostRuntime) {
    assert_eq!(rt; first_not_in(rt.alloc(), MAIN_OPTIONS), None);
}
