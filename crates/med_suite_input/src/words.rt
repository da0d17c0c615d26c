// Command lines by the rules of docs/COMMANDS.md. A row is a line, its words divided by bars.
use med_base::NoMemory;
use med_words::{Usage, WordsError, one_request, read_words};
use std::alloc::Global;

pub(crate) fn words_of(alloc: Global, row: &str) -> Result<Vec<String>, NoMemory> {
    let mut words = Vec::new(alloc);
    for word in row.split('|') {
        words.push(String::from_str(alloc, word)?)?;
    }
    Ok(words)
}

// How a line ends: `fine`, `no line`, or the option whose value fails.
fn answer_of(alloc: Global, row: &str) -> Option<&'static str> {
    let words = words_of(alloc, row).ok()?;
    match read_words(alloc, words.as_slice()) {
        Ok(_) => Some("fine"),
        Err(WordsError::Usage(Usage::Line)) => Some("no line"),
        Err(WordsError::Usage(Usage::Value { option })) => Some(option),
        Err(WordsError::Memory) => None,
    }
}

// The first line that ends in another way.
fn first_other<'a>(alloc: Global, table: &'a str, expected: &str) -> Option<&'a str> {
    for row in table.split('\n') {
        if answer_of(alloc, row) != Some(expected) {
            return Some(row);
        }
    }
    None
}

// Words that begin no option, and words that are empty; the second row is one empty word.
const BAD_WORDS: &str = "\
--

-
-x
-h
purge|
|purge
purge|--
purge|-x
status|--backup-name|-
status|--backup-name|
status|--backup-name=
--prefix=|purge
--=x|purge";

// No command word, two of them, or one that isn't known.
const BAD_COMMANDS: &str = "\
--fqdn|n1
purge|purge
purge|b1
backups
Purge
help
--help
purge|--help
--version
help|purge";

// A required option is missing.
const MISSING_OPTIONS: &str = "\
backup
backup|--mode|full
backup-cluster|--workers|2
delete-backup|--all-nodes
download|--backup-name|b1
download|--download-destination|d
fetch-tokenmap
restore-cluster|--backup-name|b1
restore-cluster|--host-list|h
restore-node
status
verify
jobs
rehearse";

// An option stands twice.
const REPEATED_OPTIONS: &str = "\
status|--backup-name|b1|--backup-name|b1
status|--backup-name|b1|--backup-name=b2
list-backups|--show-all|--show-all
--fqdn|a|--fqdn|b|purge";

// An option of another level or another command.
const FOREIGN_OPTIONS: &str = "\
purge|--fqdn|n1
--backup-name|b1|status
status|--backup-name|b1|--mode|full
purge|--backup-name|b1
backup|--backup-name|b1|--workers|2
status|--backup-name|b1|--show-all";

// An abbreviation, a value of a flag, a flag without its value, a value with hyphens.
const BAD_SPELLINGS: &str = "\
status|--backup|b1
status|--Backup-name|b1
delete-backup|--backup-name|b1|--all-nodes=true
delete-backup|--backup-name|b1|--all-nodes|true
status|--backup-name
status|--backup-name|--x
rehearse|--rounds|-5
--config-file|--prefix|purge";

#[test]
fn words_that_are_no_line(rt: HostRuntime) {
    for table in [
        BAD_WORDS,
        BAD_COMMANDS,
        MISSING_OPTIONS,
        REPEATED_OPTIONS,
        FOREIGN_OPTIONS,
        BAD_SPELLINGS,
    ] {
        assert_eq!(rt; first_other(rt.alloc(), table, "no line"), None);
    }
}

#[test]
fn no_words_are_no_line(rt: HostRuntime) {
    one_request();
    let is_line = match read_words(rt.alloc(), &[]) {
        Err(WordsError::Usage(Usage::Line)) => true,
        _ => false,
    };
    assert!(rt; is_line);
}

const FINE: &str = "\
backup-cluster|--backup-name|b1|--workers|1
backup-cluster|--backup-name|b1|--workers|64
backup-cluster|--backup-name|b1|--workers|0001
rehearse|--rounds|1
rehearse|--rounds|1000";

const BAD_NAMES: &str = "\
status|--backup-name|data
status|--backup-name|a/b
status|--backup-name=.b
backup|--mode=no|--backup-name|data";

const BAD_MODES: &str = "\
backup|--backup-name|b1|--mode|Full
backup|--mode=no|--backup-name|b1
backup-cluster|--workers|0|--mode|no|--backup-name|b1";

const BAD_WORKERS: &str = "\
backup-cluster|--backup-name|b1|--workers|0
backup-cluster|--backup-name|b1|--workers|65
backup-cluster|--backup-name|b1|--workers|00001
backup-cluster|--backup-name|b1|--workers|+1
backup-cluster|--backup-name|b1|--workers|1x
backup-cluster|--backup-name|b1|--workers|\u{663}";

const BAD_ROUNDS: &str = "\
rehearse|--rounds|0
rehearse|--rounds|1001
rehearse|--rounds=-5";

#[test]
fn the_first_option_whose_value_fails_is_named(rt: HostRuntime) {
    for (table, expected) in [
        (FINE, "fine"),
        (BAD_NAMES, "--backup-name"),
        (BAD_MODES, "--mode"),
        (BAD_WORKERS, "--workers"),
        (BAD_ROUNDS, "--rounds"),
    ] {
        assert_eq!(rt; first_other(rt.alloc(), table, expected), None);
    }
}
