// Words and config files that are refused, and words in place of options.
use crate::said::{
    BACKUP, DONE, INI, PUTS, Scene, is_refused, is_seen, nothing, seen, under, with_ini, words,
};
use med_base::NoMemory;
use std::alloc::Global;

// Whether a text of what was seen is a refusal: nothing on the standard output, this line on the
// standard error, and an empty bucket.
fn is_refusal(seen: &str, status: &str, err: &str) -> Option<bool> {
    let line = after_status(seen, status)?.strip_suffix("\n||")?;
    Some(line == err)
}

fn after_status<'a>(seen: &'a str, status: &str) -> Option<&'a str> {
    seen.strip_prefix(status)?.strip_prefix("||")
}

// Whether words in a scene are refused so.
fn are_refused(
    alloc: Global,
    words: &[String],
    scene: &Scene,
    status: &str,
    err: &str,
) -> Option<bool> {
    let seen = seen(alloc, words, scene).ok()?;
    is_refusal(seen.as_str(), status, err)
}

// Whether a row's words end as it says: WORD|WORD|.. => TEXT. Words that are refused for themselves
// are refused without a config file.
fn is_row_refused(alloc: Global, row: &str, status: &str) -> Option<bool> {
    let (line, err) = row.split_once(" => ")?;
    let words = words(alloc, line).ok()?;
    are_refused(alloc, words.as_slice(), &nothing(), status, err)
}

// The first row whose words don't end so.
fn first_wrong<'a>(alloc: Global, table: &'a str, status: &str) -> Option<&'a str> {
    for row in table.split('\n') {
        if is_row_refused(alloc, row, status) != Some(true) {
            return Some(row);
        }
    }
    None
}

const FOR_NOTHING: &str = "\
backup => medusa: usage: medusa [options] command [options]
backup|--backup-name= => medusa: usage: medusa [options] command [options]
backup|--backup-name|b1|x => medusa: usage: medusa [options] command [options]
backup|--backup-name|data => medusa: bad value for --backup-name
backup|--backup-name=a/b => medusa: bad value for --backup-name
backup|--backup-name|b1|--mode|other => medusa: bad value for --mode
purge => medusa: not built purge
rehearse|--rounds=1000 => medusa: not built rehearse";

#[test]
fn words_that_ask_for_nothing_are_refused(rt: HostRuntime) {
    let alloc = rt.alloc();
    assert_eq!(rt; first_wrong(alloc, FOR_NOTHING, "2"), None);
    let usage = "medusa: usage: medusa [options] command [options]";
    let none: Vec<String> = Vec::new(alloc);
    assert_eq!(rt;
        are_refused(alloc, none.as_slice(), &nothing(), "2", usage),
        Some(true)
    );
}

// The words of a verification of a name of so many letters `x`.
fn long_name(alloc: Global, length: usize) -> Result<Vec<String>, NoMemory> {
    let mut words = words(alloc, "verify")?;
    let mut word = String::from_str(alloc, "--backup-name=")?;
    for _ in 0..length {
        word.push('x')?;
    }
    words.push(word)?;
    Ok(words)
}

fn is_long_name_refused(alloc: Global, length: usize, err: &str) -> Option<bool> {
    let words = long_name(alloc, length).ok()?;
    are_refused(alloc, words.as_slice(), &nothing(), "2", err)
}

#[test]
fn a_name_has_at_most_200_bytes(rt: HostRuntime) {
    let alloc = rt.alloc();
    assert_eq!(rt;
        is_long_name_refused(alloc, 200, "medusa: not built verify"),
        Some(true)
    );
    let long = "medusa: bad value for --backup-name";
    assert_eq!(rt; is_long_name_refused(alloc, 201, long), Some(true));
}

const WITHOUT_A_FILE: &str = "\
--config-file|m.ini|backup|--backup-name|b1 => medusa: config: no file m.ini
--config-file|m.ini|backup|--backup-name|b1|--mode|full => medusa: config: no file m.ini
backup|--backup-name=b1|--mode=full => medusa: config: no file /etc/medusa/medusa.ini";

#[test]
fn without_a_config_file_there_is_no_command(rt: HostRuntime) {
    assert_eq!(rt; first_wrong(rt.alloc(), WITHOUT_A_FILE, "3"), None);
}

// Whether the first backup over a config file with this text is refused so.
fn is_ini_refused(alloc: Global, text: &str, err: &str) -> Option<bool> {
    let words = words(alloc, BACKUP).ok()?;
    are_refused(alloc, words.as_slice(), &with_ini(text), "3", err)
}

const OPERATOR: &str = "; example\n[cassandra]\nconfig_file = /etc/cassandra/cassandra.yaml\n\
    cql_username = u\n# a comment\n[storage]\nstorage_provider = local\nbase_path = /b\n\
    bucket_name: k\nprefix =\nfqdn = n1\nmax_backup_age = 0\nmax_backup_count = 0\n\
    backup_grace_period_in_days = 10\n[monitoring]\n;monitoring_provider = none\n[logging]\n\
    file =\n  /var/log/medusa.log\n";

// Whether the config file of an operator is refused with another provider.
fn is_provider_refused(alloc: Global) -> Option<bool> {
    let other = OPERATOR.replace(alloc, "= local", "= s3").ok()?;
    is_ini_refused(
        alloc,
        other.as_str(),
        "medusa: config: unsupported provider s3",
    )
}

#[test]
fn the_config_file_of_an_operator_is_read(rt: HostRuntime) {
    let alloc = rt.alloc();
    assert_eq!(rt;
        is_seen(alloc, BACKUP, &with_ini(OPERATOR), DONE, PUTS),
        Ok(true)
    );
    assert_eq!(rt; is_provider_refused(alloc), Some(true));
}

// Whether a row's text is refused as it says: TEXT => REFUSAL, with line feeds in place of `¶`.
fn is_ini_row_refused(alloc: Global, row: &str) -> Option<bool> {
    let (text, err) = row.split_once(" => ")?;
    let text = text.replace(alloc, '\u{b6}', "\n").ok()?;
    is_ini_refused(alloc, text.as_str(), err)
}

const INIS: &str = "\
[storage]¶storage_provider = local¶fqdn = a¶FQDN = b¶ => medusa: config: line 4: duplicate option
x = 1¶ => medusa: config: line 1: no section
[storage]¶storage_provider = local¶ => medusa: config: missing option base_path
[storage]¶storage_provider = local¶base_path = /b¶bucket_name = .k¶ => medusa: config: bad name \
bucket_name
[storage]¶storage_provider = local¶base_path = /b¶bucket_name = k¶fqdn = n1¶max_backup_age = -1¶ \
=> medusa: config: bad number max_backup_age";

// The first row whose text isn't refused so.
fn first_wrong_ini<'a>(alloc: Global, table: &'a str) -> Option<&'a str> {
    for row in table.split('\n') {
        if is_ini_row_refused(alloc, row) != Some(true) {
            return Some(row);
        }
    }
    None
}

#[test]
fn a_config_file_is_refused_with_its_place(rt: HostRuntime) {
    assert_eq!(rt; first_wrong_ini(rt.alloc(), INIS), None);
}

#[test]
fn a_config_file_that_fails_to_be_read_is_a_read_fault(rt: HostRuntime) {
    let mut scene = with_ini(INI);
    scene.failing = Some(1);
    let said = "7||medusa: read fault\u{b6}|";
    assert_eq!(rt; is_refused(rt.alloc(), BACKUP, &scene, said), Ok(true));
}

const OVERRIDDEN: &str =
    "--config-file=m.ini|--fqdn=n2|--prefix|p/q|backup|--mode=full|--backup-name=b1";

const OTHER_DONE: &str = "0|backup b1 of n2: 1 files, 3 bytes, 0 reused, 1 stored, 0 aside\u{b6}||";

// The first backup under a prefix, of a node that the words name in place of the file's.
fn stand_in_place(alloc: Global) -> Result<bool, NoMemory> {
    let puts = PUTS.replace(alloc, "n1", "n2")?;
    let puts = under(alloc, puts.as_str(), "p/q/")?;
    let mut scene = with_ini(INI);
    scene.node = "n2";
    scene.ring = "{\"n2\":{\"tokens\":[-5,7],\"is_up\":true}}";
    is_seen(alloc, OVERRIDDEN, &scene, OTHER_DONE, puts.as_str())
}

#[test]
fn words_stand_in_place_of_options(rt: HostRuntime) {
    assert_eq!(rt; stand_in_place(rt.alloc()), Ok(true));
}
