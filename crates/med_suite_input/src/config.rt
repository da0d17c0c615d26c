// The options of medusa.ini, each absent, empty and bad in turn, by the table of the checks.
use med_ini::{Config, Overrides, read_ini};
use std::alloc::Global;

const USUAL: &str = "\
[storage]
storage_provider = local
base_path = /b
bucket_name = k
fqdn = n1
";

// Whether a configuration has these fields: the base, the bucket, the folder of the node, the node,
// the age, the count, the grace period, and the folders of nodes and of targets.
fn has_fields(alloc: Global, config: &Config, expected: &str) -> Option<bool> {
    let folder = config.layout.node_folder(alloc, &config.node).ok()?;
    let node = config.node.as_str();
    let (base, bucket) = (config.base.as_str(), config.bucket.as_str());
    let front = format!(in alloc; "{base} {bucket} {folder} {node}").ok()?;
    let (age, count, grace) = (config.age_days, config.count, config.grace_days);
    let (nodes, targets) = (config.nodes_root.as_str(), config.targets_root.as_str());
    let all = format!(in alloc; "{front} {age} {count} {grace} {nodes} {targets}").ok()?;
    Some(all.as_str() == expected)
}

// Whether a text gives these fields, or this refusal.
fn is_read(alloc: Global, text: &str, over: &Overrides, expected: &str) -> Option<bool> {
    let ini = read_ini(alloc, text.as_bytes()).ok()?;
    match Config::from_ini(alloc, &ini, over) {
        Ok(config) => has_fields(alloc, &config, expected),
        Err(error) => Some(format!(in alloc; "{error}").ok()?.as_str() == expected),
    }
}

const NO_OVERRIDES: Overrides = Overrides {
    bucket: None,
    prefix: None,
    fqdn: None,
};

// Whether a text behind the head is read as its row says: TEXT|ANSWER, with `¶` for a line feed.
fn is_right(alloc: Global, head: &str, row: &str) -> Option<bool> {
    let row = row.replace(alloc, '\u{b6}', "\n").ok()?;
    let (tail, expected) = row.split_once('|')?;
    let text = format!(in alloc; "{head}{tail}").ok()?;
    is_read(alloc, text.as_str(), &NO_OVERRIDES, expected)
}

// The first row that isn't read so.
fn first_wrong<'a>(alloc: Global, head: &str, table: &'a str) -> Option<&'a str> {
    for row in table.split('\n') {
        if is_right(alloc, head, row) != Some(true) {
            return Some(row);
        }
    }
    None
}

// Whether a text behind the usual one changes nothing.
fn is_plain(alloc: Global, tail: &str) -> Option<bool> {
    let row = format!(in alloc; "{tail}|{PLAIN}").ok()?;
    is_right(alloc, USUAL, row.as_str())
}

// The first text that changes something.
fn first_other<'a>(alloc: Global, tails: &'a str) -> Option<&'a str> {
    for tail in tails.split('\n') {
        if is_plain(alloc, tail) != Some(true) {
            return Some(tail);
        }
    }
    None
}

const PLAIN: &str = "/b k n1/ n1 0 0 10 /var/lib/medusa/nodes /var/lib/medusa/targets";

// Texts behind the usual one; the second is empty.
const ABSENT_OR_EMPTY: &str = "\
prefix =¶

max_backup_age =¶max_backup_count =¶backup_grace_period_in_days =¶
[folders]¶nodes =¶targets =¶
[folders]¶max_backup_age = 1¶fqdn = n2¶
nodes = /n¶targets = /t¶
other = 1¶[other]¶base_path = /c¶";

#[test]
fn an_option_that_is_absent_or_empty_has_its_default(rt: HostRuntime) {
    assert_eq!(rt; first_other(rt.alloc(), ABSENT_OR_EMPTY), None);
}

const EACH_OPTION: &str = "\
[DEFAULT]
fqdn = n0
max_backup_count = 3
[folders]
targets = t
nodes = /n
[storage]
BASE_PATH = relative
bucket_name = K k
prefix = p/q
fqdn = n_1.dc
storage_provider: local
max_backup_age = 7
backup_grace_period_in_days = 0
";

#[test]
fn each_option_is_read(rt: HostRuntime) {
    let fields = "|relative K k p/q/n_1.dc/ n_1.dc 7 3 0 /n t";
    assert_eq!(rt; first_wrong(rt.alloc(), EACH_OPTION, fields), None);
}

const PROVIDERS: &str = "\
|missing option storage_provider
[storage]¶storage_provider =¶|missing option storage_provider
[DEFAULT]¶storage_provider = local¶[storage]¶storage_provider =|missing option storage_provider
[storage]¶storage_provider = s3¶|unsupported provider s3
[storage]¶storage_provider = Local¶|unsupported provider Local
[storage]¶storage_provider = a¶ b¶|unsupported provider a¶b";

const LOCAL: &str = "[storage]\nstorage_provider = local\n";

// Behind the provider.
const NAMES: &str = "\
|missing option base_path
base_path =¶bucket_name = k¶|missing option base_path
base_path = a\0¶|bad name base_path
base_path = /b¶|missing option bucket_name
base_path = /b¶bucket_name =¶fqdn = n1¶|missing option bucket_name
base_path = /b¶bucket_name = .k¶|bad name bucket_name
base_path = /b¶bucket_name = a/b¶|bad name bucket_name
base_path = /b¶bucket_name = ..¶|bad name bucket_name
base_path = /b¶bucket_name = k¶|missing option fqdn
base_path = /b¶bucket_name = k¶fqdn =¶|missing option fqdn
base_path = /b¶bucket_name = k¶prefix = /p¶|bad name prefix
base_path = /b¶bucket_name = k¶fqdn = index¶|bad name fqdn
base_path = /b¶bucket_name = k¶fqdn = a/b¶max_backup_age = x¶|bad name fqdn";

// Behind the usual text.
const NUMBERS_AND_FOLDERS: &str = "\
max_backup_age = x¶max_backup_count = y¶|bad number max_backup_age
max_backup_count = y¶backup_grace_period_in_days = z¶|bad number max_backup_count
backup_grace_period_in_days = z¶[folders]¶nodes = \0|bad number backup_grace_period_in_days
[folders]¶targets = \0¶nodes = \0¶|bad name nodes
[folders]¶targets = \0¶|bad name targets";

#[test]
fn the_first_check_that_fails_decides(rt: HostRuntime) {
    assert_eq!(rt; first_wrong(rt.alloc(), "", PROVIDERS), None);
    assert_eq!(rt; first_wrong(rt.alloc(), LOCAL, NAMES), None);
    assert_eq!(rt; first_wrong(rt.alloc(), USUAL, NUMBERS_AND_FOLDERS), None);
}

// The usual text, and behind it the age.
const AGE: &str = "\
[storage]
storage_provider = local
base_path = /b
bucket_name = k
fqdn = n1
max_backup_age = ";

const DIGITS: &str = "\
0|/b k n1/ n1 0 0 10 /var/lib/medusa/nodes /var/lib/medusa/targets
01|/b k n1/ n1 1 0 10 /var/lib/medusa/nodes /var/lib/medusa/targets
4294967295|/b k n1/ n1 4294967295 0 10 /var/lib/medusa/nodes /var/lib/medusa/targets
4294967296|bad number max_backup_age
9999999999|bad number max_backup_age
0000000001|/b k n1/ n1 1 0 10 /var/lib/medusa/nodes /var/lib/medusa/targets
00000000001|bad number max_backup_age
|/b k n1/ n1 0 0 10 /var/lib/medusa/nodes /var/lib/medusa/targets
-1|bad number max_backup_age
+1|bad number max_backup_age
1.0|bad number max_backup_age
1 0|bad number max_backup_age
1¶ 0|bad number max_backup_age
\u{663}|bad number max_backup_age";

#[test]
fn numbers_are_one_to_ten_digits(rt: HostRuntime) {
    assert_eq!(rt; first_wrong(rt.alloc(), AGE, DIGITS), None);
}

// The text of an override, or none for `-`.
fn override_in(alloc: Global, cell: &str) -> Option<Option<String>> {
    if cell == "-" {
        return Some(None);
    }
    Some(Some(String::from_str(alloc, cell).ok()?))
}

// Whether overrides stand in place of the usual text as their row says: BUCKET|PREFIX|FQDN|ANSWER.
fn is_over(alloc: Global, row: &str) -> Option<bool> {
    let (bucket, rest) = row.split_once('|')?;
    let (prefix, rest) = rest.split_once('|')?;
    let (fqdn, expected) = rest.split_once('|')?;
    let over = Overrides {
        bucket: override_in(alloc, bucket)?,
        prefix: override_in(alloc, prefix)?,
        fqdn: override_in(alloc, fqdn)?,
    };
    is_read(alloc, USUAL, &over, expected)
}

// The first row that doesn't stand so.
fn first_not_over<'a>(alloc: Global, table: &'a str) -> Option<&'a str> {
    for row in table.split('\n') {
        if is_over(alloc, row) != Some(true) {
            return Some(row);
        }
    }
    None
}

const OVERRIDES: &str = "\
k2|-|-|/b k2 n1/ n1 0 0 10 /var/lib/medusa/nodes /var/lib/medusa/targets
-|p|-|/b k p/n1/ n1 0 0 10 /var/lib/medusa/nodes /var/lib/medusa/targets
-|-|n2|/b k n2/ n2 0 0 10 /var/lib/medusa/nodes /var/lib/medusa/targets
k2|p|n2|/b k2 p/n2/ n2 0 0 10 /var/lib/medusa/nodes /var/lib/medusa/targets
.k|.p|index|bad name bucket_name
|-|-|missing option bucket_name
-|.p|index|bad name prefix
-|-|index|bad name fqdn
-|-||missing option fqdn";

#[test]
fn overrides_stand_in_place_of_the_file(rt: HostRuntime) {
    assert_eq!(rt; first_not_over(rt.alloc(), OVERRIDES), None);
}
