// Texts in the ini form and their near misses, written by hand from the rules.
use med_ini::{Ini, IniError, IniKind, one_reading, read_ini};
use std::alloc::Global;
use std::test::Fail;

// Whether an option has the value behind `=`, or none.
fn is_value(value: Option<&str>, expected: &str) -> bool {
    match value {
        Some(value) => expected.strip_prefix('=') == Some(value),
        None => expected == "none",
    }
}

// Whether a refusal has this text.
fn is_refusal(alloc: Global, error: IniError, expected: &str) -> Option<bool> {
    Some(format!(in alloc; "{error}").ok()?.as_str() == expected)
}

// Whether a text is read as its row says: TEXT|SECTION|OPTION|ANSWER, where the answer is `=` and
// the value, `none`, or the refusal.
fn is_told(alloc: Global, row: &str) -> Option<bool> {
    let (text, rest) = row.split_once('|')?;
    let (section, rest) = rest.split_once('|')?;
    let (option, expected) = rest.split_once('|')?;
    match read_ini(alloc, text.as_bytes()) {
        Ok(ini) => Some(is_value(ini.value(section, option), expected)),
        Err(error) => is_refusal(alloc, error, expected),
    }
}

// With line feeds in the place of `¶`.
fn is_right(alloc: Global, row: &str) -> Option<bool> {
    let row = row.replace(alloc, '\u{b6}', "\n").ok()?;
    is_told(alloc, row.as_str())
}

// The first row that isn't told so.
fn first_wrong<'a>(alloc: Global, table: &'a str) -> Option<&'a str> {
    for row in table.split('\n') {
        if is_right(alloc, row) != Some(true) {
            return Some(row);
        }
    }
    None
}

const VALUES: &str = "\
[a]¶x=1|a|x|=1
[a]¶x=1|a|y|none
[a]¶x=1|b|x|none
[a]\r¶x = 1\r¶|a|x|=1
[a]¶x: 1¶|a|x|=1
[a]¶x=1:2|a|x|=1:2
[a]¶x:1=2|a|x|=1=2
[a]¶x = = 1|a|x|== 1
[a]¶X Y = 1|a|x y|=1
[a]¶X=1|a|X|none
[a]¶x=1 ; 2 # 3|a|x|=1 ; 2 # 3
[a]¶x=|a|x|=
[a]¶x=1 \t\x0b\x0c\r|a|x|=1
[a]¶\t\x0b\x0cx=1|a|x|=1
[a]¶x=a\0b|a|x|=a\0b
[a]¶x=\u{a0}1\u{a0}|a|x|=\u{a0}1\u{a0}
[a]¶x=1\x1c\u{85}\u{2003}|a|x|=1\x1c\u{85}\u{2003}
[a]¶\u{c9}=1¶\u{e9}=2|a|\u{e9}|=2
[a]¶\u{c9}=1¶\u{e9}=2|a|\u{c9}|=1
|a|x|none
¶ ¶# c¶  ; d|a|x|none";

#[test]
fn each_option_has_its_value(rt: HostRuntime) {
    assert_eq!(rt; first_wrong(rt.alloc(), VALUES), None);
}

const LINES: &str = "\
[a]¶x=1¶ 2¶\t3|a|x|=1¶2¶3
[a]¶x=¶  1|a|x|=¶1
[a]¶x=1¶ 2 = 3¶ y|a|x|=1¶2 = 3¶y
[a]¶x=1¶# c¶ ; d¶ 2|a|x|=1¶2
[a]¶x=1¶¶  ¶ 2¶¶ ¶|a|x|=1¶¶¶2
[a]¶x=1¶¶¶[b]¶|a|x|=1
[a]¶x=¶¶|a|x|=
[a]¶  x=1¶  y=2|a|y|=2
[a]¶  x=1¶   y=2|a|x|=1¶y=2
[a]¶  x=1¶   y=2¶  z=3|a|z|=3
[a]¶  x=1¶ y=2¶  3|a|y|=2¶3
[a]¶x=1¶\ty=2|a|x|=1¶y=2
[a]¶x=1¶ [b]|a|x|=1¶[b]
[a]¶x=1¶[b]¶  y=2|b|y|=2
  [a]¶ x=1|a|x|=1
[a]¶#x=0¶  # x=3¶¶  x=4|a|x|=4";

#[test]
fn a_value_has_its_lines(rt: HostRuntime) {
    assert_eq!(rt; first_wrong(rt.alloc(), LINES), None);
}

const SECTIONS: &str = "\
[a]b]¶x=1|a|x|=1
[a]b=c¶x=1|a|x|=1
[a]b=c¶x=1|a|b|none
[ s ]¶x=1| s |x|=1
[ s ]¶x=1|s|x|none
[A]¶x=1¶[a]¶y=2|a|x|none
[A]¶x=1¶[a]¶y=2|A|x|=1
[a]¶x=1¶[b]¶x=2|b|x|=2
[a]¶[]=1|a|[]|=1
[a]¶[x=1|a|[x|=1
[#]¶x=1|#|x|=1
[DEFAULT]¶x=1¶[a]¶y=2|a|x|=1
[DEFAULT]¶x=1¶[a]¶y=2|b|x|=1
[DEFAULT]¶x=1¶[a]¶y=2|b|y|none
[DEFAULT]¶x=1¶[a]¶x=2|a|x|=2
[DEFAULT]¶x=1¶[a]¶x=|a|x|=
[DEFAULT]¶x=1¶[a]¶[DEFAULT]¶y=2¶|a|y|=2
[DEFAULT]¶x=1¶[a]¶[DEFAULT]¶y=2¶|DEFAULT|x|=1
[default]¶x=1|a|x|none";

#[test]
fn each_section_has_its_options(rt: HostRuntime) {
    assert_eq!(rt; first_wrong(rt.alloc(), SECTIONS), None);
}

const FAULTS: &str = "\
x=1|a|x|line 1: no section
¶# c¶ x¶|a|x|line 3: no section
\u{feff}[a]¶x=1|a|x|line 1: no section
[]|a|x|line 1: no section
[a¶x=1|a|x|line 1: no section
[a]¶x|a|x|line 2: no delimiter
[a]¶[]|a|x|line 2: no delimiter
[a]¶[]]|a|x|line 2: no delimiter
[a]¶x=1¶\u{a0}2|a|x|line 3: no delimiter
[a]¶ x=1¶ y|a|x|line 3: no delimiter
[a]¶=1|a|x|line 2: empty key
[a]¶ : 1|a|x|line 2: empty key
[a]¶x=1¶¶[a]|a|x|line 4: duplicate section
[a]¶[b]¶[a]x=1|a|x|line 3: duplicate section
[a]¶x=1¶X : 2|a|x|line 3: duplicate option
[DEFAULT]¶x=1¶[DEFAULT]¶x=2|a|x|line 4: duplicate option
[storage]¶storage_provider = local¶fqdn = a¶FQDN = b¶|storage|fqdn|line 4: duplicate option
[a]¶x¶[a]¶=1|a|x|line 2: no delimiter
[a]¶=1¶[a]¶x|a|x|line 2: empty key";

#[test]
fn the_first_fault_has_its_line(rt: HostRuntime) {
    assert_eq!(rt; first_wrong(rt.alloc(), FAULTS), None);
}

// Whether bytes are refused with this text.
fn is_refused(alloc: Global, bytes: &[u8], expected: &str) -> Option<bool> {
    match read_ini(alloc, bytes) {
        Ok(_) => Some(false),
        Err(error) => is_refusal(alloc, error, expected),
    }
}

#[test]
fn a_byte_that_is_no_text_comes_before_other_faults(rt: HostRuntime) {
    for (bytes, expected) in [
        (b"[a]\n\nx=\xff".as_slice(), "line 3: not utf-8"),
        (b"x\n=\n\n\xc3".as_slice(), "line 4: not utf-8"),
        (b"\xe2\x82\n[a]".as_slice(), "line 1: not utf-8"),
        (b"[a]\nx=\xed\xa0\x80\n\xff".as_slice(), "line 2: not utf-8"),
    ] {
        assert_eq!(rt;
            is_refused(rt.alloc(), bytes, expected),
            Some(true),
            "{expected}"
        );
    }
    one_reading();
    let is_not_utf8 = match read_ini(rt.alloc(), b"\n\xff") {
        Err(IniError::Fault { line, kind }) => line == 2 && matches!(kind, IniKind::NotUtf8),
        _ => false,
    };
    assert!(rt; is_not_utf8);
}

const EXAMPLE: &str = "\
; example
[cassandra]
config_file = /etc/cassandra/cassandra.yaml
cql_username = u
# a comment
[storage]
storage_provider = local
base_path = /b
bucket_name: k
prefix =
fqdn = n1
max_backup_age = 0
max_backup_count = 0
backup_grace_period_in_days = 10
[monitoring]
;monitoring_provider = none
[logging]
file =
  /var/log/medusa.log
";

// Whether an option is told as its row says: SECTION|OPTION|ANSWER.
fn is_given(alloc: Global, ini: &Ini, row: &str) -> Option<bool> {
    let row = row.replace(alloc, '\u{b6}', "\n").ok()?;
    let (section, rest) = row.split_once('|')?;
    let (option, expected) = rest.split_once('|')?;
    Some(is_value(ini.value(section, option), expected))
}

// The first row that isn't told so.
fn first_not_given<'a>(alloc: Global, ini: &Ini, table: &'a str) -> Option<&'a str> {
    for row in table.split('\n') {
        if is_given(alloc, ini, row) != Some(true) {
            return Some(row);
        }
    }
    None
}

const GIVEN: &str = "\
cassandra|config_file|=/etc/cassandra/cassandra.yaml
cassandra|cql_username|=u
storage|storage_provider|=local
storage|base_path|=/b
storage|bucket_name|=k
storage|prefix|=
storage|fqdn|=n1
storage|max_backup_age|=0
storage|backup_grace_period_in_days|=10
monitoring|monitoring_provider|none
logging|file|=¶/var/log/medusa.log";

#[test]
fn a_usual_file_has_its_values(rt: HostRuntime) -> Result<(), Fail> {
    let ini = read_ini(rt.alloc(), EXAMPLE.as_bytes())?;
    assert_eq!(rt; first_not_given(rt.alloc(), &ini, GIVEN), None);
    Ok(())
}
