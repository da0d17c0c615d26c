// Texts of one table that are read as manifests, and texts that are not, each with the answer that
// the rule gives. The digest is one of RFC 1321, A.5.
use crate::answers::{PATH, first_wrong, is_read, read_of};
use med_manifest::FileRecord;
use std::alloc::Global;

const WHOLE: &str = r#" => not json
[ => not json
[] [] => not json
[]] => not json
[]x => not json
[]"x" => not json
[], => not json
[01] => not json
["¶"] => not json
["\ud800"] => not json
["\udc00\ud800"] => not json
["\ud83d\ude00"] => not manifest 0
{} => not manifest 0
null => not manifest 0
"[]" => not manifest 0
[[]] => not manifest 0
[{}] => not manifest 0
[] => files
 [ ]  => files"#;

#[test]
fn texts_that_are_no_list_of_tables(rt: HostRuntime) {
    assert_eq!(rt; first_wrong(rt.alloc(), "$", WHOLE), None);
    assert_eq!(rt;
        first_wrong(rt.alloc(), "$", "\u{feff}[] => not json"),
        None
    );
    // not UTF-8
    assert_eq!(rt; is_read(rt.alloc(), "", b"\xff", "not json"), Some(true));
    assert_eq!(rt;
        is_read(rt.alloc(), "", b"[\"\xc3\"]", "not json"),
        Some(true)
    );
}

// Bytes that aren't UTF-8, in the value of a key that nothing reads, and in such a key.
const BESIDE: &[u8] =
    b"[{\"columnfamily\":\"t\",\"keyspace\":\"ks\",\"objects\":[],\"x\":\"\xff\"}]";

const BESIDE_IN_A_KEY: &[u8] =
    b"[{\"columnfamily\":\"t\",\"keyspace\":\"ks\",\"objects\":[],\"\xff\":1}]";

#[test]
fn bytes_that_nothing_reads_are_utf8_too(rt: HostRuntime) {
    assert_eq!(rt; is_read(rt.alloc(), "", BESIDE, "not json"), Some(true));
    assert_eq!(rt;
        is_read(rt.alloc(), "", BESIDE_IN_A_KEY, "not json"),
        Some(true)
    );
}

// One table with one file, whose size is the cell.
const SIZE: &str = concat!(
    r#"[{"columnfamily":"t","keyspace":"ks","objects":["#,
    r#"{"MD5":"900150983cd24fb0d6963f7d28e17f72","path":"n1/data/ks/t/f","size":$}]}]"#
);

const SIZES: &str = r#"0 => files n1/data/ks/t/f 0;
3 => files n1/data/ks/t/f 3;
18446744073709551615 => files n1/data/ks/t/f 18446744073709551615;
18446744073709551616 => not manifest 0
3.0 => not manifest 0
3.5 => not manifest 0
3e0 => not manifest 0
-0 => not manifest 0
-3 => not manifest 0
"3" => not manifest 0
null => not manifest 0
03 => not json
+3 => not json
3. => not json
1e999 => not json
-1e999 => not json
0e999 => not manifest 0
4,"size":3 => files n1/data/ks/t/f 3;
"x","size":3 => files n1/data/ks/t/f 3;
3,"size":"x" => not manifest 0
3,"size":1e999 => not json
1e999,"size":3 => not json
4,"siz\u0065":3 => files n1/data/ks/t/f 3;
3,"x":1e308 => files n1/data/ks/t/f 3;
3,"x":1e309 => not json
3,"x":[{"y":-1e999}] => not json
3,"x":"1e999" => files n1/data/ks/t/f 3;
3,"x":"\ud800" => not json
3,"\ud800":1 => not json
3,"":null => files n1/data/ks/t/f 3;"#;

#[test]
fn a_size_is_judged_by_its_spelling(rt: HostRuntime) {
    assert_eq!(rt; first_wrong(rt.alloc(), SIZE, SIZES), None);
}

// One table with one file, whose MD5 is the cell.
const MD5: &str = concat!(
    r#"[{"columnfamily":"t","keyspace":"ks","objects":["#,
    r#"{"MD5":$,"path":"n1/data/ks/t/f","size":3}]}]"#
);

const MD5S: &str = r#""900150983CD24FB0D6963F7D28E17F72" => files n1/data/ks/t/f 3;
"900150983cD24fb0d6963F7d28E17F72" => files n1/data/ks/t/f 3;
"kAFQmDzST7DWlj99KOF/cg==" => files n1/data/ks/t/f 3;
"kAFQmDzST7DWlj99KOF\/cg==" => files n1/data/ks/t/f 3;
"kAFQmDzST7DWlj99KOF/ch==" => bad digest 0
"kAFQmDzST7DWlj99KOF_cg==" => bad digest 0
"kAFQmDzST7DWlj99KOF/cg" => bad digest 0
"900150983cd24fb0d6963f7d28e17f7" => bad digest 0
"900150983cd24fb0d6963f7d28e17f7g" => bad digest 0
"" => bad digest 0
null => not manifest 0
1 => not manifest 0"#;

#[test]
fn an_md5_has_two_spellings(rt: HostRuntime) {
    assert_eq!(rt; first_wrong(rt.alloc(), MD5, MD5S), None);
}

// Whether it is the file ks/t/f with the MD5 of `abc`.
fn is_abc(file: &FileRecord) -> bool {
    let abc = [
        0x90, 0x01, 0x50, 0x98, 0x3c, 0xd2, 0x4f, 0xb0, 0xd6, 0x96, 0x3f, 0x7d, 0x28, 0xe1, 0x7f,
        0x72,
    ];
    file.fingerprint.md5 == abc
        && file.key.keyspace.as_str() == "ks"
        && file.key.table.as_str() == "t"
        && file.key.file.as_str() == "f"
}

// Whether the first file of a text with this MD5 is that of `abc`.
fn is_read_as_abc(alloc: Global, md5: &str) -> Option<bool> {
    let text = MD5.replace(alloc, '$', md5).ok()?;
    let manifest = read_of(alloc, "", text.as_bytes())?.ok()?;
    Some(is_abc(manifest.files.get(0)?))
}

#[test]
fn both_spellings_give_the_same_bytes(rt: HostRuntime) {
    let digits = r#""900150983cd24fb0d6963f7d28e17f72""#;
    assert_eq!(rt; is_read_as_abc(rt.alloc(), digits), Some(true));
    let base64 = r#""kAFQmDzST7DWlj99KOF/cg==""#;
    assert_eq!(rt; is_read_as_abc(rt.alloc(), base64), Some(true));
}

const PATHS: &str = r#""n1/data/ks/t/f" => files n1/data/ks/t/f 1;
"n1\/data\/ks\/t\/f" => files n1/data/ks/t/f 1;
"n1/data/ks/t/\u0066" => files n1/data/ks/t/f 1;
"n1/b2/data/ks/t/f" => files n1/b2/data/ks/t/f 1;
"n1/b1/data/ks/t/f" => foreign <n1/b1/data/ks/t/f>
"n2/data/ks/t/f" => foreign <n2/data/ks/t/f>
"n2/b2/data/ks/t/f" => foreign <n2/b2/data/ks/t/f>
"n1/data/ks/t2/f" => foreign <n1/data/ks/t2/f>
"n1/data/ks2/t/f" => foreign <n1/data/ks2/t/f>
"n1/b2/data/ks/t2/f" => foreign <n1/b2/data/ks/t2/f>
"n1/data/ks/t/f/g" => foreign <n1/data/ks/t/f/g>
"n1/data/ks/t" => foreign <n1/data/ks/t>
"n1/data/ks/t/" => foreign <n1/data/ks/t/>
"n1/data/ks/t/.." => foreign <n1/data/ks/t/..>
"p/n1/data/ks/t/f" => foreign <p/n1/data/ks/t/f>
"/n1/data/ks/t/f" => foreign </n1/data/ks/t/f>
"n1/b2/meta/manifest.json" => foreign <n1/b2/meta/manifest.json>
"" => foreign <>
null => not manifest 0
1 => not manifest 0
[] => not manifest 0"#;

const ZERO_IN_A_PATH: &str = "\"n1/data/ks/t/\\u0000\" => foreign <n1/data/ks/t/\0>";

#[test]
fn a_path_is_one_of_the_backup_and_of_its_table(rt: HostRuntime) {
    assert_eq!(rt; first_wrong(rt.alloc(), PATH, PATHS), None);
    assert_eq!(rt; first_wrong(rt.alloc(), PATH, ZERO_IN_A_PATH), None);
}

const TABLES: &str = r#""columnfamily":"t","keyspace":"ks","objects":[] => files
"objects":[],"keyspace":"ks","columnfamily":"t","x":{} => files
"columnfamil\u0079":"t","keyspace":"ks","objects":[] => files
"columnfamily":"t","keyspace":1,"keyspace":"ks","objects":[] => files
"columnfamily":"t","keyspace":"..","keyspace":"ks","objects":[] => files
"columnfamily":"t","keyspace":"..","k\u0065yspace":"ks","objects":[] => files
"columnfamily":"t","k\u0065yspace":"ks","keyspace":"..","objects":[] => not manifest 0
"columnfamily":"t","keyspace":"ks","objects":0,"objects":[] => files
"columnfamily":"t","keyspace":"ks","keyspace":1,"objects":[] => not manifest 0
"columnfamily":"t","keyspace":"ks","objects":[],"objects":0 => not manifest 0
"columnfamily":"t","keyspace":"ks" => not manifest 0
"columnfamily":"t","objects":[] => not manifest 0
"keyspace":"ks","objects":[] => not manifest 0
"columnfamily":null,"keyspace":"ks","objects":[] => not manifest 0
"columnfamily":"","keyspace":"ks","objects":[] => not manifest 0
"columnfamily":"t","keyspace":"","objects":[] => not manifest 0
"columnfamily":"..","keyspace":"ks","objects":[] => not manifest 0
"columnfamily":"t","keyspace":"k\/s","objects":[] => not manifest 0
"columnfamily":"t","keyspace":"k\u0000","objects":[] => not manifest 0
"columnfamily":"t","keyspace":"k\n","objects":[] => not manifest 0
"columnfamily":"t","keyspace":"ks","objects":{} => not manifest 0
"columnfamily":"t","keyspace":"ks","objects":[1] => not manifest 0
"columnfamily":"t","keyspace":"ks","objects":[{}] => not manifest 0"#;

#[test]
fn a_table_has_two_names_and_a_list(rt: HostRuntime) {
    assert_eq!(rt; first_wrong(rt.alloc(), "[{$}]", TABLES), None);
}
