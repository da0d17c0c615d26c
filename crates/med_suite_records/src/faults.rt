// The bounds of names and of nesting, the first fault of several tables, and a prefix.
use crate::answers::{PATH, is_cell_read, is_read};
use std::alloc::Global;

// Whether a table whose keyspace has so many bytes is read as the answer says.
fn is_length_read(alloc: Global, length: usize, answer: &str) -> Option<bool> {
    let name = "k".repeat(alloc, length).ok()?;
    let text = r#"[{"columnfamily":"t","objects":[],"keyspace":"$"}]"#;
    is_cell_read(alloc, "", text, name.as_str(), answer)
}

#[test]
fn a_name_has_255_bytes_at_most(rt: HostRuntime) {
    assert_eq!(rt; is_length_read(rt.alloc(), 255, "files"), Some(true));
    assert_eq!(rt;
        is_length_read(rt.alloc(), 256, "not manifest 0"),
        Some(true)
    );
}

// So often what opens a value, the value in the middle, and so often what closes one.
fn nested(alloc: Global, opens: &str, middle: &str, closes: &str, times: usize) -> Option<String> {
    let front = opens.repeat(alloc, times).ok()?;
    let back = closes.repeat(alloc, times).ok()?;
    let (front, back) = (front.as_str(), back.as_str());
    format!(in alloc; "{front}{middle}{back}").ok()
}

// Whether lists of that depth, in the text, are read as the answer says.
fn is_depth_read(alloc: Global, text: &str, depth: usize, answer: &str) -> Option<bool> {
    let lists = nested(alloc, "[", "", "]", depth)?;
    is_cell_read(alloc, "", text, lists.as_str(), answer)
}

// Whether so many objects around an empty one, in the text, are read as the answer says.
fn are_objects_read(alloc: Global, text: &str, times: usize, answer: &str) -> Option<bool> {
    let objects = nested(alloc, "{\"x\":", "{}", "}", times)?;
    is_cell_read(alloc, "", text, objects.as_str(), answer)
}

// A table with a key that nothing reads, whose value stands below a list and an object.
const UNREAD: &str = r#"[{"columnfamily":"t","keyspace":"ks","objects":[],"x":$}]"#;

#[test]
fn a_nesting_of_127_is_read(rt: HostRuntime) {
    assert_eq!(rt;
        is_depth_read(rt.alloc(), "$", 127, "not manifest 0"),
        Some(true)
    );
    assert_eq!(rt; is_depth_read(rt.alloc(), "$", 128, "not json"), Some(true));
    assert_eq!(rt; is_depth_read(rt.alloc(), UNREAD, 125, "files"), Some(true));
    assert_eq!(rt;
        is_depth_read(rt.alloc(), UNREAD, 126, "not json"),
        Some(true)
    );
}

#[test]
fn a_nesting_of_127_objects_is_read(rt: HostRuntime) {
    assert_eq!(rt;
        are_objects_read(rt.alloc(), "$", 126, "not manifest 0"),
        Some(true)
    );
    assert_eq!(rt;
        are_objects_read(rt.alloc(), "$", 127, "not json"),
        Some(true)
    );
    assert_eq!(rt;
        are_objects_read(rt.alloc(), UNREAD, 124, "files"),
        Some(true)
    );
    assert_eq!(rt;
        are_objects_read(rt.alloc(), UNREAD, 125, "not json"),
        Some(true)
    );
}

const ONE: &str = concat!(
    r#"{"columnfamily":"t","keyspace":"ks","objects":["#,
    r#"{"MD5":"900150983cd24fb0d6963f7d28e17f72","path":"n1/data/ks/t/f","size":3}]}"#
);

const TWO: &str = concat!(
    r#"{"columnfamily":"t","keyspace":"ks","objects":["#,
    r#"{"MD5":"900150983cd24fb0d6963f7d28e17f72","path":"n1/b2/data/ks/t/g","size":4},"#,
    r#"{"MD5":"900150983cd24fb0d6963f7d28e17f72","path":"n1/data/ks/t/h","size":5}]}"#
);

const OTHER: &str = concat!(
    r#"{"columnfamily":"u","keyspace":"ks","objects":["#,
    r#"{"MD5":"900150983cd24fb0d6963f7d28e17f72","path":"n1/data/ks/u/f","size":6}]}"#
);

const AGAIN: &str = concat!(
    r#"{"columnfamily":"t","keyspace":"ks","objects":["#,
    r#"{"MD5":"900150983cd24fb0d6963f7d28e17f72","path":"n1/b2/data/ks/t/f","size":7}]}"#
);

const BAD_DIGEST: &str = concat!(
    r#"{"columnfamily":"t","keyspace":"ks","objects":["#,
    r#"{"MD5":"no","path":"n1/data/ks/t/f","size":8}]}"#
);

const FOREIGN: &str = concat!(
    r#"{"columnfamily":"t","keyspace":"ks","objects":["#,
    r#"{"MD5":"900150983cd24fb0d6963f7d28e17f72","path":"n1/b1/data/ks/t/i","size":9}]}"#
);

const BAD_AND_FOREIGN: &str = concat!(
    r#"{"columnfamily":"t","keyspace":"ks","objects":["#,
    r#"{"MD5":"no","path":"n1/b1/data/ks/t/i","size":10}]}"#
);

const EMPTY: &str = r#"{"columnfamily":"t","keyspace":"ks","objects":[]}"#;

// The text of a table that has a name here; any other word stands for itself.
fn table_of(word: &str) -> &str {
    match word {
        "ONE" => ONE,
        "TWO" => TWO,
        "OTHER" => OTHER,
        "AGAIN" => AGAIN,
        "BAD_DIGEST" => BAD_DIGEST,
        "FOREIGN" => FOREIGN,
        "BAD_AND_FOREIGN" => BAD_AND_FOREIGN,
        "EMPTY" => EMPTY,
        "nothing" => "",
        other => other,
    }
}

// The list of three tables.
fn list_of(alloc: Global, words: &str) -> Option<String> {
    let (first, rest) = words.split_once(' ')?;
    let (second, third) = rest.split_once(' ')?;
    let (first, second, third) = (table_of(first), table_of(second), table_of(third));
    format!(in alloc; "[{first},{second},{third}]").ok()
}

fn is_right(alloc: Global, row: &str) -> Option<bool> {
    let (words, answer) = row.split_once(" => ")?;
    let text = list_of(alloc, words)?;
    is_read(alloc, "", text.as_bytes(), answer)
}

// The first row whose three tables aren't read as it says.
fn first_wrong_list<'a>(alloc: Global, table: &'a str) -> Option<&'a str> {
    for row in table.split('\n') {
        if is_right(alloc, row) != Some(true) {
            return Some(row);
        }
    }
    None
}

const LISTS: &str = "\
ONE TWO OTHER => files n1/data/ks/t/f 3; n1/b2/data/ks/t/g 4; n1/data/ks/t/h 5; n1/data/ks/u/f 6;
ONE EMPTY EMPTY => files n1/data/ks/t/f 3;
ONE TWO ONE => duplicate <n1/data/ks/t/f>
ONE OTHER AGAIN => duplicate <n1/b2/data/ks/t/f>
ONE AGAIN FOREIGN => duplicate <n1/b2/data/ks/t/f>
ONE BAD_DIGEST FOREIGN => bad digest 1
ONE TWO BAD_DIGEST => bad digest 3
TWO EMPTY BAD_AND_FOREIGN => bad digest 2
ONE FOREIGN BAD_DIGEST => foreign <n1/b1/data/ks/t/i>
BAD_DIGEST FOREIGN {} => not manifest 2
BAD_DIGEST {} 1 => not manifest 1
BAD_DIGEST {} nothing => not json";

#[test]
fn the_first_fault_of_several_tables_is_told(rt: HostRuntime) {
    assert_eq!(rt; first_wrong_list(rt.alloc(), LISTS), None);
}

// Whether a path is read under the prefix p/q as the answer says.
fn is_under_prefix(alloc: Global, path: &str, answer: &str) -> Option<bool> {
    is_cell_read(alloc, "p/q", PATH, path, answer)
}

#[test]
fn a_prefix_stands_before_each_path(rt: HostRuntime) {
    let under = is_under_prefix(
        rt.alloc(),
        r#""p/q/n1/data/ks/t/f""#,
        "files p/q/n1/data/ks/t/f 1;",
    );
    assert_eq!(rt; under, Some(true));
    let beside = is_under_prefix(
        rt.alloc(),
        r#""n1/data/ks/t/f""#,
        "foreign <n1/data/ks/t/f>",
    );
    assert_eq!(rt; beside, Some(true));
}
