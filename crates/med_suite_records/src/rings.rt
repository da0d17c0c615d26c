// Token maps and the answer to each, by the rules of the format. An answer is the canonical text of
// the ring that is read, or the cause.
use med_base::Fqdn;
use med_ring::{Host, Ring, RingError, RingWhy};
use std::alloc::Global;

fn why_told(alloc: Global, why: &RingWhy) -> Option<String> {
    match why {
        RingWhy::NotJson => String::from_str(alloc, "not json").ok(),
        RingWhy::NotRing { host } => {
            let host = host.as_str();
            format!(in alloc; "bad host <{host}>").ok()
        }
        RingWhy::TokenRange { host } => {
            let host = host.as_str();
            format!(in alloc; "out of range <{host}>").ok()
        }
        RingWhy::TokenTwice { token } => format!(in alloc; "twice {token}").ok(),
    }
}

fn is_text_of(alloc: Global, ring: &Ring, answer: &str) -> Option<bool> {
    let text = ring.write(alloc).ok()?;
    Some(text.as_slice() == answer.as_bytes())
}

fn is_cause(alloc: Global, why: &RingWhy, answer: &str) -> Option<bool> {
    let told = why_told(alloc, why)?;
    Some(told.as_str() == answer)
}

// Whether bytes are read as the answer says.
fn is_read(alloc: Global, bytes: &[u8], answer: &str) -> Option<bool> {
    match Ring::read(alloc, bytes) {
        Ok(ring) => is_text_of(alloc, &ring, answer),
        Err(RingError::Why(why)) => is_cause(alloc, &why, answer),
        Err(RingError::Memory) => None,
    }
}

// Whether the text with the cell in the place of `$` is read as the answer says.
fn is_cell_read(alloc: Global, text: &str, cell: &str, answer: &str) -> Option<bool> {
    let whole = text.replace(alloc, '$', cell).ok()?;
    is_read(alloc, whole.as_bytes(), answer)
}

// The host n1, up, with no more.
const PLAIN: &str = r#"{"n1":{"dc":"","is_up":true,"rack":"","tokens":[]}}"#;

// The answer of a row, in which `plain` stands for the text above.
fn answer_of(answer: &str) -> &str {
    match answer {
        "plain" => PLAIN,
        other => other,
    }
}

fn is_right(alloc: Global, text: &str, row: &str) -> Option<bool> {
    let row = row.replace(alloc, '\u{b6}', "\n").ok()?;
    let (cell, answer) = row.as_str().split_once(" => ")?;
    is_cell_read(alloc, text, cell, answer_of(answer))
}

// The first row of the table that isn't read as it says, its cell in the text.
fn first_wrong<'a>(alloc: Global, text: &str, table: &'a str) -> Option<&'a str> {
    for row in table.split('\n') {
        if is_right(alloc, text, row) != Some(true) {
            return Some(row);
        }
    }
    None
}

const WHOLE: &str = r#"{} => {}
{"n1":{"tokens":[7],"is_up":true},"n\u0031":5} => bad host <n1>
[] => bad host <>
5 => bad host <>
null => bad host <>
"n1" => bad host <>
{"n1":[]} => bad host <n1>
{"n1":5} => bad host <n1>
{"n1":null} => bad host <n1>
{"n1":{}} => bad host <n1>
 => not json
{ => not json
{} {} => not json
{"n1"} => not json"#;

const ONE_HOST: &str = concat!(
    r#"{"n1":{"tokens":[1,2],"is_up":true,"rack":"r","dc":"d"}} => "#,
    r#"{"n1":{"dc":"d","is_up":true,"rack":"r","tokens":[1,2]}}"#
);

const TWO_HOSTS: &str = concat!(
    r#" { "b" : {"tokens":[ 2 ],"is_up":true} , "a" : {"tokens":[],"is_up":false} }  => "#,
    r#"{"a":{"dc":"","is_up":false,"rack":"","tokens":[]},"#,
    r#""b":{"dc":"","is_up":true,"rack":"","tokens":[2]}}"#
);

const LAST_COUNTS: &str = concat!(
    r#"{"n1":5,"n\u0031":{"tokens":[7],"is_up":true}} => "#,
    r#"{"n1":{"dc":"","is_up":true,"rack":"","tokens":[7]}}"#
);

#[test]
fn whole_texts(rt: HostRuntime) {
    assert_eq!(rt; first_wrong(rt.alloc(), "$", WHOLE), None);
    assert_eq!(rt; first_wrong(rt.alloc(), "$", ONE_HOST), None);
    assert_eq!(rt; first_wrong(rt.alloc(), "$", TWO_HOSTS), None);
    assert_eq!(rt; first_wrong(rt.alloc(), "$", LAST_COUNTS), None);
    assert_eq!(rt;
        first_wrong(rt.alloc(), "$", "\u{feff}{} => not json"),
        None
    );
}

const FIRST_FAULTS: &str =
    r#"{"b":{"tokens":[],"is_up":1},"a":{"tokens":[-0],"is_up":true}} => out of range <a>
{"b":{"tokens":[-0],"is_up":true},"a":{"tokens":[],"is_up":1}} => bad host <a>
{"a":{"tokens":[-0],"is_up":1}} => bad host <a>
{"a":{"tokens":[-0,"x"],"is_up":true}} => bad host <a>
{"index":{"tokens":[-0],"is_up":true}} => bad host <index>
{"b":{"tokens":[5],"is_up":true},"a":{"tokens":[5],"is_up":true}} => twice 5
{"b":{"tokens":[3,2],"is_up":true},"a":{"tokens":[1,2,3],"is_up":true}} => twice 3
{"b":{"tokens":[4,9],"is_up":true},"a":{"tokens":[9,4],"is_up":true}} => twice 4
{"a":{"tokens":[1,2,2,1],"is_up":true}} => twice 2
{"a":{"tokens":[-7,-7],"is_up":true}} => twice -7
{"a":{"tokens":[1,1],"is_up":true},"b":5} => bad host <b>
{"a":{"tokens":[1,1],"is_up":true},"b":{"tokens":[1e3],"is_up":true}} => out of range <b>"#;

#[test]
fn the_first_fault_decides(rt: HostRuntime) {
    assert_eq!(rt; first_wrong(rt.alloc(), "$", FIRST_FAULTS), None);
}

#[test]
fn other_bytes_than_utf_8_are_no_json(rt: HostRuntime) {
    assert_eq!(rt; is_read(rt.alloc(), b"\xff", "not json"), Some(true));
    assert_eq!(rt;
        is_read(rt.alloc(), b"{\"\xff\":5}", "not json"),
        Some(true)
    );
    let within = b"{\"n1\":{\"tokens\":[],\"is_up\":true,\"x\":\"\xc3\"}}";
    assert_eq!(rt; is_read(rt.alloc(), within, "not json"), Some(true));
}

// One host n1, up, whose list of tokens is the cell.
const TOKENS: &str = r#"{"n1":{"is_up":true,"tokens":$}}"#;

const LISTS: &str = r#"[9223372036854775808] => out of range <n1>
[-9223372036854775809] => out of range <n1>
[18446744073709551616] => out of range <n1>
[-0] => out of range <n1>
[1.5] => out of range <n1>
[1.0] => out of range <n1>
[1e3] => out of range <n1>
[1,2,1e0] => out of range <n1>
["1"] => bad host <n1>
[null] => bad host <n1>
[true] => bad host <n1>
[[1]] => bad host <n1>
null => bad host <n1>
{} => bad host <n1>
1 => bad host <n1>
"1" => bad host <n1>
[01] => not json
[+1] => not json
[1,] => not json"#;

const LARGEST: &str = concat!(
    r#"[9223372036854775807] => "#,
    r#"{"n1":{"dc":"","is_up":true,"rack":"","tokens":[9223372036854775807]}}"#
);

const LEAST: &str = concat!(
    r#"[-9223372036854775808,0] => "#,
    r#"{"n1":{"dc":"","is_up":true,"rack":"","tokens":[-9223372036854775808,0]}}"#
);

#[test]
fn tokens_are_whole_numbers_of_64_bits(rt: HostRuntime) {
    assert_eq!(rt; first_wrong(rt.alloc(), TOKENS, LISTS), None);
    assert_eq!(rt; first_wrong(rt.alloc(), TOKENS, LARGEST), None);
    assert_eq!(rt; first_wrong(rt.alloc(), TOKENS, LEAST), None);
}

// One host n1 whose value has these members.
const MEMBERS_OF_N1: &str = r#"{"n1":{$}}"#;

const MEMBERS: &str = r#""tokens":[],"is_up":true => plain
"tokens":[],"is_up":true,"rack":"","dc":"" => plain
"tokens":[],"is_up":true,"Rack":5,"load":[null] => plain
"tokens":5,"is_up":"no","tokens":[],"is_up":true => plain
"tokens":[],"is_up":true,"rack":5,"rack":"" => plain
"tokens":[],"is_up":true,"is_up":"no" => bad host <n1>
"tokens":[],"is_up":true,"rack":"","rack":5 => bad host <n1>
"tokens":[] => bad host <n1>
"is_up":true => bad host <n1>
"tokens":[],"is_up":1 => bad host <n1>
"tokens":[],"is_up":null => bad host <n1>
"tokens":[],"is_up":"true" => bad host <n1>
"tokens":[],"is_up":true,"rack":null => bad host <n1>
"tokens":[],"is_up":true,"rack":["r"] => bad host <n1>
"tokens":[],"is_up":true,"dc":null => bad host <n1>
"tokens":[],"is_up":true,"dc":1 => bad host <n1>"#;

const ESCAPED: &str = concat!(
    r#""tokens":[],"is_up":true,"rack":"\"\\\t\u001f\u007f\u00e9\/","dc":"DC 1" => "#,
    r#"{"n1":{"dc":"DC 1","is_up":true,"rack":"\"\\\t\u001f"#,
    "\u{7f}\u{e9}/",
    r#"","tokens":[]}}"#
);

#[test]
fn members_of_a_host(rt: HostRuntime) {
    assert_eq!(rt; first_wrong(rt.alloc(), MEMBERS_OF_N1, MEMBERS), None);
    assert_eq!(rt; first_wrong(rt.alloc(), MEMBERS_OF_N1, ESCAPED), None);
}

// One host without tokens, whose name is the cell.
const NAME: &str = r#"{$:{"is_up":true,"tokens":[]}}"#;

const NAMES: &str = r#""" => bad host <>
"index" => bad host <index>
".a" => bad host <.a>
"a/b" => bad host <a/b>
"a\nb" => bad host <a¶b>
"a b\"" => {"a b\"":{"dc":"","is_up":true,"rack":"","tokens":[]}}
"\u00e9" => {"é":{"dc":"","is_up":true,"rack":"","tokens":[]}}"#;

#[test]
fn hosts_have_names_of_nodes(rt: HostRuntime) {
    assert_eq!(rt; first_wrong(rt.alloc(), NAME, NAMES), None);
}

// Whether a host whose name has so many bytes is read as the answer says, with the name in it.
fn is_length_read(alloc: Global, length: usize, answer: &str) -> Option<bool> {
    let name = "a".repeat(alloc, length).ok()?;
    let answer = answer.replace(alloc, '$', name.as_str()).ok()?;
    let text = r#"{"$":{"is_up":true,"tokens":[]}}"#;
    is_cell_read(alloc, text, name.as_str(), answer.as_str())
}

#[test]
fn names_end_at_200_bytes(rt: HostRuntime) {
    let whole = r#"{"$":{"dc":"","is_up":true,"rack":"","tokens":[]}}"#;
    assert_eq!(rt; is_length_read(rt.alloc(), 200, whole), Some(true));
    assert_eq!(rt; is_length_read(rt.alloc(), 201, "bad host <$>"), Some(true));
}

// Whether a host with a list in so many lists beside its tokens is read as the answer says.
fn is_depth_read(alloc: Global, depth: usize, answer: &str) -> Option<bool> {
    let front = "[".repeat(alloc, depth).ok()?;
    let back = "]".repeat(alloc, depth).ok()?;
    let (front, back) = (front.as_str(), back.as_str());
    let members = format!(in alloc; "\"tokens\":[],\"is_up\":true,\"x\":{front}{back}").ok()?;
    is_cell_read(alloc, MEMBERS_OF_N1, members.as_str(), answer)
}

#[test]
fn texts_nest_127_deep(rt: HostRuntime) {
    assert_eq!(rt; is_depth_read(rt.alloc(), 125, PLAIN), Some(true));
    assert_eq!(rt; is_depth_read(rt.alloc(), 126, "not json"), Some(true));
}

// The ring of two hosts.
fn two_hosts(alloc: Global) -> Option<Ring> {
    let text = concat!(
        r#"{"n2":{"tokens":[7,-5],"is_up":false,"rack":"r2","dc":"d2"},"#,
        r#""n1":{"tokens":[3],"is_up":true,"rack":"r1","dc":"d1"}}"#
    );
    Ring::read(alloc, text.as_bytes()).ok()
}

// Whether the ring of two hosts has these tokens of the host of that name.
fn are_tokens_of(alloc: Global, name: &str, tokens: Option<&[i64]>) -> Option<bool> {
    let ring = two_hosts(alloc)?;
    let name = Fqdn::read(alloc, name).ok()?;
    Some(ring.tokens_of(&name) == tokens)
}

#[test]
fn a_host_is_found_by_its_name(rt: HostRuntime) {
    assert_eq!(rt; are_tokens_of(rt.alloc(), "n1", Some(&[3])), Some(true));
    assert_eq!(rt; are_tokens_of(rt.alloc(), "n2", Some(&[7, -5])), Some(true));
    assert_eq!(rt; are_tokens_of(rt.alloc(), "n", None), Some(true));
    assert_eq!(rt; are_tokens_of(rt.alloc(), "n11", None), Some(true));
}

fn is_host_1(host: &Host) -> bool {
    host.name.as_str() == "n1"
        && host.tokens.as_slice() == [3].as_slice()
        && host.is_up
        && host.rack.as_str() == "r1"
        && host.dc.as_str() == "d1"
}

fn is_host_2(host: &Host) -> bool {
    host.name.as_str() == "n2"
        && host.tokens.as_slice() == [7, -5].as_slice()
        && !host.is_up
        && host.rack.as_str() == "r2"
        && host.dc.as_str() == "d2"
}

// Whether the ring of two hosts has the first and then the second.
fn are_in_order(alloc: Global) -> Option<bool> {
    let ring = two_hosts(alloc)?;
    match ring.hosts() {
        [first, second] => Some(is_host_1(first) && is_host_2(second)),
        _ => Some(false),
    }
}

#[test]
fn hosts_stand_in_order_of_their_names(rt: HostRuntime) {
    assert_eq!(rt; are_in_order(rt.alloc()), Some(true));
}
