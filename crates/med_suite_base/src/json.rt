// Texts of JSON, and what they have at a key.
use crate::cells::{is_number, is_text};
use med_json::{JsonError, list_in, number_in, read_value, text_in, text_or_empty_in, truth_in};
use serde_json::Value;
use std::alloc::Global;
use std::test::Fail;

// What a reader says of bytes: `json`, `none` or `memory`.
fn reading(alloc: Global, bytes: &[u8]) -> &'static str {
    match read_value(alloc, bytes) {
        Ok(_) => "json",
        Err(JsonError::NotJson) => "none",
        Err(JsonError::Memory) => "memory",
    }
}

// Whether a row is right: TEXT|READING.
fn is_text_right(alloc: Global, row: &str) -> Option<bool> {
    let (text, expected) = row.split_once('|')?;
    Some(reading(alloc, text.as_bytes()) == expected)
}

const TEXTS: &str = "\
{}|json
 [1, {\"a\":null}] |json
true|json
\"\\ud83d\\ude00\"|json
\"\\ud83d\"|none
|none
{|none
{} {}|none
03|none
[1,]|none
{\"a\"}|none
\u{feff}{}|none";

#[test]
fn texts_are_json_or_not(rt: HostRuntime) {
    for row in TEXTS.split('\n') {
        assert_eq!(rt; is_text_right(rt.alloc(), row), Some(true), "at {row}");
    }
    assert_eq!(rt; reading(rt.alloc(), &[34, 255, 34]), "none");
}

const OBJECT: &str = concat!(
    r#"{"text":"x","empty":"","null":null,"last":1,"l\u0061st":"y","zero":0,"minus":-0,"#,
    r#""point":1.0,"power":1e0,"most":18446744073709551615,"more":18446744073709551616,"#,
    r#""yes":true,"no":false,"list":["x",2],"none":[]}"#
);

// Whether a truth value is what its cell says: `true`, `false` or `none`.
fn is_truth(answer: Option<bool>, cell: &str) -> bool {
    match answer {
        Some(true) => cell == "true",
        Some(false) => cell == "false",
        None => cell == "none",
    }
}

// How many items the list at a key has.
fn length_at(value: &Value, key: &str) -> Option<u64> {
    Some(list_in(value, key)?.len() as u64)
}

// Whether a row is right: KEY|TEXT|TEXT OR EMPTY|NUMBER|TRUTH VALUE|LENGTH OF THE LIST.
fn is_key_right(value: &Value, row: &str) -> Option<bool> {
    let (key, rest) = row.split_once('|')?;
    let (text, rest) = rest.split_once('|')?;
    let (text_or_empty, rest) = rest.split_once('|')?;
    let (number, rest) = rest.split_once('|')?;
    let (truth, length) = rest.split_once('|')?;
    Some(
        is_text(text_in(value, key), text)
            && is_text(text_or_empty_in(value, key), text_or_empty)
            && is_number(number_in(value, key), number)
            && is_truth(truth_in(value, key), truth)
            && is_number(length_at(value, key), length),
    )
}

// The first row that isn't right.
fn first_wrong<'a>(value: &Value, table: &'a str) -> Option<&'a str> {
    for row in table.split('\n') {
        if is_key_right(value, row) != Some(true) {
            return Some(row);
        }
    }
    None
}

const TEXT_KEYS: &str = "\
text|=x|=x|none|none|none
empty|=|=|none|none|none
last|=y|=y|none|none|none
absent|none|=|none|none|none
null|none|none|none|none|none
zero|none|none|0|none|none
list|none|none|none|none|2";

#[test]
fn a_text_stands_at_a_key(rt: HostRuntime) -> Result<(), Fail> {
    let value = read_value(rt.alloc(), OBJECT.as_bytes())?;
    assert_eq!(rt; first_wrong(&value, TEXT_KEYS), None);
    Ok(())
}

const NUMBER_AND_TRUTH_KEYS: &str = "\
zero|none|none|0|none|none
most|none|none|18446744073709551615|none|none
more|none|none|none|none|none
minus|none|none|none|none|none
point|none|none|none|none|none
power|none|none|none|none|none
text|=x|=x|none|none|none
absent|none|=|none|none|none
yes|none|none|none|true|none
no|none|none|none|false|none
null|none|none|none|none|none";

#[test]
fn a_number_and_a_truth_value_stand_at_a_key(rt: HostRuntime) -> Result<(), Fail> {
    let value = read_value(rt.alloc(), OBJECT.as_bytes())?;
    assert_eq!(rt; first_wrong(&value, NUMBER_AND_TRUTH_KEYS), None);
    Ok(())
}

const LIST_KEYS: &str = "\
list|none|none|none|none|2
none|none|none|none|none|0
text|=x|=x|none|none|none
null|none|none|none|none|none
absent|none|=|none|none|none";

#[test]
fn a_list_stands_at_a_key(rt: HostRuntime) -> Result<(), Fail> {
    let value = read_value(rt.alloc(), OBJECT.as_bytes())?;
    assert_eq!(rt; first_wrong(&value, LIST_KEYS), None);
    Ok(())
}
