// What an object has at a key. Each look-up gives nothing where the value is no object, where the
// object hasn't the key, and where another type stands there.
ghost use Rattle.std.specs.Prelude.{◌≡◌, map, option_map};
ghost use Rattle.serde_json.specs.View.{view};
ghost use Rattle.med_json.specs.Tree.{text_at, text_or_empty_at, number_at, truth_at, list_at};

use serde_json::Value;

/// The text at a key.
pub fn text_in<'a>(value: &'a Value, key: &str) -> Option<&'a str>
    ensures value { option_map (λ s. s.now) result ≡ text_at key.now (view value.now) }
{
    value.get(key).and_then(Value::as_str)
}

/// The text at a key, empty where the object hasn't the key or the value is no object. `null` is
/// no text.
pub fn text_or_empty_in<'a>(value: &'a Value, key: &str) -> Option<&'a str>
    ensures value { option_map (λ s. s.now) result ≡ text_or_empty_at key.now (view value.now) }
{
    match value.get(key) {
        Some(member) => member.as_str(),
        None => Some(""),
    }
}

/// The whole number from 0 to 2^64-1 at a key, written with digits alone.
pub fn number_in(value: &Value, key: &str) -> Option<u64>
    ensures value { result ≡ number_at key.now (view value.now) }
{
    value.get(key).and_then(Value::as_u64)
}

/// The truth value at a key.
pub fn truth_in(value: &Value, key: &str) -> Option<bool>
    ensures value { result ≡ truth_at key.now (view value.now) }
{
    value.get(key).and_then(Value::as_bool)
}

/// The items of the list at a key.
pub fn list_in<'a>(value: &'a Value, key: &str) -> Option<&'a [Value]>
    ensures value { option_map (λ s. map view s.now) result ≡ list_at key.now (view value.now) }
{
    match value.get(key).and_then(Value::as_array) {
        Some(list) => Some(list.as_slice()),
        None => None,
    }
}
