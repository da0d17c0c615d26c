// Whether each number of a value is finite, so that the value has a tree.
ghost use Rattle.std.specs.Prelude.{◌≡◌, is_some};
ghost use Rattle.json.specs.Value.{value_view, items_view, members_view};
ghost use Rattle.serde_json.specs.Data.{Members};
ghost use Rattle.serde_json.specs.Read.{of_json, of_items, of_members};

use crate::number::is_finite;
use json::Value;

/// Whether each number of a value is finite.
#[cycle(finite)]
pub(crate) fn has_tree(value: &Value<'_>) -> bool
    ensures { result ≡ is_some (of_json (value_view value.now)) }
{
    match value {
        Value::Number(text) => is_finite(text),
        Value::Array(items) => items_have_trees(items),
        Value::Object(members) => members_have_trees(members),
        Value::Null | Value::Bool(_) | Value::String(_) => true,
    }
}

#[cycle(finite)]
fn items_have_trees(items: &Vec<Value<'_>>) -> bool
    ensures { result ≡ is_some (of_items (items_view items.now.items)) }
{
    for item in items {
        if !has_tree(item) {
            return false;
        }
    }
    true
}

#[cycle(finite)]
fn members_have_trees(members: &Vec<(&str, Value<'_>)>) -> bool
    ensures { (found : Members)
        → result ≡ is_some (of_members (members_view members.now.items) found) }
{
    for member in members {
        if !has_tree(&member.1) {
            return false;
        }
    }
    true
}
