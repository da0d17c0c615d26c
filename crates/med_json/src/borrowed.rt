//! Values over the text that they were read from, which read several times faster than those that
//! own their texts. The tree of a value, and what stands at a key of it, mean the same.
ghost use Rattle.std.specs.Prelude.{◌≡◌, ◌≢◌, Some, None, IfOk, IfErr, IfSome, map, option_map};
ghost use Rattle.std.specs.List.{AllByRecursion};
ghost use Rattle.json.specs.declared.error.Error.TheVariants.{OutOfMemory};
ghost use Rattle.serde_json.specs.Find.{as_array};
ghost use Rattle.serde_json.specs.Read.{read};
ghost use Rattle.med_json.specs.Blames.{BlamesText};
ghost use Rattle.med_json.specs.Borrowed.{HasTree, tree_of};
ghost use Rattle.med_json.specs.Tree.{IsText, items_in, text_at, number_at, list_at};

use crate::JsonError;
use crate::finite::has_tree;
use crate::number::whole_number;
use json::{Error, Reader, Scratch, Value};
use std::alloc::Global;

// How deep arrays and objects may nest.
const MAX_DEPTH: usize = 127;

// The value that a text is, if each of its numbers is finite.
fn read_text<'a>(alloc: Global, text: &'a str, scratch: &'a mut Scratch) -> Result<Value<'a>, Error>
    ensures ok { IfOk result (λ value. HasTree value × (read text.now ≡ Some (tree_of value))) }
    ensures err { IfErr result (λ e. e ≢ OutOfMemory → read text.now ≡ None) }
{
    let mut reader = Reader::new(text, scratch)?;
    let value = Value::read(alloc, &mut reader, MAX_DEPTH)?;
    if reader.next().is_none() && has_tree(&value) {
        Ok(value)
    } else {
        Err(Error::Invalid)
    }
}

/// The value whose text these bytes are, with the rules of [`crate::read_value`]. The texts in it
/// are those of the bytes, or stand unescaped in `scratch`.
pub fn read_value<'a>(
    alloc: Global,
    bytes: &'a [u8],
    scratch: &'a mut Scratch,
) -> Result<Value<'a>, JsonError>
    ensures ok { IfOk result (λ value. IsText bytes.now (tree_of value)) }
    ensures tree { IfOk result HasTree }
    ensures err { IfErr result (BlamesText bytes.now) }
{
    let Ok(text) = simdutf8::compat::from_utf8(bytes) else {
        return Err(JsonError::NotJson);
    };
    match read_text(alloc, text, scratch) {
        Ok(value) => Ok(value),
        Err(Error::OutOfMemory) => Err(JsonError::Memory),
        Err(_) => Err(JsonError::NotJson),
    }
}

/// The items of a list.
pub fn items_of<'v, 'a>(value: &'v Value<'a>) -> Option<&'v [Value<'a>]>
    ensures value { HasTree value.now → option_map (λ s. map tree_of s.now) result
        ≡ option_map items_in (as_array (tree_of value.now)) }
    ensures tree { HasTree value.now → IfSome result (λ s. AllByRecursion HasTree s.now) }
{
    if let Value::Array(list) = value {
        Some(list.as_slice())
    } else {
        None
    }
}

/// The text at a key.
pub fn text_in<'a>(value: &Value<'a>, key: &str) -> Option<&'a str>
    ensures value { HasTree value.now
        → option_map (λ s. s.now) result ≡ text_at key.now (tree_of value.now) }
{
    value.get(key)?.as_str()
}

/// The whole number from 0 to 2^64-1 at a key, written with digits alone.
pub fn number_in(value: &Value<'_>, key: &str) -> Option<u64>
    ensures value { HasTree value.now → result ≡ number_at key.now (tree_of value.now) }
{
    whole_number(value.get(key)?.as_number()?)
}

/// The items of the list at a key.
pub fn list_in<'v, 'a>(value: &'v Value<'a>, key: &str) -> Option<&'v [Value<'a>]>
    ensures value { HasTree value.now → option_map (λ s. map tree_of s.now) result
        ≡ list_at key.now (tree_of value.now) }
    ensures tree { HasTree value.now → IfSome result (λ s. AllByRecursion HasTree s.now) }
{
    items_of(value.get(key)?)
}
