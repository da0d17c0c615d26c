// The value of a text.
ghost use Rattle.std.specs.Prelude.{◌≡◌, IfOk, IfErr};
ghost use Rattle.serde_json.specs.View.{view};
ghost use Rattle.med_json.specs.Blames.{BlamesText};
ghost use Rattle.med_json.specs.Tree.{IsText};

use serde_json::Value;
use serde_json::error::Category;
use std::alloc::Global;

/// Why no value was read.
#[derive(Clone, Copy, Debug, PartialEq, Eq)]
pub enum JsonError {
    /// The bytes are not UTF-8, or not one JSON value with a nesting of at most 127.
    NotJson,
    /// There was no memory for the value.
    Memory,
}

/// The value whose text these bytes are. Of a repeated key the last counts. A string with half of
/// a surrogate pair is none, and neither is a number too large for a finite float of 64 bits.
pub fn read_value(alloc: Global, bytes: &[u8]) -> Result<Value, JsonError>
    ensures ok { IfOk result (λ value. IsText bytes.now (view value)) }
    ensures err { IfErr result (BlamesText bytes.now) }
{
    match Value::from_slice(alloc, bytes) {
        Ok(value) => Ok(value),
        Err(error) => match error.classify() {
            Category::Memory => Err(JsonError::Memory),
            _ => Err(JsonError::NotJson),
        },
    }
}
