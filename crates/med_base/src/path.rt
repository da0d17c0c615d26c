// The path of an object, seen as its bytes.
ghost use Rattle.std.specs.Prelude.{◌≡◌, IfOk, string_bytes};

use crate::NoMemory;
use std::alloc::Global;
use std::marker::Model;

/// The path of an object in a bucket: any text.
#[derive(Debug, Drop)]
pub struct ObjPath {
    text: String,
}

impl Model for ObjPath {
    ghost use Rattle.std.specs.Prelude.{List, ℕ, string_bytes};

    ghost Value = { List ℕ };

    ghost view = { λ p. string_bytes p.text };
}

impl ObjPath {
    /// The path of that text.
    pub fn of(alloc: Global, text: &str) -> Result<ObjPath, NoMemory>
        ensures { IfOk result (λ path. path ≡ text.now) }
    {
        let text = String::from_str(alloc, text)?;
        Ok(ObjPath { text })
    }

    /// The path that a text is, without a copy.
    pub fn from_string(text: String) -> ObjPath
        ensures { result ≡ string_bytes text }
    {
        ObjPath { text }
    }

    pub fn as_str(&self) -> &str
        ensures { result.now ≡ self.now }
    {
        self.text.as_str()
    }

    /// An equal path.
    pub fn copy(&self, alloc: Global) -> Result<ObjPath, NoMemory>
        ensures { IfOk result (λ path. path ≡ self.now) }
    {
        ObjPath::of(alloc, self.text.as_str())
    }
}
