// A part of a path, seen as its bytes.
ghost use Rattle.std.specs.Prelude.{◌≡◌, None, IfOk, IfErr};
ghost use Rattle.med_base.specs.Names.{component_fault, Blames};

use crate::names::{accepted, fault_in, is_dots};
use crate::{NameError, NoMemory};
use std::alloc::Global;
use std::marker::Model;

/// The place at which a text first fails to be a component.
pub(crate) fn fault_in_component(text: &[u8]) -> Option<usize>
    ensures { result ≡ component_fault text.now }
{
    fault_in(text, is_dots(text), 255)
}

/// A part of a path: 1 to 255 bytes of UTF-8, none of them `/`, NUL or line feed, and neither `.`
/// nor `..`.
#[derive(Debug, Drop)]
pub struct Component {
    text: String,
}

impl Model for Component {
    ghost use Rattle.std.specs.Prelude.{◌≡◌, List, ℕ, string_bytes, None};
    ghost use Rattle.med_base.specs.Names.{component_fault};

    ghost Value = { List ℕ };

    ghost view = { λ c. string_bytes c.text };

    ghost invariant = { λ c. component_fault (string_bytes c.text) ≡ None };
}

impl Component {
    /// The component of that text.
    pub fn read(alloc: Global, text: &str) -> Result<Component, NameError>
        ensures ok { IfOk result (λ name. name ≡ text.now) }
        ensures fits { IfOk result (λ name. component_fault name ≡ None) }
        ensures err { IfErr result (Blames (component_fault text.now)) }
    {
        let text = accepted(alloc, text, fault_in_component(text.as_bytes()))?;
        Ok(Component { text })
    }

    pub fn as_str(&self) -> &str
        ensures value { result.now ≡ self.now }
        ensures fits { component_fault self.now ≡ None }
    {
        self.text.as_str()
    }

    /// An equal component.
    pub fn copy(&self, alloc: Global) -> Result<Component, NoMemory>
        ensures { IfOk result (λ name. name ≡ self.now) }
    {
        let text = String::from_str(alloc, self.text.as_str())?;
        Ok(Component { text })
    }
}
