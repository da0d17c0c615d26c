//! JSON values as texts have them: the value of a text, and what stands at a key.
//!
//! `read_value` reads a text, and the look-ups tell what an object has at a key: a text, a whole
//! number, a truth value or a list. Each says by a definition over the tree what it gives.
//! `borrowed` has the same for values that borrow their texts. Read `specs/Tree.antt` first.
#![tactic(auto)]

pub mod borrowed;
mod finite;
mod keys;
mod number;
mod read;

pub use keys::{list_in, number_in, text_in, text_or_empty_in, truth_in};
pub use read::{JsonError, read_value};
