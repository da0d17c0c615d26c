//! Token maps: the hosts of a ring with their tokens, read from JSON and written as JSON.
//!
//! `Ring::read` refuses whatever is no token map and says why, and `Ring::write` gives the
//! canonical text, which is read to the same ring again.
//! Read `specs/Ring.antt` first: it says what a token map is, by the tree of its text.
#![tactic(auto)]

mod error;
mod host;
mod laws;
mod members;
mod repeats;
mod ring;
mod written;

pub use error::{RingError, RingWhy};
pub use laws::one_ring_of_bytes;
pub use ring::{Host, Ring};
