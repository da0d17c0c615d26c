// Why bytes are no token map.
ghost use Rattle.std.specs.Prelude.{IfOk, IfErr};
ghost use Rattle.serde_json.specs.View.{view};
ghost use Rattle.med_base.specs.Memory.{WhyIs};
ghost use Rattle.med_json.specs.Tree.{IsText};
ghost use Rattle.med_ring.specs.Blames.{IsRefused};
ghost use Rattle.med_ring.specs.Members.{IsNotRingOf, IsRangeOf};

use med_base::OrMemory;
use med_json::{JsonError, read_value};
use serde_json::Value;
use std::alloc::{AllocError, Global};

/// Why bytes are no token map.
#[derive(Drop)]
pub enum RingWhy {
    /// The bytes aren't UTF-8, or no JSON text that nests at most 127 deep.
    NotJson,
    /// The value is no object, and the host is empty; or it is the first host in byte order that
    /// has a fault, and either its name is none of a node, or its value isn't an object with a list
    /// `tokens` of numbers, a truth value `is_up`, and `rack` and `dc` texts or absent.
    NotRing { host: String },
    /// The first host in byte order that has a fault has the right form, but a token of it isn't a
    /// whole number from -2^63 to 2^63-1 written with an optional minus and digits, or is `-0`.
    TokenRange { host: String },
    /// No host has a fault, and this is the first token, hosts in byte order and tokens in their
    /// order, that stood before.
    TokenTwice { token: i64 },
}

/// Why no ring was read: `Why` where the bytes are no token map, and `Memory` where there was no
/// memory for the ring, or for the name of the host at fault.
pub type RingError = OrMemory<RingWhy>;

/// The tree of a text, or why it has none.
pub(crate) fn read_tree(alloc: Global, bytes: &[u8]) -> Result<Value, RingError>
    ensures ok { IfOk result (λ value. IsText bytes.now (view value)) }
    ensures err { IfErr result (WhyIs (IsRefused bytes.now)) }
{
    match read_value(alloc, bytes) {
        Ok(value) => Ok(value),
        Err(JsonError::NotJson) => Err(RingError::Why(RingWhy::NotJson)),
        Err(JsonError::Memory) => Err(RingError::Memory),
    }
}

/// That the host of this name is misshapen.
pub(crate) fn not_ring(alloc: Global, name: &str) -> RingError
    ensures { WhyIs (IsNotRingOf name.now) result }
{
    match String::from_str(alloc, name) {
        Ok(host) => RingError::Why(RingWhy::NotRing { host }),
        Err(AllocError) => RingError::Memory,
    }
}

/// That a token of the host of this name is out of range.
pub(crate) fn token_range(alloc: Global, name: &str) -> RingError
    ensures { WhyIs (IsRangeOf name.now) result }
{
    match String::from_str(alloc, name) {
        Ok(host) => RingError::Why(RingWhy::TokenRange { host }),
        Err(AllocError) => RingError::Memory,
    }
}
