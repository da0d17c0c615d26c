// Where a text first fails to be a prefix.
ghost use Rattle.std.specs.Prelude.{◌≡◌};
ghost use Rattle.med_base.specs.Prefix.{parts, is_bad_part, bad_part_at, prefix_fault};

use crate::cut::cut_at;
use crate::names::{begins_with_a_dot, fault_in, is_dots};

fn is_bad(part: &[u8]) -> bool
    ensures { result ≡ is_bad_part part.now }
{
    fault_in(part, is_dots(part), 255).is_some() || begins_with_a_dot(part)
}

// The start of the first bad part.
fn bad_part(prefix: &[u8]) -> Option<usize>
    ensures { result ≡ bad_part_at 0 (parts prefix.now) }
{
    let mut start = 0;
    let mut rest = Some(prefix);
    'parts: while let Some(left) = rest {
        let (part, after) = cut_at(left, b'/');
        if is_bad(part) {
            return Some(start);
        }
        if after.is_some() {
            start += part.len() + 1;
        }
        rest = after;
    }
    None
}

/// The place at which a text first fails to be a prefix.
pub(crate) fn fault_in_prefix(prefix: &[u8]) -> Option<usize>
    ensures { result ≡ prefix_fault prefix.now }
{
    if prefix.is_empty() {
        return None;
    }
    let is_long = 512 < prefix.len();
    match bad_part(prefix) {
        Some(at) if is_long => Some(at.min(512)),
        Some(at) => Some(at),
        None if is_long => Some(512),
        None => None,
    }
}
