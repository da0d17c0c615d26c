// Tokens that stand twice.
ghost use Rattle.std.specs.Prelude.{◌≡◌, ◌++◌, OnOk, IfErr, map};
ghost use Rattle.std.specs.List.{IsDistinct};
ghost use Rattle.std.specs.Ordering.{int_eq};
ghost use Rattle.med_base.specs.Memory.{WhyIs};
ghost use Rattle.med_ring.specs.Host.{host_view, tokens_in};
ghost use Rattle.med_ring.specs.Twice.{AreTokensRefused};

use crate::{Host, RingError, RingWhy};
use indexmap::IndexSet;
use std::alloc::Global;

/// The tokens of all hosts differ, or the first that stood before is told.
pub(crate) fn check_tokens(alloc: Global, hosts: &[Host]) -> Result<(), RingError>
    ensures ok { OnOk result (IsDistinct int_eq (tokens_in (map host_view hosts.now))) }
    ensures err { IfErr result
        (WhyIs (AreTokensRefused (tokens_in (map host_view hosts.now)))) }
{
    let mut seen = IndexSet::new(alloc);
    for host in hosts {
        add_tokens(&mut seen, host.tokens.as_slice())?;
    }
    Ok(())
}

// The tokens go behind those seen before.
fn add_tokens(seen: &mut IndexSet<i64>, tokens: &[i64]) -> Result<(), RingError>
    requires { IsDistinct int_eq seen.old.keys }
    ensures ok { OnOk result (seen.new.keys ≡ seen.old.keys ++ tokens.now) }
    ensures fits { OnOk result (IsDistinct int_eq seen.new.keys) }
    ensures err { IfErr result (WhyIs (AreTokensRefused (seen.old.keys ++ tokens.now))) }
{
    for token in tokens {
        let is_new = seen.insert(*token)?;
        if !is_new {
            return Err(RingError::Why(RingWhy::TokenTwice { token: *token }));
        }
    }
    Ok(())
}
