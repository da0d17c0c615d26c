// The members of a token map, one by one.
ghost use Rattle.std.specs.Prelude.{IfOk, IfErr, map};
ghost use Rattle.std.specs.List.{AllZip};
ghost use Rattle.serde_json.specs.View.{members_view};
ghost use Rattle.med_base.specs.Memory.{WhyIs};
ghost use Rattle.med_json.specs.Tree.{members_in};
ghost use Rattle.med_ring.specs.Host.{host_view, tokens_in, AreInRange, HasRisingNames};
ghost use Rattle.med_ring.specs.Members.{AreMembersRefused};
ghost use Rattle.med_ring.specs.Ring.{IsHost};

use crate::host::read_host;
use crate::{Host, RingError};
use serde_json::{Map, Value};
use std::alloc::Global;

/// The hosts that the members of an object are, or the fault of the first that is none.
pub(crate) fn read_hosts(
    alloc: Global,
    members: &Map<String, Value>,
) -> Result<Vec<Host>, RingError>
    ensures ok { IfOk result
        (λ v. AllZip IsHost (members_in (members_view members.now.entries))
        (map host_view v.items)) }
    ensures order { IfOk result (λ v. HasRisingNames (map host_view v.items)) }
    ensures bound { IfOk result (λ v. AreInRange (tokens_in (map host_view v.items))) }
    ensures err { IfErr result
        (WhyIs (AreMembersRefused (members_in (members_view members.now.entries)))) }
{
    let mut hosts = Vec::new(alloc);
    for (name, value) in members {
        hosts.push(read_host(alloc, name.as_str(), value)?)?;
    }
    Ok(hosts)
}
