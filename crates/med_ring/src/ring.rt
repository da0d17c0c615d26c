// A ring: its hosts, in byte order of their names.
ghost use Rattle.std.specs.Prelude.{◌≡◌, Some, IfOk, IfErr, map, option_map};
ghost use Rattle.std.specs.Str.{IsUtf8};
ghost use Rattle.serde_json.specs.Read.{read};
ghost use Rattle.med_base.specs.Memory.{WhyIs};
ghost use Rattle.med_ring.specs.Blames.{IsRefused, HasNoRing};
ghost use Rattle.med_ring.specs.Host.{host_view, KeepsRules, TellsHost, TellsTokens};
ghost use Rattle.med_ring.specs.Ring.{IsRing};
ghost use Rattle.med_ring.specs.Written.{ring_text, ring_data};

use crate::RingError;
use crate::error::{not_ring, read_tree};
use crate::members::read_hosts;
use crate::repeats::check_tokens;
use crate::written::ring_value;
use med_base::{Fqdn, NoMemory};
use std::alloc::Global;
use std::marker::Model;

/// A host of a ring.
#[derive(Drop)]
pub struct Host {
    pub name: Fqdn,
    pub tokens: Vec<i64>,
    pub is_up: bool,
    pub rack: String,
    pub dc: String,
}

/// The hosts of a cluster with their tokens, in byte order of their names. No name and no token
/// stands twice.
#[derive(Drop)]
pub struct Ring {
    hosts: Vec<Host>,
}

impl Model for Ring {
    ghost use Rattle.std.specs.Prelude.{List, map};
    ghost use Rattle.med_ring.specs.Host.{RingHost, host_view, KeepsRules};

    ghost Value = { List RingHost };

    ghost view = { λ r. map host_view r.hosts.items };

    ghost invariant = { λ r. KeepsRules (map host_view r.hosts.items) };
}

impl Ring {
    /// The ring of a token map in JSON. Refused are, in this order: bytes that are no JSON; a value
    /// that is no object; the first host in byte order that is misshapen or has a token out of
    /// range; and the first token that stands twice. Of a repeated key the last counts, and keys
    /// that aren't asked for pass. Each `RingWhy` says when it comes.
    pub fn read(alloc: Global, bytes: &[u8]) -> Result<Ring, RingError>
        ensures ok { IfOk result (IsRing bytes.now) }
        ensures fits { IfOk result KeepsRules }
        ensures err { IfErr result (WhyIs (IsRefused bytes.now)) }
        ensures refused { IfErr result (WhyIs (λ _. HasNoRing bytes.now)) }
    {
        let tree = read_tree(alloc, bytes)?;
        let Some(members) = tree.as_object() else {
            return Err(not_ring(alloc, ""));
        };
        let hosts = read_hosts(alloc, members)?;
        check_tokens(alloc, hosts.as_slice())?;
        Ok(Ring { hosts })
    }

    /// The canonical text of the token map, in UTF-8. It is read to the same hosts again.
    pub fn write(&self, alloc: Global) -> Result<Vec<u8>, NoMemory>
        ensures text { IfOk result (λ text. text.items ≡ ring_text self.now) }
        ensures utf8 { IfOk result (λ text. IsUtf8 text.items) }
        ensures reads_back { IfOk result (λ text. read text.items ≡ Some (ring_data self.now)) }
        ensures names { IfOk result (λ text. IsRing text.items self.now) }
    {
        let value = ring_value(alloc, self.hosts.as_slice())?;
        let text = value.to_string(alloc)?;
        Ok(text.into_bytes())
    }

    /// The tokens of the host of that name, in their order, or `None` where the ring has no such
    /// host.
    pub fn tokens_of(&self, host: &Fqdn) -> Option<&[i64]>
        ensures value { TellsTokens self.now host.now (option_map (λ s. s.now) result) }
    {
        match host_named(self.hosts.as_slice(), host.as_str()) {
            Some(found) => Some(found.tokens.as_slice()),
            None => None,
        }
    }

    /// The hosts, in byte order of their names.
    pub fn hosts(&self) -> &[Host]
        ensures value { map host_view result.now ≡ self.now }
        ensures fits { KeepsRules self.now }
    {
        self.hosts.as_slice()
    }
}

fn host_named<'a>(hosts: &'a [Host], name: &str) -> Option<&'a Host>
    ensures { TellsHost (map host_view hosts.now) name.now
        (option_map (λ h. host_view h.now) result) }
{
    for host in hosts {
        if host.name.as_str() == name {
            return Some(host);
        }
    }
    None
}
