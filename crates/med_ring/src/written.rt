// The value of a token map, as JSON.
ghost use Rattle.std.specs.Prelude.{◌≡◌, IfOk, map};
ghost use Rattle.serde_json.specs.View.{view};
ghost use Rattle.med_ring.specs.Host.{host_view, HasRisingNames};
ghost use Rattle.med_ring.specs.Written.{token_data, host_data, ring_data};

use crate::Host;
use med_base::NoMemory;
use serde_json::{Map, Value, json};
use std::alloc::Global;

/// The object of hosts that stand in byte order of their names.
pub(crate) fn ring_value(alloc: Global, hosts: &[Host]) -> Result<Value, NoMemory>
    requires { HasRisingNames (map host_view hosts.now) }
    ensures { IfOk result (λ value. view value ≡ ring_data (map host_view hosts.now)) }
{
    let mut members = Map::new(alloc);
    for host in hosts {
        let name = String::from_str(alloc, host.name.as_str())?;
        members.insert(name, host_value(alloc, host)?)?;
    }
    Ok(Value::Object(members))
}

fn host_value(alloc: Global, host: &Host) -> Result<Value, NoMemory>
    ensures { IfOk result (λ value. view value ≡ host_data (host_view host.now)) }
{
    let tokens = Value::Array(tokens_value(alloc, host.tokens.as_slice())?);
    let dc = host.dc.as_str();
    let rack = host.rack.as_str();
    let is_up = host.is_up;
    Ok(json!(in alloc; {"dc": dc, "is_up": is_up, "rack": rack, "tokens": tokens})?)
}

fn token_value(token: i64) -> Value
    ensures { view result ≡ token_data token }
{
    Value::from(token)
}

fn tokens_value(alloc: Global, tokens: &[i64]) -> Result<Vec<Value>, NoMemory>
    ensures { IfOk result (λ values. map view values.items ≡ map token_data tokens.now) }
{
    let mut values = Vec::new(alloc);
    for token in tokens {
        values.push(token_value(*token))?;
    }
    Ok(values)
}
