// One host of a token map, from a member of the object.
ghost use Rattle.std.specs.Prelude.{◌≡◌, None, IfOk, IfErr, IfSome, IsTrue, ◌↔◌, map};
ghost use Rattle.std.specs.List.{AllByRecursion, AllZip};
ghost use Rattle.serde_json.specs.View.{view};
ghost use Rattle.med_base.specs.Kinds.{IsFqdn};
ghost use Rattle.med_base.specs.Memory.{WhyIs};
ghost use Rattle.med_ring.specs.Blames.{HasNoToken};
ghost use Rattle.med_ring.specs.Host.{host_view, AreInRange};
ghost use Rattle.med_ring.specs.Members.{HasNoShape, IsHostRefused, IsNameRefused};
ghost use Rattle.med_ring.specs.Ring.{IsShape, IsHost};
ghost use Rattle.med_ring.specs.Token.{token_of, IsNumber, IsToken};

use crate::error::{not_ring, token_range};
use crate::{Host, RingError};
use med_base::{Fqdn, NameError, NoMemory};
use med_json::{list_in, text_or_empty_in, truth_in};
use serde_json::Value;
use std::alloc::Global;

// What the value of a host has, its tokens numbers that were not looked at.
#[derive(Clone, Copy)]
struct Shape<'a> {
    numbers: &'a [Value],
    is_up: bool,
    rack: &'a str,
    dc: &'a str,
}

/// The host that a member of the object is, or why it is none: its form first, then its tokens.
pub(crate) fn read_host(alloc: Global, name: &str, value: &Value) -> Result<Host, RingError>
    ensures ok { IfOk result (λ h. IsHost (name.now, view value.now) (host_view h)) }
    ensures bound { IfOk result (λ h. AreInRange h.tokens.items) }
    ensures err { IfErr result (WhyIs (IsHostRefused (name.now, view value.now))) }
{
    let Some(shape) = shape_of(value) else {
        return Err(not_ring(alloc, name));
    };
    let node = read_name(alloc, name)?;
    let Some(tokens) = read_tokens(alloc, shape.numbers)? else {
        return Err(token_range(alloc, name));
    };
    let rack = String::from_str(alloc, shape.rack)?;
    let dc = String::from_str(alloc, shape.dc)?;
    Ok(Host {
        name: node,
        tokens,
        is_up: shape.is_up,
        rack,
        dc,
    })
}

fn read_name(alloc: Global, name: &str) -> Result<Fqdn, RingError>
    ensures ok { IfOk result (λ node. node ≡ name.now) }
    ensures fits { IfOk result (λ node. IsFqdn node) }
    ensures err { IfErr result (WhyIs (IsNameRefused name.now)) }
{
    match Fqdn::read(alloc, name) {
        Ok(node) => Ok(node),
        Err(NameError::BadName { .. }) => Err(not_ring(alloc, name)),
        Err(NameError::Memory) => Err(RingError::Memory),
    }
}

fn shape_of(value: &Value) -> Option<Shape<'_>>
    ensures found { IfSome result
        (λ s. IsShape (view value.now) (map view s.numbers.now) s.is_up s.rack.now s.dc.now) }
    ensures none { result ≡ None → HasNoShape (view value.now) }
{
    let Some(numbers) = list_in(value, "tokens") else {
        return None;
    };
    if !are_numbers(numbers) {
        return None;
    }
    let Some(is_up) = truth_in(value, "is_up") else {
        return None;
    };
    let Some(rack) = text_or_empty_in(value, "rack") else {
        return None;
    };
    let Some(dc) = text_or_empty_in(value, "dc") else {
        return None;
    };
    Some(Shape {
        numbers,
        is_up,
        rack,
        dc,
    })
}

fn are_numbers(list: &[Value]) -> bool
    ensures { IsTrue result ↔ AllByRecursion IsNumber (map view list.now) }
{
    for value in list {
        if !value.is_number() {
            return false;
        }
    }
    true
}

fn read_token(value: &Value) -> Option<i64>
    ensures { result ≡ token_of (view value.now) }
{
    value.as_i64()
}

// The tokens that the numbers are, or nothing where one is none.
fn read_tokens(alloc: Global, numbers: &[Value]) -> Result<Option<Vec<i64>>, NoMemory>
    ensures found { IfOk result
        (λ o. IfSome o (λ v. AllZip IsToken (map view numbers.now) v.items)) }
    ensures bound { IfOk result (λ o. IfSome o (λ v. AreInRange v.items)) }
    ensures none { IfOk result (λ o. o ≡ None → HasNoToken (map view numbers.now)) }
{
    let mut tokens = Vec::new(alloc);
    for value in numbers {
        let Some(token) = read_token(value) else {
            return Ok(None);
        };
        tokens.push(token)?;
    }
    Ok(Some(tokens))
}
