//! The address of an instance, as a text.

ghost use Rattle.std.specs.Prelude.{◌≡◌, ◌++◌, ◌∷◌, [], IfOk, decimal, string_bytes};
ghost use Rattle.json.specs.Print.{quoted};
ghost use Rattle.tf_config_address.specs.ResourceAddr.{addr_of, addr_text};
ghost use Rattle.tf_config_address.specs.ObjectId.{instance_key_of};
ghost use Rattle.tf_plan_data.specs.Address.{address_text};

use serde_json::Value as Json;
use std::alloc::{AllocError, Global};
use tf_config_address::{InstanceKey, ResourceAddr};

/// Returns the address of an instance: `TYPE.NAME`, `TYPE.NAME[0]` or `TYPE.NAME["key"]`, the key as a compact JSON
/// text.
///
/// # Errors
///
/// Fails only if memory runs out.
pub fn address_text(
    alloc: Global,
    addr: &ResourceAddr,
    key: &InstanceKey,
) -> Result<String, AllocError>
    ensures { IfOk result (λ text. string_bytes text ≡ address_text (addr_of addr.now) (instance_key_of key.now)) }
{
    match key {
        InstanceKey::Single => addr_text(alloc, addr),
        InstanceKey::Number(number) => numbered(alloc, addr, *number),
        InstanceKey::Name(name) => named(alloc, addr, name.as_str()),
    }
}

fn numbered(alloc: Global, addr: &ResourceAddr, number: u64) -> Result<String, AllocError>
    ensures { IfOk result (λ text. string_bytes text ≡ addr_text (addr_of addr.now) ++ 91 ∷ (decimal number ++ 93 ∷ [])) }
{
    let digits = digits(alloc, number)?;
    in_brackets(alloc, addr, digits.as_str())
}

fn named(alloc: Global, addr: &ResourceAddr, name: &str) -> Result<String, AllocError>
    ensures { IfOk result (λ text. string_bytes text ≡ addr_text (addr_of addr.now) ++ 91 ∷ (quoted name.now ++ 93 ∷ [])) }
{
    let quoted = in_quotes(alloc, name)?;
    in_brackets(alloc, addr, quoted.as_str())
}

/// Returns the address `TYPE.NAME` of a resource.
///
/// # Errors
///
/// Fails only if memory runs out.
pub fn addr_text(alloc: Global, addr: &ResourceAddr) -> Result<String, AllocError>
    ensures { IfOk result (λ text. string_bytes text ≡ addr_text (addr_of addr.now)) }
{
    with_room(alloc, addr, 0)
}

/// Returns a resource's address, followed by a text in brackets.
fn in_brackets(alloc: Global, addr: &ResourceAddr, text: &str) -> Result<String, AllocError>
    ensures { IfOk result (λ whole. string_bytes whole ≡ addr_text (addr_of addr.now) ++ 91 ∷ (text.now ++ 93 ∷ [])) }
{
    let mut whole = with_room(alloc, addr, text.len().saturating_add(2))?;
    whole.push('[')?;
    whole.push_str(text)?;
    whole.push(']')?;
    Ok(whole)
}

/// Returns a resource's address in a text with capacity for `more` further bytes, so that the whole is allocated once.
fn with_room(alloc: Global, addr: &ResourceAddr, more: usize) -> Result<String, AllocError>
    ensures { IfOk result (λ text. string_bytes text ≡ addr_text (addr_of addr.now)) }
{
    let type_name = addr.type_name.as_str();
    let name = addr.name.as_str();
    let own = type_name.len() + 1 + name.len();
    let mut text = String::with_capacity(alloc, own.saturating_add(more))?;
    text.push_str(type_name)?;
    text.push('.')?;
    text.push_str(name)?;
    Ok(text)
}

/// Returns a text in quotes, with JSON's escapes.
fn in_quotes(alloc: Global, text: &str) -> Result<String, AllocError>
    ensures { IfOk result (λ quoted_text. string_bytes quoted_text ≡ quoted text.now) }
{
    let json = Json::String(String::from_str(alloc, text)?);
    json.to_string(alloc)
}

fn digits(alloc: Global, number: u64) -> Result<String, AllocError>
    ensures { IfOk result (λ text. string_bytes text ≡ decimal number) }
{
    number.to_string(alloc)
}
