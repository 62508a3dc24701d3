ghost use Rattle.std.specs.Prelude.{◌≡◌, IfOk, string_bytes};
ghost use Rattle.tf_state_data.specs.Provider.{provider_text, provider_name};

use std::alloc::{AllocError, Global};

/// Returns the address of the provider of a resource type, as a state names it:
/// `provider["registry.terraform.io/hashicorp/P"]`. P is the type's part before the first `_`, or the whole type if
/// it has no `_`. Fails only if memory runs out.
pub fn provider_address(alloc: Global, type_name: &str) -> Result<String, AllocError>
    ensures { IfOk result (λ s. string_bytes s ≡ provider_text type_name.now) }
{
    let name = name_of(type_name);
    let mut text = String::with_capacity(alloc, name.len().saturating_add(44))?;
    text.push_str("provider[\"registry.terraform.io/hashicorp/")?;
    text.push_str(name)?;
    text.push_str("\"]")?;
    Ok(text)
}

fn name_of(type_name: &str) -> &str
    ensures { result.now ≡ provider_name type_name.now }
{
    match type_name.split_once('_') {
        Some((name, _)) => name,
        None => type_name,
    }
}
