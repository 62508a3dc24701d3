//! The changes of a plan with the texts that the document has of them.

ghost use Rattle.std.specs.Prelude.{◌≡◌, IfOk, map, string_bytes};
ghost use Rattle.tf_plan_changes.specs.Changes.{changes};
ghost use Rattle.tf_plan_changes.specs.Views.{change_view};
ghost use Rattle.tf_plan_data.specs.Plan.{plan_of};
ghost use Rattle.tf_plan_json.specs.Document.{change_data};
ghost use Rattle.tf_plan_json.specs.Reasons.{provider_source};
ghost use Rattle.tf_plan_json.specs.Views.{entry_view};
ghost use Rattle.tf_state_data.specs.Provider.{provider_name};

use crate::reasons::reason_of;
use std::alloc::{AllocError, Global};
use tf_plan_changes::{Change, changes};
use tf_plan_data::{Plan, address_text};

/// A change, with the texts that the document has of it.
#[derive(Drop)]
pub(crate) struct Entry<'a> {
    pub(crate) change: Change<'a>,
    pub(crate) address: String,
    pub(crate) provider: String,
    pub(crate) reason: Option<&'static str>,
}

/// Returns the changes of a plan, in address order.
pub(crate) fn entries(alloc: Global, plan: &Plan) -> Result<Vec<Entry<'_>>, AllocError>
    ensures { IfOk result (λ made. map entry_view made.items ≡ map (change_data (plan_of plan.now)) (changes (plan_of plan.now).late (plan_of plan.now).actions)) }
{
    let changes = changes(alloc, plan.actions.as_slice(), plan.late.as_slice())?;
    let mut made = Vec::with_capacity(alloc, changes.len())?;
    for change in changes.as_slice() {
        made.push(entry_for(alloc, plan, *change)?)?;
    }
    Ok(made)
}

fn entry_for<'a>(alloc: Global, plan: &Plan, change: Change<'a>) -> Result<Entry<'a>, AllocError>
    ensures { IfOk result (λ made. entry_view made ≡ change_data (plan_of plan.now) (change_view change.entry)) }
{
    let address = address_text(alloc, change.addr, change.key)?;
    let provider = provider_source(alloc, change.addr.type_name.as_str())?;
    let reason = reason_of(&plan.config, &change);
    Ok(Entry {
        change,
        address,
        provider,
        reason,
    })
}

/// Returns the source address of the provider of a resource type.
pub(crate) fn provider_source(alloc: Global, type_name: &str) -> Result<String, AllocError>
    ensures { IfOk result (λ text. string_bytes text ≡ provider_source type_name.now) }
{
    let mut text = String::from_str(alloc, "registry.terraform.io/hashicorp/")?;
    text.push_str(provider_name(type_name))?;
    Ok(text)
}

/// Returns the part of a type before its first `_`, or the whole type.
fn provider_name(type_name: &str) -> &str
    ensures { result.now ≡ provider_name type_name.now }
{
    match type_name.split_once('_') {
        Some((name, _)) => name,
        None => type_name,
    }
}
