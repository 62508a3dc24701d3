//! Why a change is made, in Terraform's words.

ghost use Rattle.std.specs.Prelude.{◌≡◌, option_map};
ghost use Rattle.tf_config_address.specs.ObjectId.{instance_key_of};
ghost use Rattle.tf_config_address.specs.ResourceAddr.{addr_of};
ghost use Rattle.tf_config_data.specs.Config.{config_of, repetition_of};
ghost use Rattle.tf_plan_changes.specs.Views.{change_view};
ghost use Rattle.tf_plan_json.specs.Reasons.{is_at, delete_reason, reason_of, repetition_at, replace_reason};
ghost use Rattle.tf_plan_data.specs.Action.{names_of};

use tf_config_address::{InstanceKey, ResourceAddr};
use tf_config_data::{Config, Repetition};
use tf_plan_changes::{Change, ChangeKind};

/// Returns why an object is replaced or destroyed, or `None` if Terraform has no word for it.
pub(crate) fn reason_of(config: &Config, change: &Change<'_>) -> Option<&'static str>
    ensures { option_map (λ s. s.now) result ≡ reason_of (config_of config.now) (change_view change.now) }
{
    match change.kind {
        ChangeKind::Create | ChangeKind::Update => None,
        ChangeKind::Replace(names) | ChangeKind::LateReplace(names) => {
            Some(replace_reason(names.as_slice()))
        }
        ChangeKind::Destroy => match change.deposed {
            Some(_) => None,
            None => Some(delete_reason(repetition_at(config, change.addr), change.key)),
        },
    }
}

fn replace_reason(names: &[String]) -> &'static str
    ensures { result.now ≡ replace_reason (names_of names.now) }
{
    match names {
        [] => "replace_because_tainted",
        _ => "replace_because_cannot_update",
    }
}

/// Returns how many instances the block at an address has, if there is one.
fn repetition_at<'a>(config: &'a Config, addr: &ResourceAddr) -> Option<&'a Repetition>
    ensures { option_map (λ r. repetition_of r.now) result ≡ repetition_at (addr_of addr.now) (config_of config.now).blocks }
{
    for (other, block) in config.resources.iter() {
        if is_at(addr, other) {
            return Some(&block.repetition);
        }
    }
    None
}

fn is_at(addr: &ResourceAddr, other: &ResourceAddr) -> bool
    ensures { result ≡ is_at (addr_of addr.now) (addr_of other.now) }
{
    addr.type_name.as_str() == other.type_name.as_str() && addr.name.as_str() == other.name.as_str()
}

fn delete_reason(repetition: Option<&Repetition>, key: &InstanceKey) -> &'static str
    ensures { result.now ≡ delete_reason (option_map (λ r. repetition_of r.now) repetition.entry) (instance_key_of key.now) }
{
    match (repetition, key) {
        (None, _) => "delete_because_no_resource_config",
        (Some(Repetition::Count(_)), InstanceKey::Number(_)) => "delete_because_count_index",
        (Some(Repetition::ForEach(_)), InstanceKey::Name(_)) => "delete_because_each_key",
        _ => "delete_because_wrong_repetition",
    }
}
