//! An instance of a resource.

use tf_config_address::InstanceKey;
use tf_state_data::Record;

/// An instance of a resource, from the configuration and the state together.
#[derive(Drop)]
pub struct InstanceToPlan<'a> {
    /// The instance.
    pub key: InstanceKey,
    /// Whether the configuration has it.
    pub is_declared: bool,
    /// The records of its objects: the current one, if there is one, before the deposed ones by their keys.
    pub records: &'a [Record],
}
