//! The outcomes of an instance's actions.

use std::collections::BTreeSet;
use tf_config_address::InstanceKey;
use tf_state_data::Object;

/// An object that a create or an update saved. A provider made it, so it can be neither copied nor dropped.
pub struct Saved {
    /// Its attributes.
    pub attributes: Object,
    /// Whether it is damaged, so that the next apply replaces it.
    pub tainted: bool,
}

/// What a destroy left of an object. As it may hold what a provider returned, it can be neither copied nor dropped.
pub enum Left {
    /// The object is gone.
    Gone,
    /// The object is there with these attributes.
    Changed(Object),
    /// What is known of the object stays: no provider was called, or the reply said nothing of it.
    Unchanged,
}

/// The input for the record of an instance's object, all of which is allocated before the first call.
#[derive(Drop)]
pub struct RecordInput {
    /// The instance.
    pub key: InstanceKey,
    /// The version of the schema that a new object follows.
    pub schema_version: u32,
    /// The addresses of the resources that its resource needs.
    pub dependencies: BTreeSet<String>,
    /// Whether its resource is late.
    pub create_before_destroy: bool,
    /// The key that the old object gets if it becomes deposed; `None` except in a replace that creates first.
    pub deposed_key: Option<String>,
}
