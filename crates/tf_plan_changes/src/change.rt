//! A change of a plan.

use tf_config_address::{InstanceKey, ResourceAddr};
use tf_value_data::Value;

/// What a plan does to one object: the current object of an instance, or a deposed one.
#[derive(Clone, Copy, Drop)]
pub struct Change<'a> {
    /// The number of the resource, over configuration and state together (`tf_plan_order`).
    pub resource: usize,
    /// The resource.
    pub addr: &'a ResourceAddr,
    /// The instance.
    pub key: &'a InstanceKey,
    /// The key of the object, if it is deposed.
    pub deposed: Option<&'a String>,
    /// What is done.
    pub kind: ChangeKind<'a>,
    /// The object before, if there is one.
    pub before: Option<&'a Value>,
    /// The object after, if there is one, with an unknown part for each value that the apply decides.
    pub after: Option<&'a Value>,
}

/// What is done to an object.
#[derive(Clone, Copy, Drop)]
pub enum ChangeKind<'a> {
    /// It is created.
    Create,
    /// It is changed in place.
    Update,
    /// It is destroyed, and then another one is created. The names, in byte order, are those of the attributes whose
    /// changes replace it; there are none if the object is tainted.
    Replace(&'a Vec<String>),
    /// The same, but the other one is created first.
    LateReplace(&'a Vec<String>),
    /// It is destroyed.
    Destroy,
}
