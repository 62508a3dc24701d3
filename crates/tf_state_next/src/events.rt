//! The outcomes of an apply's actions.

use crate::ends::{Left, RecordInput, Saved};
use tf_config_address::{ObjectId, ResourceAddr};

/// The outcome of a create or an update. As it may hold what a provider made, it can be neither copied nor dropped.
pub struct Apply<'a> {
    /// The resource.
    pub addr: &'a ResourceAddr,
    /// The instance, and the input for its object's record.
    pub given: RecordInput,
    /// The object that it saved, or `None` if it saved nothing or wasn't called.
    pub saved: Option<Saved>,
}

/// The outcome of an object's destroy. As it may hold what a provider returned, it can be neither copied nor dropped.
pub struct Destroy<'a> {
    /// The resource.
    pub addr: &'a ResourceAddr,
    /// The object: the current one of an instance before the apply, or a deposed one.
    pub id: ObjectId,
    /// What the destroy left of it.
    pub left: Left,
}

/// New metadata for an instance that is wanted and for which no create or update was planned: what its object depends
/// on, and whether its resource is late.
#[derive(Drop)]
pub struct MetadataUpdate<'a> {
    /// The resource.
    pub addr: &'a ResourceAddr,
    /// The instance, and the input for its object's record.
    pub given: RecordInput,
}

/// The outcomes of all actions of an apply, and the metadata updates. They can be neither copied nor dropped.
pub struct Events<'a> {
    /// The outcomes of the destroys, also of those that are half of a replace.
    pub destroys: Vec<Destroy<'a>>,
    /// The outcomes of the creates and updates.
    pub applies: Vec<Apply<'a>>,
    /// The wanted instances for which no create or update was planned.
    pub metadata_updates: Vec<MetadataUpdate<'a>>,
}
