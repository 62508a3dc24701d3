//! The instances of a resource, and their objects.

/// The key of an instance of a resource. The derived order is the order of addresses: no key, then numbers, then names
/// byte by byte.
#[derive(Clone, Debug, PartialEq, Eq, PartialOrd, Ord, Drop)]
pub enum InstanceKey {
    /// The only instance of a resource without `count` and `for_each`.
    Single,
    /// An instance of a resource with `count`, by its position; below 2^63 in a state that reads back.
    Number(u64),
    /// An instance of a resource with `for_each`, by its key.
    Name(String),
}

/// Identifies an object of a resource: its instance, and whether it is deposed. Objects are written in the derived
/// order: by instance, and within an instance the current object before the deposed ones, which are ordered by their
/// keys.
#[derive(Clone, Debug, PartialEq, Eq, PartialOrd, Ord, Drop)]
pub struct ObjectId {
    /// The instance.
    pub key: InstanceKey,
    /// The key of a deposed object, eight lower-case hex digits, or `None` for the current object.
    pub deposed: Option<String>,
}
