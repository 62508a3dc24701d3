//! The actions of a plan, as far as their order depends on them.

/// The kind of an action.
#[derive(Clone, Copy, Debug, PartialEq, Eq)]
pub enum ActionKind {
    /// It creates or updates the current object of an instance.
    Apply,
    /// It destroys the current object of an instance.
    Destroy,
    /// It destroys a deposed object of an instance.
    DestroyDeposed,
}

/// An action of a plan.
#[derive(Clone, Copy, Debug, PartialEq, Eq)]
pub struct OrderedAction {
    /// The number of its resource.
    pub resource: usize,
    /// The number of its instance, among those of its resource.
    pub instance: usize,
    /// Its kind.
    pub kind: ActionKind,
    /// Whether it is half of a replace: a create, or the destroy of the object that the create replaces.
    pub replaces: bool,
}
