//! Requests to providers, and their replies.

use tf_value_data::Value;

/// The operation of a request.
#[derive(Clone, Copy, Debug, PartialEq, Eq)]
pub enum Op {
    /// Create an object that doesn't exist.
    Create,
    /// Update an object that exists.
    Update,
    /// Destroy an object.
    Destroy,
}

/// A request to a provider: one operation on one object.
#[derive(Debug, Drop)]
pub struct Request {
    /// The operation.
    pub op: Op,
    /// The address of the object's instance, such as `sim_net.a`.
    pub address: String,
    /// The type of the object, whose schema it follows.
    pub type_name: String,
    /// The key of a deposed object to destroy; `None` for an instance's current object.
    pub deposed: Option<String>,
    /// The object in the state, for an update and a destroy.
    pub prior: Option<Value>,
    /// The object to create or to update to, which may have unknown values.
    pub object: Option<Value>,
}

/// A provider's reply to a request.
#[derive(Debug, Drop)]
pub enum Reply {
    /// The object as it is now.
    Object(Value),
    /// The object no longer exists.
    Gone,
    /// The request failed, with a message for the user and the object as it is now, if there is one.
    Failed {
        /// Why it failed, for the user.
        message: String,
        /// The object that exists in spite of the failure.
        object: Option<Value>,
    },
    /// Memory ran out, and nothing was done.
    NoMemory,
}
