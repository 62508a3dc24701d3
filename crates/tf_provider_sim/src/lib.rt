//! The provider `sim`, whose objects exist in the engine's state alone. It serves to try the engine out.
//!
//! It has two types, each of schema version 0.
//!
//! | Type | Attributes | What is answered |
//! |---|---|---|
//! | `sim_net` | `cidr` String, required, force-new; `tag` String, optional; `id` String, computed | The request's object with `id` set to `net-` and the `cidr`. A create with cidr `bad` fails with `refused`. The tag `lie` is answered as `truth`. A destroy whose prior object has the tag `stuck` fails with `stuck`; any other destroy is answered by gone. |
//! | `sim_host` | `name` String, required, force-new; `net` String, optional; `size` Number, optional; `id` String, computed | The request's object with `id` set to `host-` and the `name`. A create or update with a size above 100 fails with `size too large`. A destroy is answered by gone. |
//!
//! No failure leaves an object. A request without the attribute that makes the id fails with
//! `malformed request`, and one for another type with `unknown type`.
#![tactic(auto)]

pub mod answers;
pub mod sim;

pub use sim::Sim;
