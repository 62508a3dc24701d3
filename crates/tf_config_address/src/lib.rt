//! Names and addresses of resources, which all higher-level crates use.
//!
//! A name is an identifier of Terraform's JSON syntax as this engine reads it. The address of a resource is
//! `TYPE.NAME`. Addresses are ordered by type and then by name, byte by byte. The instances of a resource have keys,
//! and an object of an instance is its current one or a deposed one.
#![tactic(auto)]

pub mod addr;
pub mod names;
pub mod object_id;

pub use addr::ResourceAddr;
pub use names::is_name;
pub use object_id::{InstanceKey, ObjectId};
