//! A caller of a state that adds a resource and an object.

use std::alloc::{AllocError, Global};
use std::collections::BTreeSet;
use std::test::Fail;
use tf_config_address::{InstanceKey, ObjectId, ResourceAddr};
use tf_state_data::{Object, Record, Resource, State};
use tf_value_data::Value;

/// Returns a resource with one object.
fn resource(alloc: Global) -> Result<Resource, AllocError> {
    let addr = ResourceAddr {
        type_name: String::from_str(alloc, "sim_net")?,
        name: String::from_str(alloc, "a")?,
    };
    let mut resource = Resource::empty(alloc, addr, String::from_str(alloc, "P")?);
    resource.reserve(1)?;
    drop(resource.put(Record {
        id: ObjectId {
            key: InstanceKey::Single,
            deposed: None,
        },
        attributes: Object { value: Value::Null },
        schema_version: 0,
        tainted: false,
        dependencies: BTreeSet::new(alloc),
        create_before_destroy: false,
    }));
    Ok(resource)
}

#[test]
fn resources_are_put_where_there_is_room(rt: HostRuntime) -> Result<(), Fail> {
    let resource = resource(rt.alloc())?;
    let mut state = State::empty(rt.alloc(), "L")?;
    state.reserve(1)?;
    assert!(rt; state.put(resource).is_none());
    assert_eq!(rt; state.resources().len(), 1);
    Ok(())
}
