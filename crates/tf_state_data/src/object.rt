//! The attributes of a resource's object.

ghost use Rattle.std.specs.Prelude.{◌≡◌, true};
ghost use Rattle.tf_value_data.specs.Known.{known};
ghost use Rattle.tf_value_data.specs.Tree.{tree_of};

use std::alloc::AllocError;
use tf_value_data::Value;

/// The attributes of an object that exists: a value without an unknown part. The type ensures this, so a state always
/// has a text.
#[derive(Debug, Drop)]
pub struct Object {
    /// The attributes by name.
    pub value: Value,
    pub ghost known: { known (tree_of value) ≡ true },
}

/// Returns an equal object. Fails only if memory runs out.
impl Clone for Object {
    ghost is_clone = { λ o copy. tree_of copy.value ≡ tree_of o.value };

    fn clone(&self) -> Result<Object, AllocError> {
        let value = self.value.clone()?;
        Ok(Object { value })
    }
}

/// Two objects are equal exactly if their attributes are the same.
impl PartialEq for Object {
    ghost use Rattle.std.specs.Ordering.{on};
    ghost use Rattle.std.specs.Prelude.{◌↔◌, IsTrue};
    ghost use Rattle.tf_state_data.specs.Equality.{attributes_of, same_objects_part};
    ghost use Rattle.tf_value_data.specs.Tree.{same};

    ghost eq = { on attributes_of same };

    ghost laws = { same_objects_part };

    fn eq(&self, other: &Object) -> bool
        ensures value { result ≡ same (attributes_of self.now) (attributes_of other.now) }
        ensures exact { IsTrue result ↔ (attributes_of self.now ≡ attributes_of other.now) }
    {
        self.value == other.value
    }
}

impl Eq for Object {
    ghost use Rattle.tf_state_data.specs.Equality.{same_objects};

    ghost laws = { same_objects };
}
