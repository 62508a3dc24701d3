//! The objects that providers returned.

ghost use Rattle.std.specs.Prelude.{◌≡◌, ℕ, IfOk, Some};
ghost use Rattle.tf_config_address.specs.ObjectId.{InstanceKeyView, instance_key_of};
ghost use Rattle.tf_value_data.specs.Tree.{Tree, tree_of};

use std::alloc::{AllocError, Global};
use tf_config_address::InstanceKey;
use tf_expand_keys::{Objects, ResourceInScope};
use tf_expr_eval::Scope;
use tf_value_data::Value;

/// The objects that providers returned for the instances of an apply. They are requested only for resources that the
/// evaluated expressions name, directly or through locals. Any value may be given for the others.
pub trait Results {
    ghost objects: { Self → ℕ → InstanceKeyView → Tree };

    /// Returns a copy of an instance's object, by the index of its resource's name.
    ///
    /// # Errors
    ///
    /// Fails with `AllocError` if memory runs out.
    fn object(&self, alloc: Global, place: usize, key: &InstanceKey) -> Result<Value, AllocError>
        ensures { IfOk result (λ value. tree_of value ≡ objects self.now place (instance_key_of key.now)) };
}

/// The returned objects, as the objects of the apply's stage.
#[derive(Drop)]
pub(crate) struct InstanceAnswers<'a, R> {
    pub results: &'a R,
}

impl<R: Results> Objects for InstanceAnswers<'_, R> {
    ghost planned = { λ a n block env key. Some (R.objects a.results.now n key) };

    fn object<S: Scope>(
        &self,
        alloc: Global,
        resource: &ResourceInScope<'_, S>,
        key: &InstanceKey,
    ) -> Result<Option<Value>, AllocError> {
        Ok(Some(self.results.object(alloc, resource.place, key)?))
    }
}
