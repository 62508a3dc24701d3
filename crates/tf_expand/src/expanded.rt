//! The instances of resources.

ghost use Rattle.std.specs.Prelude.{◌≡◌};
ghost use Rattle.tf_expand_keys.specs.InstanceKeys.{one};
ghost use Rattle.tf_expand_keys.specs.Views.{shape_of};

use tf_config_names::Declarations;
use tf_expand_keys::InstanceKeys;

/// The instance keys of each resource of a configuration.
#[derive(Drop)]
pub struct Expanded<'a> {
    pub(crate) names: Declarations<'a>,
    pub(crate) shapes: Vec<InstanceKeys>,
    /// One object, which a name past the end of the list has.
    pub(crate) single: InstanceKeys,
    pub ghost is_one: { shape_of single ≡ one },
}
