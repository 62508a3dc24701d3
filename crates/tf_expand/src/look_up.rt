//! The instances of a resource by its address.

ghost use Rattle.std.specs.Prelude.{◌≡◌, ◌<◌, length, option_map};
ghost use Rattle.tf_config_data.specs.Words.{addr_of, meant_at};
ghost use Rattle.tf_config_names.specs.Table.{names_in};
ghost use Rattle.tf_expand.specs.Expanded.{keys_for, keys_of};
ghost use Rattle.tf_expand_keys.specs.InstanceKeys.{one};
ghost use Rattle.tf_expand_keys.specs.Views.{shape_of, shapes_of};

use crate::expanded::Expanded;
use tf_config_address::ResourceAddr;
use tf_config_names::Declaration;
use tf_expand_keys::InstanceKeys;

impl Expanded<'_> {
    /// Returns the keys of the instances of the resource at an address, or `None` if the configuration has no block there.
    pub fn keys(&self, addr: &ResourceAddr) -> Option<&InstanceKeys>
        ensures { option_map (λ keys. shape_of keys.now) result ≡ keys_for self.now (addr_of addr.now) }
    {
        match self
            .names
            .place(addr.type_name.as_str(), addr.name.as_str())
        {
            Some(place) => self.keys_at(place),
            None => None,
        }
    }

    /// Returns the instance keys of each name by its place: locals come first, each with one object, and then resources in
    /// address order.
    pub fn as_slice(&self) -> &[InstanceKeys]
        ensures { result.now ≡ self.now.shapes.items }
    {
        self.shapes.as_slice()
    }

    /// Returns the keys of the resource whose name has a place, or `None` if a local has it.
    fn keys_at(&self, place: usize) -> Option<&InstanceKeys>
        requires { place < length (names_in self.now.names) }
        ensures { option_map (λ keys. shape_of keys.now) result ≡ keys_of (meant_at (names_in self.now.names) place) (shapes_of self.now.shapes.items place) }
    {
        match self.names.at(place) {
            Declaration::Local(_, _) => None,
            Declaration::Resource(_, _) => Some(shape_at(
                self.shapes.as_slice(),
                &self.single,
                place,
            )),
        }
    }
}

/// Returns the keys at a place of the list, or one object past its end.
fn shape_at<'a>(
    shapes: &'a [InstanceKeys],
    single: &'a InstanceKeys,
    place: usize,
) -> &'a InstanceKeys
    requires { shape_of single.now ≡ one }
    ensures { shape_of result.now ≡ shapes_of shapes.now place }
{
    match shapes.get(place) {
        Some(shape) => shape,
        None => single,
    }
}
