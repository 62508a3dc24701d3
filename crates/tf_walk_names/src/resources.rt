//! Names that are resources.

ghost use Rattle.std.specs.List.{AllByRecursion, list_all};
ghost use Rattle.std.specs.Prelude.{◌≡◌, ◌<◌, Some, length};
ghost use Rattle.tf_config_data.specs.Names.{meant_at};
ghost use Rattle.tf_config_names.specs.Table.{declaration_of, names_in};
ghost use Rattle.tf_walk_names.specs.Resolving.{is_resource};

use tf_config_names::Declaration;
use tf_expand_keys::Module;

/// Checks whether the name at each of these indexes is a resource.
pub(crate) fn are_resources(declared: &Module, places: &[usize]) -> bool
    requires { AllByRecursion (λ n. n < length (names_in declared.now.names.now)) places.now }
    ensures { result ≡ list_all (λ n. is_resource (meant_at (names_in declared.now.names.now) n)) places.now }
{
    for place in places {
        if !is_resource(declared.parts.names.at(*place)) {
            return false;
        }
    }
    true
}

/// Checks whether a name is a resource.
fn is_resource(named: Declaration<'_>) -> bool
    ensures { result ≡ is_resource (Some (declaration_of named.entry).meant) }
{
    match named {
        Declaration::Local(_, _) => false,
        Declaration::Resource(_, _) => true,
    }
}

/// Returns an index after all of these, which are below `count`.
pub(crate) fn past_last(places: &[usize], count: usize) -> usize
    requires { AllByRecursion (λ n. n < count) places.now }
    ensures { AllByRecursion (λ n. n < result) places.now }
{
    let mut past = 0;
    for place in places {
        if *place >= past {
            past = *place + 1;
        }
    }
    past
}
