//! What holds of numbers and of stored dependencies, whatever the configuration and the state.

ghost use Rattle.tf_plan_order.specs.ResourceLaws.{AddressesAreNamed, BlocksComeFirst, DependenciesAreThose, EachHasAPlace, NumbersAreFew, NumbersAreInOrder, PlacesAreTrue, PlacesDiffer, ResourcesStayApart};

/// Each resource of the state has a place.
pub fn each_has_a_place()
    ensures { EachHasAPlace }
{}

/// The resource at the place of an address has that address.
pub fn places_are_true()
    ensures { PlacesAreTrue }
{}

/// Two different addresses have different places.
pub fn places_differ()
    ensures { PlacesDiffer }
{}

/// If no two blocks have the same address, no two resources of configuration and state together have the same address.
pub fn resources_stay_apart()
    ensures { ResourcesStayApart }
{}

/// The names keep their places, the orphans follow them, and there is nothing after those.
pub fn numbers_are_in_order()
    ensures { NumbersAreInOrder }
{}

/// The place of a resource is among the names exactly if the configuration has a block of it.
pub fn blocks_come_first()
    ensures { BlocksComeFirst }
{}

/// There are at most as many numbers as names and resources of the state.
pub fn numbers_are_few()
    ensures { NumbersAreFew }
{}

/// The address of a resource, as a text, names the resource if its type has no dot.
pub fn addresses_are_named()
    ensures { AddressesAreNamed }
{}

/// The list of stored dependencies has exactly the pairs of places such that an object of the first is stored to depend
/// on the second.
pub fn dependencies_are_those()
    ensures { DependenciesAreThose }
{}
