//! Laws on requests.

ghost use Rattle.tf_walk_action.specs.Laws.{RequestsAreOne, RequestsExist};

use tf_expand_keys::standing_laws::resolved_names_are_one;

/// If no name needs itself, each action of a plan has a request or a fault. It is unique for an action of a resource
/// with a block.
pub fn requests_exist()
    ensures exist { RequestsExist }
    ensures one { RequestsAreOne }
{
    resolved_names_are_one();
}
