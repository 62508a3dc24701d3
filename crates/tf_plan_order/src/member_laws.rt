//! What holds of the members of each resource.

ghost use Rattle.tf_plan_order.specs.MemberLaws.{MembersAreOne, MembersAreThere};

/// There is exactly one list of members, whatever the configuration and the state have.
pub fn members_are_one_list()
    ensures there { MembersAreThere }
    ensures one { MembersAreOne }
{}
