ghost use Rattle.tf_config_json.specs.Laws.{StandingIsFaultless, FaultlessStands, StandsForOne, BlocksAreInOrder, BlocksHaveNames, NamesAreFew, RefusedOnce, RefusedIsNotRead};

/// A JSON tree is a configuration exactly if it meets every check, and then only one.
pub fn faultless_trees_stand()
    ensures faultless { StandingIsFaultless }
    ensures stands { FaultlessStands }
    ensures one { StandsForOne }
{}

/// The blocks of a configuration are in address order, each address once.
pub fn blocks_are_in_order()
    ensures order { BlocksAreInOrder }
{}

/// The address of each block of a configuration consists of names.
pub fn blocks_have_names()
    ensures { BlocksHaveNames }
{}

/// A configuration within the limits on its counts has 8,000 names at most.
pub fn names_are_few()
    ensures { NamesAreFew }
{}

/// A text has at most one refusal. The exception is an invalid template in it: the refusal has an offset, which isn't
/// determined, or says that the template is too deep. A text that is a configuration within the limits has no refusal.
pub fn refusals_are_one()
    ensures once { RefusedOnce }
    ensures not_read { RefusedIsNotRead }
{}
