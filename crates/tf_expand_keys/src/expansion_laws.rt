//! Laws on expansions.

ghost use Rattle.tf_expand_keys.specs.ExpansionLaws.{AllStandWhereNoneIsRefused};

/// If no resource is refused, each name resolves.
pub fn all_stand_where_none_is_refused()
    ensures { AllStandWhereNoneIsRefused }
{}
