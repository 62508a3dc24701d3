//! What holds of values, for any file and any variables.

ghost use Rattle.tf_config_json.specs.VariableLaws.{FaultlessHaveValues, ValuesAreFaultless, ValuesAreOne};

/// Variables have values exactly if nothing in them is refused, and at most one each.
pub fn values_are_one()
    ensures one { ValuesAreOne }
    ensures faultless { ValuesAreFaultless }
    ensures values { FaultlessHaveValues }
{}
