//! Which values may be stored.

ghost use Rattle.std.specs.Bool.{OnTrue};
ghost use Rattle.std.specs.Prelude.{◌≡◌};
ghost use Rattle.tf_value_data.specs.Stored.{IsTable, MayBeStored, each_may_be_stored, may_be_planned, may_be_stored};
ghost use Rattle.tf_value_data.specs.Tree.{entries_view, tree_of};

use crate::known::is_known;
use crate::measure::is_within_limits;
use crate::sets::has_no_set;
use crate::value::Value;
use std::collections::BTreeMap;

/// Returns whether a value may be stored: all of it is known, it is within the limits, and it has no set.
pub fn may_be_stored(value: &Value) -> bool
    ensures exact { result ≡ may_be_stored (tree_of value.now) }
    ensures stored { OnTrue result (MayBeStored (tree_of value.now)) }
{
    let within = is_within_limits(value);
    within && is_known(value) && has_no_set(value)
}

/// Returns whether each value of a map's entries may be stored.
#[tactic(auto, using(crate::proofs::Ordered::keys_sorted))]
pub fn each_may_be_stored(entries: &BTreeMap<String, Value>) -> bool
    ensures exact { result ≡ each_may_be_stored (entries_view entries.now.entries) }
    ensures stored { OnTrue result (IsTable (entries_view entries.now.entries)) }
{
    for (_, value) in entries.iter() {
        if !may_be_stored(value) {
            return false;
        }
    }
    true
}
