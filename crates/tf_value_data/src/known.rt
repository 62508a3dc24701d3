ghost use Rattle.std.specs.Prelude.{◌≡◌};
ghost use Rattle.tf_value_data.specs.Tree.{tree_of, entries_view};
ghost use Rattle.tf_value_data.specs.Known.{known, known_entries};

use crate::parts::{Parts, entries_have_only, has_only};
use crate::value::Value;
use std::collections::BTreeMap;

const SETS: Parts = Parts {
    unknowns: false,
    sets: true,
};

/// Returns whether a value has no unknown part.
pub fn is_known(value: &Value) -> bool
    ensures { result ≡ known (tree_of value.now) }
{
    has_only(value, SETS)
}

/// Returns whether no value of a map's entries has an unknown part.
pub fn entries_are_known(entries: &BTreeMap<String, Value>) -> bool
    ensures { result ≡ known_entries (entries_view entries.now.entries) }
{
    entries_have_only(entries, SETS)
}
