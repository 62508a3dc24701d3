ghost use Rattle.std.specs.Prelude.{◌≡◌, option_map};

use std::collections::{BTreeMap, BTreeSet};

/// A value of a configuration, a plan or a state, which may have unknown parts.
///
/// Contracts see it as the plain tree that it represents, so that no clause speaks of pointers or capacities.
#[derive(Debug, Drop)]
pub enum Value {
    /// No value: an argument that isn't set.
    Null,
    /// A truth value.
    Bool(bool),
    /// A whole number.
    Int(i64),
    /// A text.
    Text(String),
    /// Values in order.
    List(Vec<Value>),
    /// Values by key, in byte order of the keys.
    Map(Entries),
    /// Texts, each once, in byte order.
    Set(BTreeSet<String>),
    /// A value that will be known only after an apply.
    Unknown,
}

/// The values of a map by key.
pub(crate) type Entries = BTreeMap<String, Value>;

impl Value {
    ghost use Rattle.tf_value_data.specs.Tree.{tree_of, part_at};

    /// Returns the value at a key of a map. Returns `None` if the map lacks the key, and for a value that isn't a
    /// map.
    pub fn get(&self, key: &str) -> Option<&Value>
        ensures { option_map (λ v. tree_of v.now) result ≡ part_at key.now (tree_of self.now) }
    {
        match self {
            Value::Map(entries) => find(entries, key),
            _ => None,
        }
    }
}

ghost use Rattle.tf_value_data.specs.Tree.{tree_of, get, entries_view};

/// Returns the value at a key of a map's entries, or `None` if they lack the key.
pub fn find<'a>(entries: &'a BTreeMap<String, Value>, key: &str) -> Option<&'a Value>
    ensures { option_map (λ v. tree_of v.now) result ≡ get key.now (entries_view entries.now.entries) }
{
    entries.get(key)
}
