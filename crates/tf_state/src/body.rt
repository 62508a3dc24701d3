ghost use Rattle.std.specs.List.Sorted.{IsStrictlySortedBy-prop};
ghost use Rattle.std.specs.Prelude.{map};
ghost use Rattle.tf_state_data.specs.Ids.{AreById};
ghost use Rattle.tf_state_data.specs.Record.{record_of};

use std::collections::BTreeSet;
use tf_state_data::{Object, Record};

/// The content of a record, without its id.
#[derive(Drop)]
pub(crate) struct Body {
    pub attributes: Object,
    pub schema_version: u32,
    pub tainted: bool,
    pub dependencies: BTreeSet<String>,
    pub create_before_destroy: bool,
}

/// The content of a resource, without its address.
#[derive(Drop)]
pub(crate) struct Held {
    pub provider: String,
    pub records: Vec<Record>,
    pub ghost ordered: { AreById (map record_of records.items) } by { IsStrictlySortedBy-prop _ _ },
}
