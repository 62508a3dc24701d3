//! The state's knowledge of one object of a resource.

use crate::object::Object;
use std::collections::BTreeSet;
use tf_config_address::ObjectId;

/// One object of a resource that exists: which one it is, its attributes, and how it came to be.
#[derive(Clone, Debug, Drop)]
pub struct Record {
    /// Its instance, and whether it is deposed.
    pub id: ObjectId,
    /// The attributes as the provider answered them.
    pub attributes: Object,
    /// The version of the schema that the attributes follow.
    pub schema_version: u32,
    /// Whether the object is damaged, so that the next apply replaces it.
    pub tainted: bool,
    /// The addresses `TYPE.NAME` of the resources that it depends on, in byte order.
    pub dependencies: BTreeSet<String>,
    /// Whether its replacement is created before it is destroyed.
    pub create_before_destroy: bool,
}

/// Two records are equal exactly if all their parts are the same: the id, the attributes, the version of the schema,
/// the dependencies and both flags.
impl PartialEq for Record {
    ghost use Rattle.std.specs.Ordering.{on};
    ghost use Rattle.std.specs.Prelude.{◌≡◌, ◌↔◌, IsTrue};
    ghost use Rattle.tf_state_data.specs.Equality.{same_record, same_records_part};
    ghost use Rattle.tf_state_data.specs.Record.{record_of};

    ghost eq = { on record_of same_record };

    ghost laws = { same_records_part };

    fn eq(&self, other: &Record) -> bool
        ensures value { result ≡ same_record (record_of self.now) (record_of other.now) }
        ensures exact { IsTrue result ↔ (record_of self.now ≡ record_of other.now) }
    {
        self.id == other.id
            && self.attributes == other.attributes
            && self.schema_version == other.schema_version
            && self.tainted == other.tainted
            && self.dependencies == other.dependencies
            && self.create_before_destroy == other.create_before_destroy
    }
}

impl Eq for Record {
    ghost use Rattle.tf_state_data.specs.Equality.{same_records};

    ghost laws = { same_records };
}
