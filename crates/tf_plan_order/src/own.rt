//! The records of one instance.

ghost use Rattle.std.specs.Prelude.{◌≡◌, map};
ghost use Rattle.tf_config_address.specs.ObjectId.{instance_key_of};
ghost use Rattle.tf_plan_order.specs.Members.{records_of};
ghost use Rattle.tf_state_data.specs.Ids.{AreById};
ghost use Rattle.tf_state_data.specs.Record.{record_of};

use tf_config_address::InstanceKey;
use tf_state_data::Record;

/// Returns the records of an instance's objects among those of its resource, which are ordered by their ids: the
/// current one, if there is one, before the deposed ones by their keys.
pub fn records_of<'a>(records: &'a [Record], key: &InstanceKey) -> &'a [Record]
    requires { AreById (map record_of records.now) }
    ensures { map record_of result.now ≡ records_of (instance_key_of key.now) (map record_of records.now) }
{
    let start = records.partition_point(|record| record.id.key < *key);
    let rest = &records[start..];
    let count = rest.partition_point(|record| record.id.key <= *key);
    &rest[..count]
}
