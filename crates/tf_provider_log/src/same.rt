//! Comparison of requests.

ghost use Rattle.std.specs.Prelude.{◌≡◌, option_map, string_bytes};
ghost use Rattle.std.specs.Str.{bytes_eq};
ghost use Rattle.tf_provider_log.specs.Same.{is_same, is_same_option};
ghost use Rattle.tf_provider_protocol.specs.Meaning.{asked};
ghost use Rattle.tf_value_data.specs.Tree.{same, tree_of};

use tf_provider_protocol::Request;
use tf_value_data::Value;

/// Returns whether two requests have the same operation on the same object, with the same prior and requested object.
pub fn is_same(one: &Request, other: &Request) -> bool
    ensures { result ≡ is_same (asked one.now) (asked other.now) }
{
    one.op == other.op
        && one.address.as_str() == other.address.as_str()
        && one.type_name.as_str() == other.type_name.as_str()
        && is_same_text(&one.deposed, &other.deposed)
        && is_same_value(&one.prior, &other.prior)
        && is_same_value(&one.object, &other.object)
}

/// Returns whether two texts are both present and equal, or both absent.
pub fn is_same_text(one: &Option<String>, other: &Option<String>) -> bool
    ensures { result ≡ is_same_option bytes_eq (option_map string_bytes one.now) (option_map string_bytes other.now) }
{
    match (one, other) {
        (Some(one), Some(other)) => one.as_str() == other.as_str(),
        (None, None) => true,
        _ => false,
    }
}

/// Returns whether two values are both present and equal, or both absent.
fn is_same_value(one: &Option<Value>, other: &Option<Value>) -> bool
    ensures { result ≡ is_same_option same (option_map tree_of one.now) (option_map tree_of other.now) }
{
    match (one, other) {
        (Some(one), Some(other)) => one == other,
        (None, None) => true,
        _ => false,
    }
}
