//! What an action saves of an object, or leaves of one, by the reply and its verdict.

ghost use Rattle.std.specs.Prelude.{◌≡◌, Option, Some, option_map};
ghost use Rattle.tf_provider_protocol.specs.Meaning.{Answer, Asked};
ghost use Rattle.tf_provider_protocol.specs.Schema.{SchemaView};
ghost use Rattle.tf_provider_protocol.specs.Verdict.{verdict_on};
ghost use Rattle.tf_state_next.specs.Ends.{left_of, saved_of};
ghost use Rattle.tf_state_next.specs.Saved.{as_saved, formed_in, left_by_destroy, saved_by_create, saved_by_update};
ghost use Rattle.tf_value_data.specs.Nulls.{with_nulls};
ghost use Rattle.tf_value_data.specs.Tree.{tree_of};

use crate::ends::{Left, Saved};
use tf_provider_protocol::Verdict;
use tf_state_data::Object;

/// Returns what a create saves, by the verdict on its reply, the object in the reply if it is well formed, and the
/// requested object with null for each unknown part.
pub fn saved_by_create(verdict: Verdict, formed: Option<Object>, fallback: Object) -> Option<Saved>
    ensures { (schema : SchemaView) (r : Asked) (answer : Option Answer) → verdict ≡ verdict_on r answer schema
        → option_map (λ o. tree_of o.value) formed ≡ formed_in schema answer → option_map with_nulls r.object ≡ Some (tree_of fallback.value)
        → option_map saved_of result ≡ saved_by_create schema r answer verdict }
{
    match verdict {
        Verdict::Good => as_saved(formed, false),
        Verdict::Contradicted(_) | Verdict::Failed => as_saved(formed, true),
        Verdict::Malformed => as_saved(Some(fallback), true),
        Verdict::Excused => None,
    }
}

/// Returns what an update saves, by the verdict on its reply and the object in the reply if it is well formed.
pub fn saved_by_update(verdict: Verdict, formed: Option<Object>) -> Option<Saved>
    ensures { (schema : SchemaView) (r : Asked) (answer : Option Answer) → verdict ≡ verdict_on r answer schema
        → option_map (λ o. tree_of o.value) formed ≡ formed_in schema answer
        → option_map saved_of result ≡ saved_by_update schema answer verdict }
{
    match verdict {
        Verdict::Good | Verdict::Contradicted(_) | Verdict::Failed => as_saved(formed, false),
        Verdict::Malformed | Verdict::Excused => None,
    }
}

/// Returns what a destroy leaves, by the verdict on its reply and the object in the reply if it is well formed.
pub fn left_by_destroy(verdict: Verdict, formed: Option<Object>) -> Left
    ensures { (schema : SchemaView) (r : Asked) (answer : Option Answer) → verdict ≡ verdict_on r answer schema
        → option_map (λ o. tree_of o.value) formed ≡ formed_in schema answer
        → left_of result ≡ left_by_destroy schema answer verdict }
{
    match (verdict, formed) {
        (Verdict::Good, _) => Left::Gone,
        (Verdict::Failed, Some(object)) => Left::Changed(object),
        _ => Left::Unchanged,
    }
}

/// Returns an object as saved, tainted or not, if there is one.
fn as_saved(object: Option<Object>, tainted: bool) -> Option<Saved>
    ensures { option_map saved_of result ≡ as_saved tainted (option_map (λ o. tree_of o.value) object) }
{
    match object {
        Some(attributes) => Some(Saved {
            attributes,
            tainted,
        }),
        None => None,
    }
}
