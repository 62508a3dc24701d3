//! The scope of the resolved names.

ghost use Rattle.tf_config_names.specs.Table.{names_in};
ghost use Rattle.tf_expr_eval.specs.Meaning.{and_then};
ghost use Rattle.tf_expr_operators.specs.Answer.{Shows, limited};
ghost use Rattle.tf_value_data.specs.Tree.{entries_view};
ghost use Rattle.tf_expand_keys.specs.Resolved.{answer_at, environment};
ghost use Rattle.tf_expand_keys.specs.Views.{resolved_names_of};

use crate::resolved::Resolved;
use std::collections::BTreeMap;
use tf_config_names::Declarations;
use tf_expr_eval::{EvalFault, Scope};
use tf_expr_operators::limited_at;
use tf_expr_syntax::Reference;
use tf_value_data::{Value, find};

/// A scope in which variables have their values, and locals and resources what they resolve to.
#[derive(Drop)]
pub struct NamesScope<'a, 'n> {
    /// The variables' values by name.
    pub variables: &'a BTreeMap<String, Value>,
    /// The names of locals and resources.
    pub names: &'a Declarations<'n>,
    /// What each name resolves to, by its place.
    pub resolved_names: &'a [Resolved],
}

impl Scope for NamesScope<'_, '_> {
    ghost environment = { λ s. environment (entries_view s.variables.now.entries) (names_in s.names.now) (resolved_names_of s.resolved_names.now) };

    fn look_at<'s>(&'s self, reference: &Reference) -> Result<&'s Value, EvalFault> {
        let first = reference.first.as_str();
        let name = reference.name.as_str();
        if first == "var" {
            return match find(self.variables, name) {
                Some(value) => limited_at(value),
                None => Err(EvalFault::Missing),
            };
        }
        shown_at(self.resolved_names, self.names.place(first, name))
    }
}

/// Borrows the value at a place. Fails with `Missing` if there is no place or nothing at it, and with the fault there.
fn shown_at(resolved_names: &[Resolved], place: Option<usize>) -> Result<&Value, EvalFault>
    ensures { Shows (and_then (answer_at (resolved_names_of resolved_names.now) place) limited) result }
{
    let Some(place) = place else {
        return Err(EvalFault::Missing);
    };
    match resolved_names.get(place) {
        Some(resolved) => resolved.shown(),
        None => Err(EvalFault::Missing),
    }
}
