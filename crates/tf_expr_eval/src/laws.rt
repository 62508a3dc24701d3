//! Laws of the meaning.

ghost use Rattle.tf_expr_eval.specs.Growth.{ExprKnowledgeGrows, KnowledgeGrows};
ghost use Rattle.tf_expr_eval.specs.Locality.{ExpressionsAreLocal, TemplatesAreLocal};
ghost use Rattle.tf_expr_eval.specs.Limits.{ExpressionsAreWithinLimits, TemplatesAreWithinLimits};

use tf_expr_operators::laws::{
    answers_are_within_limits, binary_grows, calls_grow, collections_grow, joined_grows,
    parts_grow, unary_grows,
};
use tf_value_data::refinement_is_an_order;

/// If one environment refines to another, and a template has a value in both, the first value refines to the second.
/// This follows from such a law of each operation. The body calls those laws for their contracts.
pub fn knowledge_grows()
    ensures { KnowledgeGrows }
{
    refinement_is_an_order();
    unary_grows();
    binary_grows();
    parts_grow();
    collections_grow();
    joined_grows();
    calls_grow();
}

/// If one environment refines to another, and an expression has a value in both, the first value refines to the
/// second. This follows from such laws of templates, lists and maps. The body calls those for their contracts.
pub fn expr_knowledge_grows()
    ensures { ExprKnowledgeGrows }
{
    refinement_is_an_order();
    knowledge_grows();
    collections_grow();
}

/// The values of templates and expressions are within the limits of weight and depth, in any environment. This
/// follows from such a law of all operations. The body calls it for its contract.
pub fn values_are_within_limits()
    ensures templates { TemplatesAreWithinLimits }
    ensures expressions { ExpressionsAreWithinLimits }
{
    answers_are_within_limits();
}

/// A template or an expression means the same in environments that agree on the references in it.
pub fn meaning_is_local()
    ensures templates { TemplatesAreLocal }
    ensures expressions { ExpressionsAreLocal }
{}
