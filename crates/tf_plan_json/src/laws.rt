//! A law on the document, proved for all plans: the function's contract is the law, and its body does nothing.

ghost use Rattle.tf_plan_json.specs.Laws.{TextIsOne};

/// States that a plan has at most one text of its document.
pub fn text_is_one()
    ensures { TextIsOne }
{}
