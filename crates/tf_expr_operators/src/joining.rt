//! Texts and values, joined to a text.

ghost use Rattle.std.specs.Prelude.{◌↔◌, ◌≡◌, ◌++◌, IsTrue, codes, if◌then◌else◌};
ghost use Rattle.tf_value_data.specs.Measure.{IsWithinLimits};
ghost use Rattle.tf_value_data.specs.Tree.{text as text_tree};

use std::alloc::{AllocError, Global};
use tf_expr_syntax::EvalFault;
use tf_value_data::{MAX_WEIGHT, Value};

/// Texts and values that are joined to one text: a template's texts and the values of its interpolations. Texts,
/// whole numbers and truth values have texts. Null, lists, maps and sets don't. An `Unknown` among the values makes
/// the result `Unknown`.
///
/// It holds only the joined text so far, so no more than a value may hold, however many values are pushed.
#[derive(Drop)]
pub struct Joiner {
    alloc: Global,
    joined: Joined,
}

/// The result of joining the values so far.
#[derive(Drop)]
enum Joined {
    /// A text within the limits.
    Text(String),
    /// A text above the limits.
    TooLarge,
    /// No text, because a value is of a kind that has none.
    WrongKind,
    /// Unknown, because a value is `Unknown`.
    Unknown,
}

impl Joiner {
    ghost use Rattle.std.specs.Prelude.{◌≡◌, OnOk, OnErr, None, false};
    ghost use Rattle.tf_value_data.specs.Tree.{Tree, text, Items, no_items, tree_of};
    ghost use Rattle.tf_expr_operators.specs.Answer.{Answers, is_unknown, item_behind};
    ghost use Rattle.tf_expr_operators.specs.Joining.{text_of};
    ghost use Rattle.tf_expr_operators.specs.Joiner.{answer_so_far, Joins};

    /// Returns a joiner of nothing, whose result is the empty text.
    pub fn new(alloc: Global) -> Joiner
        ensures { Joins result no_items }
    {
        Joiner {
            alloc,
            joined: Joined::Text(String::new(alloc)),
        }
    }

    /// Appends a text. Fails only if memory runs out, and then appends nothing.
    pub fn push_text(&mut self, literal: &str) -> Result<(), AllocError>
        ensures ok { OnOk result ((ts : Items) → Joins self.old ts → Joins self.new (item_behind ts (text literal.now))) }
        ensures err { OnErr result (answer_so_far self.new ≡ answer_so_far self.old) }
    {
        if let Joined::Text(text) = &mut self.joined {
            if fits(text.as_str(), literal) {
                return text.push_str(literal);
            }
            self.joined = Joined::TooLarge;
        }
        Ok(())
    }

    /// Appends a value. Fails only if memory runs out, and then appends nothing. If a value has no text, `finish`
    /// fails.
    pub fn push_value(&mut self, value: &Value) -> Result<(), AllocError>
        ensures ok { OnOk result ((ts : Items) → Joins self.old ts → Joins self.new (item_behind ts (tree_of value.now))) }
        ensures err { OnErr result (answer_so_far self.new ≡ answer_so_far self.old) }
    {
        match value {
            Value::Text(text) => self.push_text(text.as_str()),
            Value::Int(number) => {
                let digits = number.to_string(self.alloc)?;
                self.push_text(digits.as_str())
            }
            Value::Bool(truth) => self.push_text(truth_name(*truth)),
            Value::Unknown => {
                self.joined = Joined::Unknown;
                Ok(())
            }
            Value::Null | Value::List(_) | Value::Map(_) | Value::Set(_) => {
                self.push_misfit();
                Ok(())
            }
        }
    }

    // Records a value that has no text.
    fn push_misfit(&mut self)
        ensures { (ts : Items) (t : Tree) → is_unknown t ≡ false → text_of t ≡ None → Joins self.old ts → Joins self.new (item_behind ts t) }
    {
        match self.joined {
            Joined::Unknown => {}
            _ => self.joined = Joined::WrongKind,
        }
    }

    /// Returns the joined text, or `Unknown` if a value is `Unknown`. Fails with `WrongKind` exactly if no value is
    /// `Unknown` and one is null, a list, a map or a set. Fails with `TooLarge` exactly if all have texts and the
    /// joined text is above the limits.
    pub fn finish(self) -> Result<Value, EvalFault>
        ensures { Answers (answer_so_far self) result }
    {
        match self.joined {
            Joined::Text(text) => Ok(Value::Text(text)),
            Joined::TooLarge => Err(EvalFault::TooLarge),
            Joined::WrongKind => Err(EvalFault::WrongKind),
            Joined::Unknown => Ok(Value::Unknown),
        }
    }
}

// Returns whether two texts, joined, are a value within the limits.
fn fits(text: &str, literal: &str) -> bool
    ensures { IsTrue result ↔ IsWithinLimits (text_tree (text.now ++ literal.now)) }
{
    (text.len() as u64).saturating_add(literal.len() as u64) < MAX_WEIGHT
}

// Returns the name of a truth value.
fn truth_name(truth: bool) -> &'static str
    ensures { result.now ≡ (if truth then codes "true" else codes "false") }
{
    if truth { "true" } else { "false" }
}
