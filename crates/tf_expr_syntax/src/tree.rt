//! Trees of templates.

use crate::operator::Operator;

/// A template that was read: texts and interpolations in turn, and the text after the last interpolation. Texts may
/// be empty.
#[derive(Debug, Drop)]
#[cycle(tree)]
pub struct Template {
    /// Each interpolation with the text before it.
    pub parts: Vec<(String, Term)>,
    /// The text after the last interpolation.
    pub last: String,
}

/// A reference to a name that a configuration declares, such as `var.n` or `sim_net.a`.
#[derive(Debug, Drop)]
pub struct Reference {
    /// The name before the dot.
    pub first: String,
    /// The name after the dot.
    pub name: String,
}

/// An operator before its operand.
#[derive(Clone, Copy, Debug, PartialEq, Eq)]
pub enum Prefix {
    /// `!`
    Not,
    /// `-`
    Negate,
}

/// An expression within an interpolation.
#[derive(Debug, Drop)]
#[cycle(tree)]
pub enum Term {
    /// A whole number, at most `i64::MAX`.
    Number(u64),
    /// `true` or `false`.
    Truth(bool),
    /// `null`.
    Null,
    /// A template between quotes.
    Quoted(Template),
    /// `a.b`
    Reference(Reference),
    /// `f(a, b)`
    Call(String, Vec<Term>),
    /// `(a)`
    Group(Box<Term>),
    /// `[a, b]`
    List(Vec<Term>),
    /// `a.b`, of a value
    Attribute(Box<Term>, String),
    /// `a[b]`
    Index(Box<Term>, Box<Term>),
    /// `!a` or `-a`
    Unary(Prefix, Box<Term>),
    /// `a + b` and the like
    Binary(Operator, Box<Term>, Box<Term>),
    /// `a ? b : c`
    Conditional(Box<Term>, Box<Term>, Box<Term>),
}

impl Term {
    ghost use Rattle.std.specs.Prelude.{◌≡◌};
    ghost use Rattle.tf_expr_syntax.specs.TemplateTree.{level, view};

    /// Returns the level of the expression in the grammar: 1 is a conditional, 2 to 7 are binary operators, 8 is a
    /// prefix operator with its operand, 9 an operand, and 10 an operand that an attribute or an index may follow.
    pub fn level(&self) -> usize
        ensures { result ≡ level (view self.now) }
    {
        match self {
            Term::Conditional(_, _, _) => 1,
            Term::Binary(operator, _, _) => operator.level(),
            Term::Unary(_, _) => 8,
            Term::Number(_) | Term::Truth(_) | Term::Null | Term::Quoted(_) => 9,
            _ => 10,
        }
    }
}
