//! Operators.

/// A binary operator.
#[derive(Clone, Copy, Debug, PartialEq, Eq)]
pub enum Operator {
    /// `||`
    Or,
    /// `&&`
    And,
    /// `==`
    Equal,
    /// `!=`
    NotEqual,
    /// `>`
    Greater,
    /// `>=`
    GreaterOrEqual,
    /// `<`
    Less,
    /// `<=`
    LessOrEqual,
    /// `+`
    Add,
    /// `-`
    Subtract,
    /// `*`
    Multiply,
}

impl Operator {
    ghost use Rattle.std.specs.Prelude.{◌≡◌};
    ghost use Rattle.tf_expr_syntax.specs.TemplateTree.{level_of};

    /// Returns how tightly the operator binds, from 2 to 7.
    pub fn level(self) -> usize
        ensures { result ≡ level_of self }
    {
        match self {
            Operator::Or => 2,
            Operator::And => 3,
            Operator::Equal | Operator::NotEqual => 4,
            Operator::Greater | Operator::GreaterOrEqual | Operator::Less | Operator::LessOrEqual =>
                5,
            Operator::Add | Operator::Subtract => 6,
            Operator::Multiply => 7,
        }
    }
}
