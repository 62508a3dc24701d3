//! The functions that an expression may call.

/// A function of expressions.
#[derive(Clone, Copy, Debug, PartialEq, Eq, Drop)]
pub enum Function {
    /// Returns how many elements a list, a map or a set has.
    Length,
    /// Returns the keys of a map, in byte order.
    Keys,
    /// Returns the values of a map, in the order of their keys.
    Values,
    /// Merges maps. If several have a key, the last one's value wins.
    Merge,
    /// Concatenates lists.
    Concat,
    /// Joins the texts of a list, with a separator between each two.
    Join,
    /// Returns the set of a list's texts.
    ToSet,
}

impl Function {
    ghost use Rattle.std.specs.Prelude.{◌≡◌};
    ghost use Rattle.tf_expr_syntax.specs.Function.{function_named, takes};

    /// Returns the function of a name, or `None` if there is no such function.
    pub fn named(name: &str) -> Option<Function>
        ensures { result ≡ function_named name.now }
    {
        match name {
            "length" => Some(Function::Length),
            "keys" => Some(Function::Keys),
            "values" => Some(Function::Values),
            "merge" => Some(Function::Merge),
            "concat" => Some(Function::Concat),
            "join" => Some(Function::Join),
            "toset" => Some(Function::ToSet),
            _ => None,
        }
    }

    /// Returns whether the function takes the given number of arguments.
    pub fn takes(self, count: usize) -> bool
        ensures { result ≡ takes self count }
    {
        match self {
            Function::Length | Function::Keys | Function::Values | Function::ToSet => count == 1,
            Function::Merge | Function::Concat => count > 0,
            Function::Join => count == 2,
        }
    }
}
