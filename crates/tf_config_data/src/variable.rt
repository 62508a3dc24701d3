//! Input variables.

use tf_value_data::Value;

/// What a variable's text, number or truth value has to be.
#[derive(Clone, Copy, Debug, PartialEq, Eq)]
pub enum Element {
    /// `any`: every value.
    Any,
    /// `string`: a text; whole numbers and truth values are converted to one.
    String,
    /// `number`: a whole number.
    Number,
    /// `bool`: a truth value.
    Bool,
}

/// The type of a variable: `any`, `string`, `number` or `bool`, or a list or map of one of these. `null` fits every type.
#[derive(Clone, Copy, Debug, PartialEq, Eq)]
pub enum VariableType {
    /// One of the four, as in `string`.
    One(Element),
    /// A list, as in `list(string)`.
    List(Element),
    /// A map from names, as in `map(number)`.
    Map(Element),
}

/// The contents of a `variable` block.
#[derive(Debug, Drop)]
pub struct Variable {
    /// The type, or `any` if the block doesn't give one.
    pub value_type: VariableType,
    /// The value if the variables file gives none.
    pub default: Option<Value>,
}
