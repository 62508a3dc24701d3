//! A name of a configuration.

ghost use Rattle.std.specs.Prelude.{◌≡◌};
ghost use Rattle.tf_config_names.specs.Declaration.{declaration_of};

use tf_config_address::ResourceAddr;
use tf_config_data::Block;
use tf_expr_syntax::Expr;

/// A name of a configuration, with its meaning.
#[derive(Clone, Copy)]
pub enum Declaration<'a> {
    /// `local.NAME`: the name and its expression.
    Local(&'a String, &'a Expr),
    /// `TYPE.NAME`: the resource's type and name, and its block.
    Resource(&'a ResourceAddr, &'a Block),
}

impl<'a> Declaration<'a> {
    /// Returns the two texts around the name's dot.
    pub(crate) fn texts(self) -> (&'a str, &'a str)
        ensures { (result.0.now, result.1.now) ≡ (declaration_of self.entry).name }
    {
        match self {
            Declaration::Local(name, _) => ("local", name.as_str()),
            Declaration::Resource(addr, _) => (addr.type_name.as_str(), addr.name.as_str()),
        }
    }
}
