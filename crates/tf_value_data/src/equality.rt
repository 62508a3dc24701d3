// Equality, written out: a derived one would compare what the contracts don't see.
ghost use Rattle.std.specs.Prelude.{◌≡◌, ◌↔◌, IsTrue};
ghost use Rattle.std.specs.Ordering.{on};
ghost use Rattle.tf_value_data.specs.Tree.{tree_of, same};
ghost use Rattle.tf_value_data.specs.Equality.{same_values, same_values_part};

use crate::refinement::refines;
use crate::value::Value;

/// Two values are equal exactly if they are the same tree. Two unknown values are equal.
impl PartialEq for Value {
    ghost eq = { on tree_of same };

    ghost laws = { same_values_part };

    fn eq(&self, other: &Value) -> bool
        ensures value { result ≡ same (tree_of self.now) (tree_of other.now) }
        ensures exact { IsTrue result ↔ (tree_of self.now ≡ tree_of other.now) }
    {
        refines(self, other) && refines(other, self)
    }
}

impl Eq for Value {
    ghost laws = { same_values };
}
