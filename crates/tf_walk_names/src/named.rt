//! The names that an instance's object is computed from.

ghost use Rattle.std.specs.Prelude.{◌≡◌, IfOk};
ghost use Rattle.tf_expand_keys.specs.Words.{block_at, ResourceAddrView, names_in, places, repetition_of};
ghost use Rattle.tf_walk_names.specs.Wanted.{instance_names, named_in_for_each};

use std::alloc::{AllocError, Global};
use tf_config_data::{Block, Repetition};
use tf_config_names::Declarations;

/// Returns the indexes of the names in `for_each` and the arguments of a block, as often as they occur. Leaves out
/// names that aren't declared, and also `count` and `depends_on`: neither is evaluated for one instance.
pub fn named_for_instance(
    alloc: Global,
    names: &Declarations<'_>,
    block: &Block,
) -> Result<Vec<usize>, AllocError>
    ensures { IfOk result (λ named. (addr : ResourceAddrView) → named.items ≡ places (names_in names.now) (instance_names (block_at addr block.now))) }
{
    let mut named = named_in_for_each(alloc, names, &block.repetition)?;
    for (_, expr) in block.arguments.iter() {
        let more = names.named_in(alloc, expr)?;
        named.extend_from_slice(more.as_slice())?;
    }
    Ok(named)
}

/// Returns the indexes of the names in `for_each`.
fn named_in_for_each(
    alloc: Global,
    names: &Declarations<'_>,
    repetition: &Repetition,
) -> Result<Vec<usize>, AllocError>
    ensures { IfOk result (λ named. named.items ≡ places (names_in names.now) (named_in_for_each (repetition_of repetition.now))) }
{
    match repetition {
        Repetition::ForEach(expr) => names.named_in(alloc, expr),
        Repetition::Single | Repetition::Count(_) => Ok(Vec::new(alloc)),
    }
}
