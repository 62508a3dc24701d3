// `copy` and `clone`, written out since a derived one says nothing of a type that holds itself.
ghost use Rattle.std.specs.Prelude.{◌≡◌, IfOk};
ghost use Rattle.tf_value_data.specs.Tree.{tree_of, texts_view};

use crate::value::Value;
use std::alloc::AllocError;
use std::collections::{BTreeMap, BTreeSet};
use std::default::Emptied;

impl Clone for Value {
    ghost is_clone = { λ v w. tree_of w ≡ tree_of v };

    fn clone(&self) -> Result<Value, AllocError> {
        copy(self)
    }
}

/// Returns an equal value. Fails only if memory runs out.
pub fn copy(value: &Value) -> Result<Value, AllocError>
    ensures { IfOk result (λ v. tree_of v ≡ tree_of value.now) }
{
    match value {
        Value::Null => Ok(Value::Null),
        Value::Bool(b) => Ok(Value::Bool(*b)),
        Value::Int(number) => Ok(Value::Int(*number)),
        Value::Text(text) => Ok(Value::Text(text.clone()?)),
        Value::List(items) => {
            let mut copies = Vec::with_capacity(*items.allocator(), items.len())?;
            for item in items {
                copies.push(copy(item)?)?;
            }
            Ok(Value::List(copies))
        }
        Value::Map(entries) => {
            let mut copies = BTreeMap::emptied(entries)?;
            for (key, value) in entries.iter() {
                let name = key.clone()?;
                drop(copies.insert(name, copy(value)?)?);
            }
            Ok(Value::Map(copies))
        }
        Value::Set(texts) => Ok(Value::Set(copy_texts(texts)?)),
        Value::Unknown => Ok(Value::Unknown),
    }
}

// Copies the texts of a set.
fn copy_texts(texts: &BTreeSet<String>) -> Result<BTreeSet<String>, AllocError>
    ensures { IfOk result (λ s. texts_view s.keys ≡ texts_view texts.now.keys) }
{
    let copies = texts.clone()?;
    Ok(copies)
}
