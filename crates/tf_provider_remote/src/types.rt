//! The types of providers that are other programs.

ghost use Rattle.std.specs.Arc.{arc_value};
ghost use Rattle.std.specs.Prelude.{◌≡◌, IfOk, find, map, option_map};
ghost use Rattle.std.specs.Str.{bytes_eq};
ghost use Rattle.tf_provider_remote.specs.Types.{is_idempotent, remote_meaning, type_of};

use std::alloc::{AllocError, Global};
use std::sync::Arc;
use tf_provider_protocol::{Provider, Reply, Request, Schema};

/// A type of a provider that is another program.
#[derive(Drop)]
pub struct RemoteType {
    /// The number of the provider, in the order of the command line.
    pub provider: usize,
    /// The name of the type.
    pub name: String,
    /// Its schema.
    pub schema: Schema,
    /// Whether a request does no harm if it is made twice.
    pub idempotent: bool,
}

/// The types of all providers that are other programs, as one provider. The first type of a name counts. It calls
/// nobody: each reply is `NoMemory`.
#[derive(Drop)]
pub struct RemoteTypes {
    types: Arc<Vec<RemoteType>>,
}

impl RemoteTypes {
    /// Builds the provider of these types.
    pub fn new(alloc: Global, types: Vec<RemoteType>) -> Result<RemoteTypes, AllocError>
        ensures { IfOk result (λ r. ⟦<RemoteTypes as Provider>⟧.meaning r ≡ remote_meaning (map type_of types.items)) }
    {
        let types = Arc::new(alloc, types)?;
        Ok(RemoteTypes { types })
    }

    /// Returns the same provider once more.
    pub fn share(&self) -> Result<RemoteTypes, AllocError>
        ensures { IfOk result (λ r. ⟦<RemoteTypes as Provider>⟧.meaning r ≡ ⟦<RemoteTypes as Provider>⟧.meaning self.now) }
    {
        let types = Arc::try_clone(&self.types)?;
        Ok(RemoteTypes { types })
    }

    /// Returns the number of the provider that has a type, if one has it.
    pub fn provider_of(&self, type_name: &str) -> Option<usize> {
        let types: &Vec<RemoteType> = &self.types;
        match named(types.as_slice(), type_name) {
            Some(found) => Some(found.provider),
            None => None,
        }
    }

    /// Returns whether a request of a type does no harm if it is made twice, by what the provider of the type says.
    pub fn is_idempotent(&self, type_name: &str) -> bool
        ensures { result ≡ is_idempotent type_name.now (map type_of (arc_value self.now.types).items) }
    {
        let types: &Vec<RemoteType> = &self.types;
        match named(types.as_slice(), type_name) {
            Some(found) => found.idempotent,
            None => false,
        }
    }
}

impl Provider for RemoteTypes {
    ghost use Rattle.std.specs.Arc.{arc_value};
    ghost use Rattle.std.specs.Prelude.{map};
    ghost use Rattle.tf_provider_remote.specs.Types.{remote_meaning, type_of};

    ghost meaning = { λ r. remote_meaning (map type_of (arc_value r.types).items) };

    fn schema(&self, type_name: &str) -> Option<&Schema> {
        let types: &Vec<RemoteType> = &self.types;
        match named(types.as_slice(), type_name) {
            Some(found) => Some(&found.schema),
            None => None,
        }
    }

    fn apply(&self, _request: &Request) -> Reply {
        Reply::NoMemory
    }
}

/// Returns the first type of a name.
fn named<'a>(types: &'a [RemoteType], name: &str) -> Option<&'a RemoteType>
    ensures { option_map (λ t. type_of t.now) result ≡ find (λ t. bytes_eq t.name name.now) (map type_of types.now) }
{
    for known in types {
        if known.name.as_str() == name {
            return Some(known);
        }
    }
    None
}
